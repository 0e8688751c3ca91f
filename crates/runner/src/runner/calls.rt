ghost use Rattle.std.specs.Prelude.{◌≡◌, length};
ghost use Rattle.layout.specs.Makes.{Fits};
ghost use Rattle.plan.specs.Plans.{planned};
ghost use Rattle.schedule.specs.State.{Fresh};
ghost use Rattle.schedule.specs.Steps.{Requested, Ended, Ticked};
ghost use Rattle.schedule.specs.Promise.{Kept};
ghost use Rattle.runner.specs.Refusals.{answer};
ghost use Rattle.runner.specs.Views.{work_of, state_of, SamePlan, RowOf};

use super::Runner;
use crate::job::Job;
use crate::jobs::{Jobs, run_bins};
use crate::refusal::CallRefusal;
use layout::{Layout, TICKS, fits};
use plan::{Plan, Row};

impl<L: Layout> Runner<L> {
    // Starts a plan on a layout, at clock 0. A layout that does not fit gives a runner without tasks.
    pub fn start(plan: Plan, layout: L) -> Runner<L>
        ensures plan { result.plan ≡ plan }
        ensures layout { result.layout ≡ layout }
        ensures tasks { (Fits (planned plan) (L.Layout.meaning layout) → result.tasks ≡ length (planned plan).tasks) × ((Fits (planned plan) (L.Layout.meaning layout) → ⊥) → result.tasks ≡ 0) }
        ensures fresh { Fresh (state_of result) }
        ensures promise { Fits (planned plan) (L.Layout.meaning layout) → Kept (work_of result) (L.Layout.meaning layout) (state_of result) }
    {
        let tasks = if fits(&plan, &layout).is_ok() {
            plan.tasks()
        } else {
            0
        };
        let jobs = Jobs::of(&plan);
        Runner {
            plan,
            layout,
            tasks,
            clock: 0,
            jobs,
        }
    }

    // The row of a task that the runner runs.
    fn row(&self, task: u8) -> Option<Row>
        ensures { RowOf (work_of self.now) task result }
    {
        if task < self.tasks {
            self.plan.row(task)
        } else {
            None
        }
    }

    // `same` stands on each call: it is of the runner before and after, which no field of one runner can tell.
    // Starts a job of a task, due one period from now. Refused where there is no such task, and until the period of its last job is over.
    pub fn request(&mut self, task: u8) -> Result<(), CallRefusal>
        ensures requested { Requested (work_of self.old) (state_of self.old) task (answer result) (state_of self.new) }
        ensures same { SamePlan self.old self.new }
    {
        let row = self.row(task).ok_or(CallRefusal::NoSuchTask)?;
        let job = self.jobs.get(task);
        if self.clock < job.deadline {
            return Err(CallRefusal::TooEarly);
        }
        self.jobs.set(
            task,
            Job {
                deadline: self.clock + row.period(),
                left: row.budget(),
                ..job
            },
        );
        Ok(())
    }

    // Ends the unfinished job of a task. Refused where there is no such task, or it has no such job.
    pub fn done(&mut self, task: u8) -> Result<(), CallRefusal>
        ensures ended { Ended (work_of self.old) (state_of self.old) task (answer result) (state_of self.new) }
        ensures same { SamePlan self.old self.new }
    {
        if task >= self.tasks {
            return Err(CallRefusal::NoSuchTask);
        }
        let job = self.jobs.get(task);
        if job.left == 0 {
            return Err(CallRefusal::NoJob);
        }
        self.jobs.set(task, Job { left: 0, ..job });
        Ok(())
    }

    // Fills a row of one byte for each processor and moves the clock on by a tick. Refused where the row is of another length, and at the
    // end of the clock; then nothing is altered.
    pub fn tick(&mut self, row: &mut [u8]) -> Result<(), CallRefusal>
        ensures ticked { Ticked (work_of self.old) (L.Layout.meaning self.old.layout) (state_of self.old) row.old (answer result) row.new (state_of self.new) }
        ensures same { SamePlan self.old self.new }
    {
        if row.len() != self.layout.processors() as usize {
            return Err(CallRefusal::RowArea);
        }
        if self.clock >= TICKS {
            return Err(CallRefusal::ClockEnd);
        }
        run_bins(&self.layout, self.clock, &mut self.jobs, row);
        self.clock += 1;
        Ok(())
    }
}

impl<L: Layout + Drop> Runner<L> {
    // Stops the runner and gives back the plan that it was started with.
    pub fn stop(self) -> Plan
        ensures { result ≡ self.plan }
    {
        let Runner {
            plan: given,
            layout: _,
            tasks: _,
            clock: _,
            jobs: _,
        } = self;
        given
    }
}
