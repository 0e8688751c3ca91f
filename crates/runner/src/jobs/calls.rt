ghost use Rattle.std.specs.Prelude.{◌≡◌, ℕ, ◌<◌, get_or, slice_index, slice_index_or, slice_set};
ghost use Rattle.order.specs.Picks.{Picked};
ghost use Rattle.plan.specs.Plans.{planned};
ghost use Rattle.runner.specs.Jobs.{none, sooner, to_run, worked};

use super::Jobs;
use crate::job::Job;
use order::pick::least;
use plan::Plan;
use plan::table::ROWS;

impl Jobs {
    // A table without jobs, each task in its bin of the plan.
    pub(crate) fn of(plan: &Plan) -> Jobs
        ensures bins { (i : ℕ) → i < 64 → (get_or result.slots i none).bin ≡ slice_index (planned plan.now).bins i }
        ensures deadlines { (i : ℕ) → (get_or result.slots i none).deadline ≡ 0 }
        ensures left { (i : ℕ) → (get_or result.slots i none).left ≡ 0 }
    {
        let mut slots = [Job {
            bin: 0,
            deadline: 0,
            left: 0,
        }; ROWS];
        for (task, job) in slots.iter_mut().enumerate() {
            job.bin = plan.bin(task as u8).unwrap_or(0);
        }
        Jobs { slots }
    }

    // That a task's number is below 64 is asked here and twice below: no plainer as a type, made and unmade at each call.
    pub(crate) fn get(&self, task: u8) -> Job
        requires { task < 64 }
        ensures { result ≡ slice_index_or self.now.slots task none }
    {
        self.slots[task as usize]
    }

    // Alters the record of one task; the others are not touched.
    pub(crate) fn set(&mut self, task: u8, job: Job)
        requires { task < 64 }
        ensures { self.new.slots ≡ slice_set self.old.slots task job }
    {
        self.slots[task as usize] = job;
    }

    // A tick less of a task's job.
    pub(crate) fn work(&mut self, task: u8)
        requires known { task < 64 }
        requires unfinished { 0 < (get_or self.old.slots task none).left }
        ensures { self.new.slots ≡ slice_set self.old.slots task (worked (slice_index_or self.old.slots task none)) }
    {
        let job = self.get(task);
        self.set(
            task,
            Job {
                left: job.left - 1,
                ..job
            },
        );
    }

    // The task of a bin that is to run: the one whose unfinished job has the earliest deadline, the lower number of equals.
    pub(crate) fn next_of(&self, bin: u8) -> Option<u8>
        ensures { Picked sooner to_run bin self.now.slots 64 result }
    {
        least(&self.slots, bin).map(|place| place as u8)
    }
}
