// What can be asked of a plan. The numbers of tasks, bins and processors begin at 0.
ghost use Rattle.std.specs.Prelude.{◌≡◌, length, map, sum};
ghost use Rattle.std.specs.Option.{option_map};
ghost use Rattle.std.specs.List.{slice_get};
ghost use Rattle.plan.specs.Bins.{load_of, reserve_in};
ghost use Rattle.plan.specs.Closing.{charges_of};
ghost use Rattle.plan.specs.Plans.{planned};
ghost use Rattle.plan.specs.Refusals.{verdict_number};
ghost use Rattle.plan.specs.Views.{task_of};

use super::Plan;
use crate::bin::Bin;
use crate::row::Row;
use crate::verdict::Verdict;

impl Plan {
    // Whether the plan is good, or the first refusal that applied.
    pub fn verdict(&self) -> Verdict
        ensures { result ≡ (planned self.now).verdict }
    {
        self.verdict
    }

    // 0 for a good plan, else the refusal's number.
    pub fn number(&self) -> u8
        ensures { result ≡ verdict_number (planned self.now).verdict }
    {
        match self.verdict {
            Ok(()) => 0,
            Err(refusal) => refusal.number(),
        }
    }

    // The processors, as they were given.
    pub fn processors(&self) -> u8
        ensures { result ≡ (planned self.now).processors }
    {
        self.processors
    }

    // Delta, as it was given.
    pub fn delta(&self) -> u8
        ensures { result ≡ (planned self.now).delta }
    {
        self.delta
    }

    // How many tasks there are: as many as rows.
    pub fn tasks(&self) -> u8
        ensures { result ≡ length (planned self.now).tasks }
    {
        self.table.count()
    }

    // The rows, in order.
    pub fn rows(&self) -> &[Row]
        ensures { map task_of result.now ≡ (planned self.now).tasks }
    {
        self.table.rows()
    }

    // The row of a task, or none where there is no such task.
    pub fn row(&self, task: u8) -> Option<Row>
        ensures { option_map task_of result ≡ slice_get (planned self.now).tasks task }
    {
        self.table.row(task)
    }

    // The share of a processor that a task needs, in millionths, or none where there is no such task.
    pub fn charge(&self, task: u8) -> Option<u32>
        ensures { result ≡ slice_get (charges_of (planned self.now).tasks) task }
    {
        self.row(task).map(|row| row.charge())
    }

    // The bin of a task, or none where there is no such task or the plan has no bins.
    pub fn bin(&self, task: u8) -> Option<u8>
        ensures { result ≡ slice_get (planned self.now).bins task }
    {
        self.bin_of.get(task as usize).copied()
    }

    // How many bins there are.
    pub fn bins(&self) -> u8
        ensures { result ≡ length (planned self.now).loads }
    {
        self.bins.len() as u8
    }

    // The bins, in order.
    pub fn packed(&self) -> &[Bin]
        ensures loads { map load_of result.now ≡ (planned self.now).loads }
        ensures reserves { map reserve_in result.now ≡ (planned self.now).reserves }
    {
        self.bins.as_slice()
    }

    // No plainer with `reserve` as one question: it would be handed the field that is asked for.
    // The sum of the charges in a bin, or none where there is no such bin.
    pub fn load(&self, bin: u8) -> Option<u32>
        ensures { result ≡ slice_get (planned self.now).loads bin }
    {
        self.bins.get(bin as usize).map(|bin| bin.load)
    }

    // The ticks of each slot that a bin gets, or none where there is no such bin.
    pub fn reserve(&self, bin: u8) -> Option<u32>
        ensures { result ≡ slice_get (planned self.now).reserves bin }
    {
        self.bins.get(bin as usize).map(|bin| bin.reserve)
    }

    // The reserves of all bins together.
    pub fn reserved(&self) -> u32
        ensures { result ≡ sum (planned self.now).reserves }
    {
        self.bins.iter().map(|bin| bin.reserve).sum()
    }

    // The shortest period of the table, 0 where it has no rows. 0 and no Option, as for the slot: the rules have these numbers of every plan.
    pub fn shortest(&self) -> u32
        ensures { result ≡ (planned self.now).shortest }
    {
        self.shortest
    }

    // The ticks of a slot, 0 where the plan has no bins.
    pub fn slot(&self) -> u32
        ensures { result ≡ (planned self.now).slot }
    {
        self.slot
    }
}
