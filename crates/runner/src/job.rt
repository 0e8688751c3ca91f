// The latest job of a task.
ghost use Rattle.std.specs.Prelude.{◌≡◌};
ghost use Rattle.runner.specs.Jobs.{sooner, to_run};
ghost use Rattle.std.proofs.Common.{rules};

use order::ranking::{Marked, Ranked};

// `left` is 0 where the job is finished, or none was requested yet, and `deadline` is 0 too where none was.
// No plainer as Options: the rules count the ticks left and the deadlines of all tasks as numbers, 0 where there is no job.
#[derive(Clone, Copy)]
pub(crate) struct Job {
    pub(crate) bin: u8,
    pub(crate) deadline: u32,
    pub(crate) left: u32,
}

// Jobs go by deadline.
impl Ranked for Job {
    ghost less = { sooner };

    ghost ranks = { Prim.search rules };

    fn before(&self, other: &Job) -> bool {
        self.deadline < other.deadline
    }
}

// An unfinished job is picked by its bin.
impl Marked for Job {
    ghost marking = { to_run };

    fn mark(&self) -> Option<u8> {
        if self.left == 0 { None } else { Some(self.bin) }
    }
}
