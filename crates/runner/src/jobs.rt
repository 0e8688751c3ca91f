// The job table.
ghost use Rattle.std.specs.Prelude.{◌≡◌, length};

use crate::job::Job;
use plan::table::ROWS;

mod calls;
mod running;

pub(crate) use running::run_bins;

// The latest job of each task, by the task's number. An array: all places are in use, those past the tasks by jobs that are finished.
#[derive(Drop)]
pub(crate) struct Jobs {
    pub(crate) slots: [Job; ROWS],
    ghost wide: { length slots ≡ 64 },
}
