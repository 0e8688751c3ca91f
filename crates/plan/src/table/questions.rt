// What can be asked of a table.
ghost use Rattle.std.specs.Prelude.{◌≡◌, length, map};
ghost use Rattle.std.specs.Option.{option_map};
ghost use Rattle.std.specs.List.{slice_get};
ghost use Rattle.plan.specs.Views.{task_of, tasks};

use super::Table;
use crate::row::Row;

impl Table {
    // How many rows there are.
    pub fn count(&self) -> u8
        ensures { result ≡ length (tasks self.now) }
    {
        self.count
    }

    // The rows, in order.
    pub fn rows(&self) -> &[Row]
        ensures { map task_of result.now ≡ tasks self.now }
    {
        &self.rows[..self.count as usize]
    }

    // The row of a task, or none where there is no such task.
    pub fn row(&self, task: u8) -> Option<Row>
        ensures { option_map task_of result ≡ slice_get (tasks self.now) task }
    {
        self.rows().get(task as usize).copied()
    }
}
