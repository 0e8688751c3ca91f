// What changes an open table.
ghost use Rattle.std.specs.Prelude.{◌≡◌, [], ◌∷◌, ◌++◌, length, Some, None, MatchResult};
ghost use Rattle.plan.specs.Rows.{row_refusal};
ghost use Rattle.plan.specs.Views.{tasks};

use super::{ROWS, Table};
use crate::name::Name;
use crate::refusal::RowRefusal;
use crate::row::Row;

impl Table {
    // A table without rows.
    pub fn new() -> Table
        ensures { tasks result ≡ [] }
    {
        Table {
            rows: [Row::vacant(); ROWS],
            count: 0,
        }
    }

    // One more row at the end. A refused row leaves the table as it was, places past the last row included.
    pub fn add(&mut self, budget: u32, period: u32, name: &[u8]) -> Result<(), RowRefusal>
        ensures { MatchResult result (λ _. (row_refusal budget period name.now (length (tasks self.old)) ≡ None) × (tasks self.new ≡ tasks self.old ++ record { budget = budget; period = period; name = name.now } ∷ [])) (λ e. (row_refusal budget period name.now (length (tasks self.old)) ≡ Some e) × (self.new ≡ self.old)) }
    {
        let name = Name::new(name)?;
        let row = Row::new(budget, period, name)?;
        let at = self.count as usize;
        if at >= ROWS {
            return Err(RowRefusal::TableFull);
        }
        self.rows[at] = row;
        self.count += 1;
        Ok(())
    }

    // Takes all rows out.
    pub fn clear(&mut self)
        ensures { tasks self.new ≡ [] }
    {
        self.count = 0;
    }
}
