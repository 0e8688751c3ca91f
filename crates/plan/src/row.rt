// A row of a table: one sporadic task.
ghost use Rattle.std.specs.Prelude.{◌≡◌, ◌*◌, ◌≤◌, Some, None, MatchResult};
ghost use Rattle.plan.specs.Rows.{number_refusal};
ghost use Rattle.plan.specs.Method.{full, up};

use crate::FULL;
use crate::name::Name;
use crate::refusal::RowRefusal;

// The longest period, in ticks.
pub const LONGEST_PERIOD: u32 = 1_000_000;

// Each job of the task runs for at most `budget` ticks; requests come at least `period` ticks apart, and a job is due one period after its
// request.
#[derive(Clone, Copy)]
pub struct Row {
    budget: u32,
    period: u32,
    name: Name,
    ghost some: { 1 ≤ budget },
    ghost room: { budget ≤ period },
    ghost short: { period ≤ 1000000 },
}

impl Row {
    pub(crate) fn new(budget: u32, period: u32, name: Name) -> Result<Row, RowRefusal>
        ensures { MatchResult result (λ row. (number_refusal budget period ≡ None) × (row.budget ≡ budget) × (row.period ≡ period) × (row.name ≡ name)) (λ e. number_refusal budget period ≡ Some e) }
    {
        if budget == 0 {
            return Err(RowRefusal::NoBudget);
        }
        if period > LONGEST_PERIOD {
            return Err(RowRefusal::LongPeriod);
        }
        if budget > period {
            return Err(RowRefusal::BudgetAbovePeriod);
        }
        Ok(Row {
            budget,
            period,
            name,
        })
    }

    // For places of a table that hold no row yet.
    pub(crate) fn vacant() -> Row {
        Row {
            budget: 1,
            period: 1,
            name: Name::vacant(),
        }
    }

    // The share of a processor that the task needs, in millionths, rounded up.
    pub(crate) fn charge(&self) -> u32
        ensures is { result ≡ up (self.now.budget * full) self.now.period }
        ensures light { result ≤ full }
    {
        (self.budget as u64 * FULL as u64).div_ceil(self.period as u64) as u32
    }

    pub fn budget(&self) -> u32
        ensures { result ≡ self.now.budget }
    {
        self.budget
    }

    pub fn period(&self) -> u32
        ensures { result ≡ self.now.period }
    {
        self.period
    }

    pub fn name(&self) -> Name
        ensures { result ≡ self.now.name }
    {
        self.name
    }
}
