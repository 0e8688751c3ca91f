// Why a row is refused.
ghost use Rattle.std.specs.Prelude.{◌≡◌, Some};
ghost use Rattle.plan.specs.Refusals.{row_number};
ghost use Rattle.plan.specs.Words.{row_words};

use std::error::Error;
use std::fmt;

// The cases stand in the order in which a row is tested.
#[derive(Clone, Copy, PartialEq, Eq, Debug)]
pub enum RowRefusal {
    // The name has no bytes, or more than 16.
    NameLength,
    // The byte at this place of the name is not printable.
    NameByte { at: u8 },
    NoBudget,
    LongPeriod,
    BudgetAbovePeriod,
    TableFull,
}

impl RowRefusal {
    // The refusal's number, by which files, firmware and reports know it. By a `match`: no cast of a case with a field.
    pub fn number(self) -> u8
        ensures { result ≡ row_number self }
    {
        match self {
            RowRefusal::NameLength | RowRefusal::NameByte { at: _ } => 15,
            RowRefusal::NoBudget => 1,
            RowRefusal::LongPeriod => 2,
            RowRefusal::BudgetAbovePeriod => 3,
            RowRefusal::TableFull => 21,
        }
    }
}

impl fmt::Display for RowRefusal {
    ghost output = { λ e. Some (row_words e) };

    fn fmt<W: fmt::Write>(&self, f: &mut fmt::Formatter<W>) -> fmt::Result {
        f.write_str(match self {
            RowRefusal::NameLength => "the name is not 1 to 16 bytes long",
            RowRefusal::NameByte { at: _ } => "the name has a byte that is not printable ASCII",
            RowRefusal::NoBudget => "the budget is 0",
            RowRefusal::LongPeriod => "the period is above 1000000",
            RowRefusal::BudgetAbovePeriod => "the budget is above the period",
            RowRefusal::TableFull => "the table has 64 rows already",
        })
    }
}

impl Error for RowRefusal {}
