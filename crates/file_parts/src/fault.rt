// What is wrong with a plan file.
ghost use Rattle.std.specs.Prelude.{◌≡◌, Some};
ghost use Rattle.file_parts.specs.Numbers.{number_of, place_of, names_row};
ghost use Rattle.file_parts.specs.Words.{fault_words};

use std::error::Error;
use std::fmt;

// Each case has its place: a byte of the file, counted from 0, or a row of the table.
#[derive(Clone, Copy, Debug, PartialEq, Eq)]
pub enum Fault {
    // The file does not begin with NPF.
    Mark,
    // The version is not 1.
    Version,
    // The file ends too early, or without a table; `len` is its length.
    ShortFile { len: usize },
    // No such layout, section or call.
    Letter { at: usize },
    // A section that may not stand here.
    Order { at: usize },
    // The name's length, or a byte of it.
    Name { at: usize },
    // The section, or the list of calls, ends inside a row or a call.
    Cut { end: usize },
    // A section of no calls.
    NoCalls { at: usize },
    // A call for no ticks.
    NoTicks { at: usize },
    ZeroBudget { row: usize },
    PeriodTooLong { row: usize },
    BudgetOverPeriod { row: usize },
    // The table has no room for this row.
    TooManyRows { row: usize },
}

impl Fault {
    // The refusal's number, by which files, firmware and reports know it. By a `match`: no cast of a case with a field.
    pub fn number(self) -> u8
        ensures { result ≡ number_of self }
    {
        match self {
            Fault::Mark => 10,
            Fault::Version => 11,
            Fault::ShortFile { len: _ } => 12,
            Fault::Letter { at: _ } => 13,
            Fault::Order { at: _ } => 14,
            Fault::Name { at: _ } => 15,
            Fault::Cut { end: _ } => 16,
            Fault::NoCalls { at: _ } | Fault::NoTicks { at: _ } => 17,
            Fault::ZeroBudget { row: _ } => 1,
            Fault::PeriodTooLong { row: _ } => 2,
            Fault::BudgetOverPeriod { row: _ } => 3,
            Fault::TooManyRows { row: _ } => 21,
        }
    }

    // The first byte of what is at fault, or the row.
    pub fn place(self) -> usize
        ensures { result ≡ place_of self }
    {
        match self {
            Fault::Mark => 0,
            Fault::Version => 3,
            Fault::ShortFile { len } => len,
            Fault::Letter { at } | Fault::Order { at } | Fault::Name { at } => at,
            Fault::Cut { end } => end,
            Fault::NoCalls { at } | Fault::NoTicks { at } => at,
            Fault::ZeroBudget { row }
            | Fault::PeriodTooLong { row }
            | Fault::BudgetOverPeriod { row }
            | Fault::TooManyRows { row } => row,
        }
    }

    // Whether the place is a row.
    pub fn names_row(self) -> bool
        ensures { result ≡ names_row self }
    {
        matches!(
            self,
            Fault::ZeroBudget { row: _ }
                | Fault::PeriodTooLong { row: _ }
                | Fault::BudgetOverPeriod { row: _ }
                | Fault::TooManyRows { row: _ }
        )
    }
}

// What is wrong, in words; number and place are told apart from them. Four are said by `plan` too, which this crate does not know.
impl fmt::Display for Fault {
    ghost output = { λ fault. Some (fault_words fault) };

    fn fmt<W: fmt::Write>(&self, f: &mut fmt::Formatter<W>) -> fmt::Result {
        f.write_str(match self {
            Fault::Mark => "the file does not begin with NPF",
            Fault::Version => "the version is not 1",
            Fault::ShortFile { len: _ } => "the file ends too early, or has no table",
            Fault::Letter { at: _ } => "no layout, section or call has this letter",
            Fault::Order { at: _ } => "this section may not stand here",
            Fault::Name { at: _ } => "a name is not 1 to 16 bytes of printable ASCII",
            Fault::Cut { end: _ } => "the section ends inside a row or a call",
            Fault::NoCalls { at: _ } => "the section of calls has none",
            Fault::NoTicks { at: _ } => "a call for 0 ticks",
            Fault::ZeroBudget { row: _ } => "the budget is 0",
            Fault::PeriodTooLong { row: _ } => "the period is above 1000000",
            Fault::BudgetOverPeriod { row: _ } => "the budget is above the period",
            Fault::TooManyRows { row: _ } => "the table has 64 rows already",
        })
    }
}

impl Error for Fault {}
