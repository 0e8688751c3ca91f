// What is said of a table when it is closed.
ghost use Rattle.std.specs.Prelude.{◌≡◌, Some};
ghost use Rattle.plan.specs.Refusals.{plan_number};
ghost use Rattle.plan.specs.Words.{plan_words};

use std::error::Error;
use std::fmt;

// A good plan has bins, a slot and reserves; else the first refusal that applied.
pub type Verdict = Result<(), PlanRefusal>;

// The refusals stand in the order in which a closing is tested, each with its number.
#[derive(Clone, Copy, PartialEq, Eq, Debug)]
pub enum PlanRefusal {
    // Not 1 to 16 processors.
    BadProcessors = 4,
    // Delta is not 1 to 16.
    BadDelta = 5,
    NoRows = 25,
    // The shortest period is below delta, so that a slot would have no ticks.
    ShortPeriod = 26,
}

impl PlanRefusal {
    // The refusal's number, by which files, firmware and reports know it.
    pub fn number(self) -> u8
        ensures { result ≡ plan_number self }
    {
        self as u8
    }
}

impl fmt::Display for PlanRefusal {
    ghost output = { λ e. Some (plan_words e) };

    fn fmt<W: fmt::Write>(&self, f: &mut fmt::Formatter<W>) -> fmt::Result {
        f.write_str(match self {
            PlanRefusal::BadProcessors => "the processors are not 1 to 16",
            PlanRefusal::BadDelta => "delta is not 1 to 16",
            PlanRefusal::NoRows => "the table has no rows",
            PlanRefusal::ShortPeriod => "the shortest period is below delta",
        })
    }
}

impl Error for PlanRefusal {}
