// Why a plan file is not written.
ghost use Rattle.std.specs.Prelude.{◌≡◌, Some};
ghost use Rattle.file_parts.specs.Numbers.{refusal_number, refusal_place};
ghost use Rattle.file_parts.specs.Words.{refusal_words};
ghost use Rattle.file_parts.specs.declared.not_written.NotWritten.TheVariants.{Calls};

use crate::fault::Fault;
use std::error::Error;
use std::fmt;

// The cases stand in the order in which they are tested.
#[derive(Clone, Copy, Debug, PartialEq, Eq)]
pub enum NotWritten {
    // No layout has this letter.
    Letter,
    // The calls have a fault, whose place is counted from their start.
    Calls { fault: Fault },
    // There are more bytes of calls than a section can hold.
    LongCalls,
    // The area is too short for the file.
    ShortArea,
}

impl NotWritten {
    // The refusal's number, by which files, firmware and reports know it. By a `match`: no cast of a case with a field.
    pub fn number(self) -> u8
        ensures { result ≡ refusal_number self }
    {
        match self {
            NotWritten::Letter => 13,
            NotWritten::Calls { fault } => fault.number(),
            NotWritten::LongCalls => 18,
            NotWritten::ShortArea => 19,
        }
    }

    // The byte of the calls that is at fault, or 0, as it is reported.
    pub fn place(self) -> usize
        ensures { result ≡ refusal_place self }
    {
        match self {
            NotWritten::Calls { fault } => fault.place(),
            _ => 0,
        }
    }
}

impl From<Fault> for NotWritten {
    ghost from_gives = { λ fault refusal. refusal ≡ Calls fault };

    fn from(fault: Fault) -> Self {
        Self::Calls { fault }
    }
}

impl fmt::Display for NotWritten {
    ghost output = { λ refusal. Some (refusal_words refusal) };

    fn fmt<W: fmt::Write>(&self, f: &mut fmt::Formatter<W>) -> fmt::Result {
        match self {
            NotWritten::Letter => f.write_str("no layout has this letter"),
            NotWritten::Calls { fault } => fault.fmt(f),
            NotWritten::LongCalls => f.write_str("the calls are longer than 65535 bytes"),
            NotWritten::ShortArea => f.write_str("the area is too short for the file"),
        }
    }
}

impl Error for NotWritten {}
