// Why a text gives no plan file, and where.
use plan::RowRefusal;
use planfile::NotWritten;
use std::alloc::AllocError;
use std::fmt;

#[derive(Clone, Copy)]
pub enum Setting {
    Processors,
    Delta,
    Layout,
}

#[derive(Clone, Copy)]
pub enum Reason {
    // The line begins with a word that says nothing.
    Word,
    TooFew,
    TooMany,
    // What should be a number is not made of digits.
    Digits,
    // A number has no room in the file, which has one byte for it, or four.
    AboveByte,
    AboveLong,
    NoLayout,
    Twice,
    // A setting below a task or a call, or a task below a call.
    Late,
    NoTask,
    // The name is that of several tasks.
    SomeTasks,
    Unset(Setting),
    Row(RowRefusal),
    File(NotWritten),
    Memory,
}

// The first line at fault, counted from 1. What the text lacks at its end is a fault of the line after the last.
#[derive(Clone, Copy)]
pub struct BadLine {
    pub line: usize,
    pub reason: Reason,
}

impl Reason {
    // The refusal's number, where the libraries have one.
    fn number(self) -> Option<u8> {
        match self {
            Reason::Row(refusal) => Some(refusal.number()),
            Reason::File(refusal) => Some(refusal.number()),
            _ => None,
        }
    }
}

impl From<AllocError> for Reason {
    fn from(_e: AllocError) -> Reason {
        Reason::Memory
    }
}

impl From<RowRefusal> for Reason {
    fn from(refusal: RowRefusal) -> Reason {
        Reason::Row(refusal)
    }
}

impl From<NotWritten> for Reason {
    fn from(refusal: NotWritten) -> Reason {
        Reason::File(refusal)
    }
}

impl fmt::Display for Setting {
    fn fmt<W: fmt::Write>(&self, f: &mut fmt::Formatter<W>) -> fmt::Result {
        f.write_str(match self {
            Setting::Processors => "processors",
            Setting::Delta => "delta",
            Setting::Layout => "layout",
        })
    }
}

impl fmt::Display for Reason {
    fn fmt<W: fmt::Write>(&self, f: &mut fmt::Formatter<W>) -> fmt::Result {
        f.write_str(match *self {
            Reason::Word => {
                "the first word is not processors, delta, layout, task, request, done or ticks"
            }
            Reason::TooFew => "a field is missing",
            Reason::TooMany => "there are too many fields",
            Reason::Digits => "a number is not made of digits",
            Reason::AboveByte => "a number is above 255",
            Reason::AboveLong => "a number is above 4294967295",
            Reason::NoLayout => "the layout is not flat, semi or dedicated",
            Reason::Twice => "the setting was made above",
            Reason::Late => "settings come first, then tasks, then calls",
            Reason::NoTask => "no task has this name, and it is no number",
            Reason::SomeTasks => "several tasks have this name",
            Reason::Unset(setting) => return write!(f, "there is no line with {setting}"),
            Reason::Row(refusal) => return refusal.fmt(f),
            // Who writes a text knows ticks and a file, and no calls and no area.
            Reason::File(NotWritten::Calls { fault: _ }) => "the ticks are 0",
            Reason::File(NotWritten::ShortArea) => "the file is too long",
            Reason::File(refusal) => return refusal.fmt(f),
            Reason::Memory => "there is no memory for it",
        })
    }
}

impl fmt::Display for BadLine {
    fn fmt<W: fmt::Write>(&self, f: &mut fmt::Formatter<W>) -> fmt::Result {
        let line = self.line;
        let reason = self.reason;
        match reason.number() {
            Some(number) => write!(f, "line {line}: refused {number}: {reason}"),
            None => write!(f, "line {line}: {reason}"),
        }
    }
}
