// The calls of a plan file, one by one.
ghost use Rattle.std.specs.Prelude.{Some};
ghost use Rattle.file_parts.specs.Words.{call_words};

use std::fmt;

// A request or a done of a task, or so many ticks.
#[derive(Clone, Copy, Debug, PartialEq, Eq)]
pub enum Call {
    Request { task: u8 },
    Done { task: u8 },
    Ticks { count: u16 },
}

impl fmt::Display for Call {
    ghost output = { λ call. Some (call_words call) };

    fn fmt<W: fmt::Write>(&self, f: &mut fmt::Formatter<W>) -> fmt::Result {
        match self {
            Call::Request { task } => write!(f, "request task {task}"),
            Call::Done { task } => write!(f, "done task {task}"),
            Call::Ticks { count: 1 } => f.write_str("1 tick"),
            Call::Ticks { count } => write!(f, "{count} ticks"),
        }
    }
}
