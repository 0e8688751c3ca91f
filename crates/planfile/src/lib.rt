// Plan files: a table of tasks with the settings of its plan, a layout's letter and a list of calls, as bytes. The reader has a crate of its own
// below, and so have the parts that both share; whoever uses plan files finds all of them here.
#![tactic(auto)]

mod telling;
pub mod writing;

pub use file_parts::{Call, Fault, NotWritten, Section, SectionKind, Settings, UnknownLetter};
pub use file_reader::{
    Calls, Contents, LayoutKind, Reader, RowFault, RowRead, header, names_layout, read, row,
};
pub use writing::write;
