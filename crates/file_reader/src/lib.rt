// The reader of plan files.
#![tactic(auto)]

pub mod calls;
mod cursor;
pub mod heading;
pub mod layout_kind;
pub mod letters;
mod pieces;
pub mod reader;
pub mod reading;
pub mod rows;

pub use calls::Calls;
pub use heading::{HEADER, header};
pub use layout_kind::LayoutKind;
pub use letters::names_layout;
pub use reader::Reader;
pub use reading::{Contents, read};
pub use rows::{RowFault, RowRead, row};
