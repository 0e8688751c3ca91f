// The lines of a listing, as bytes in an area of the caller's.
#![tactic(auto)]

pub mod line;
mod telling;
pub mod writing;

pub use line::{Asked, IDLE, Line};
pub use writing::{LONGEST_LINE, ShortArea, write};
