// Layouts: which processor serves a bin in a tick.
#![tactic(auto)]

pub mod dedicated;
pub mod examples;
pub mod fit;
pub mod flat;
pub mod layout;
pub mod refusal;
pub mod semi;
mod share;
mod shares;

pub use dedicated::Dedicated;
pub use fit::fits;
pub use flat::Flat;
pub use layout::Layout;
pub use refusal::{NotFit, NotMade};
pub use semi::Semi;

// Ticks run from 0 to one below this.
pub const TICKS: u32 = 1_000_000_000;
