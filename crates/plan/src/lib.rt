// Plans: a table of sporadic tasks, closed for m processors and a parameter delta.
#![tactic(auto)]

pub mod bin;
pub mod examples;
pub mod name;
mod packing;
pub mod plan;
pub mod refusal;
pub mod row;
pub mod table;
pub mod verdict;

// A whole processor, in millionths: charges and loads are counted in these.
pub const FULL: u32 = 1_000_000;

pub use bin::Bin;
pub use name::Name;
pub use plan::Plan;
pub use refusal::RowRefusal;
pub use row::Row;
pub use table::Table;
pub use verdict::{PlanRefusal, Verdict};
