// The runner: requests, dones and ticks on a plan and a layout.
#![tactic(auto)]

pub mod examples;
mod job;
mod jobs;
pub mod outstanding;
pub mod refusal;
pub mod runner;

pub use outstanding::Outstanding;
pub use refusal::CallRefusal;
pub use runner::Runner;

// What a row has for a processor that runs nothing. Rows are bytes, as the C interface hands them over, and no Options.
// line_text has an IDLE of its own, since it knows no runner.
pub const IDLE: u8 = 255;
