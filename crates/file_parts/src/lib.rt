// The parts of a plan file that reader and writer share, and why either refuses.
#![tactic(auto)]

pub mod call;
pub mod due;
pub mod fault;
pub mod not_written;
pub mod section;
pub mod section_kind;
pub mod settings;

pub use call::Call;
pub use due::Due;
pub use fault::Fault;
pub use not_written::NotWritten;
pub use section::{HEAD, Section};
pub use section_kind::{SectionKind, UnknownLetter};
pub use settings::Settings;
