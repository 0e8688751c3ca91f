// Bytes put into an area of the caller's, for the crates that write.
#![tactic(auto)]

pub mod pen;

pub use pen::Pen;
