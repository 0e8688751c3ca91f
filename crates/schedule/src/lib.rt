// Histories of a runner's calls, and what every run keeps: definitions and proofs.
#![tactic(auto)]

pub mod examples;
