// Handed on: crates above name these through this crate.
#![tactic(auto)]

pub use model_limits;
