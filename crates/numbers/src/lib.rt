#![tactic(auto)]

// Handed on: crates above name these through this crate.
pub use algebra;
