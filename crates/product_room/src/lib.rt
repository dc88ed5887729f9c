// Handed on: crates above name these through this crate.
#![tactic(auto)]

pub use product_grid;
pub use product_hash_collect;
pub use product_hash_collect::product_hash_gather;
