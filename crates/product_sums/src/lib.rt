// What a grid and a hash table for the products of two models share: what they sum, and what an order keeps of it.
// The length of the arrays of keys and sums that a product has as scratch. They hold the entries of a table, or a grid:
// two models with all monomials of degree up to 4 in four variables multiply in one of 9 × 9 × 9 × 9 places.
#![tactic(auto)]

pub const PLACES: usize = 6561;

// How many terms are kept, what rounding them leaves, and what is swept as above the order.
#[derive(Clone, Copy)]
pub struct Gathered {
    pub count: usize,
    pub rounding: u64,
    pub swept: u64,
}
