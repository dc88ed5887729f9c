// What an order keeps of all products of two lists of terms held by wide keys, without scratch memory: no two of them
// meet where one list is a single term; else they are summed in a grid where the monomials are few, and in a table
// where they are not.
#![tactic(auto)]

ghost use Rattle.product_sums.specs.TermArrays.{terms};
ghost use Rattle.product_sums.specs.ProductSums.{ProductGathered};
ghost use Rattle.product_own_room.specs.product_hash_collect.CollectorContracts.{HeldFactors};
ghost use Rattle.product_own_room.specs.product_room.ProductTerms.{KeptRoom};

use product_grid_index::Sides;
use product_own_room::product_hash_table::{ENTRIES, ENTRY_PLACES, SLOTS};
use product_own_room::{
    FEW_ENTRY_PLACES, FEW_PLACES, FEW_PRODUCTS, FEW_SLOTS, FEWEST_ENTRY_PLACES, FEWEST_PRODUCTS,
    FEWEST_SLOTS, HALF_ENTRY_PLACES, HALF_PRODUCTS, HALF_SLOTS, in_own_grid, in_own_table,
};
use product_sums::{Gathered, PLACES};

// Handed on: crates above name these through this crate.
pub use product_strategy;

// What is kept of products that are summed, in a grid or in a table. (A function of its own, so that the compiler puts
// the arrays of all sizes into one frame, and not one upon another.)
fn summed_alone(
    d: u64,
    ka: &[u64],
    ca: &[i64],
    na: usize,
    kb: &[u64],
    cb: &[i64],
    nb: usize,
    kept: &mut [u64],
    coefficients: &mut [i64],
) -> Gathered
    requires held_factors { HeldFactors ka.now ca.now na kb.now cb.now nb }
    requires kept_room { KeptRoom kept.old coefficients.old }
    ensures { ProductGathered d na ka.now ca.now
        nb kb.now cb.now kept.new coefficients.new result }
{
    let products = na * nb;
    if products <= FEWEST_PRODUCTS {
        return in_own_table::<FEWEST_PRODUCTS, FEWEST_ENTRY_PLACES, FEWEST_SLOTS>(
            d,
            ka,
            ca,
            na,
            kb,
            cb,
            nb,
            kept,
            coefficients,
        );
    }
    if products <= FEW_PRODUCTS {
        return in_own_table::<FEW_PRODUCTS, FEW_ENTRY_PLACES, FEW_SLOTS>(
            d,
            ka,
            ca,
            na,
            kb,
            cb,
            nb,
            kept,
            coefficients,
        );
    }
    let s: Sides = product_strategy::grid_for(ka, ca, na, kb, cb, nb);
    if product_strategy::in_grid(s.size, products, PLACES) {
        if s.size <= FEW_PLACES {
            return in_own_grid::<FEW_PLACES>(s, d, ka, ca, na, kb, cb, nb, kept, coefficients);
        }
        return in_own_grid::<PLACES>(s, d, ka, ca, na, kb, cb, nb, kept, coefficients);
    }
    if products <= HALF_PRODUCTS {
        return in_own_table::<HALF_PRODUCTS, HALF_ENTRY_PLACES, HALF_SLOTS>(
            d,
            ka,
            ca,
            na,
            kb,
            cb,
            nb,
            kept,
            coefficients,
        );
    }
    in_own_table::<ENTRIES, ENTRY_PLACES, SLOTS>(d, ka, ca, na, kb, cb, nb, kept, coefficients)
}

// The terms that order d keeps of the products of each of the first na terms with each of the first nb, rising, with
// the two shares of what it loses.
pub fn kept_alone(
    d: u64,
    ka: &[u64],
    ca: &[i64],
    na: usize,
    kb: &[u64],
    cb: &[i64],
    nb: usize,
    kept: &mut [u64],
    coefficients: &mut [i64],
) -> Gathered
    requires held_factors { HeldFactors ka.now ca.now na kb.now cb.now nb }
    requires kept_room { KeptRoom kept.old coefficients.old }
    ensures { ProductGathered d na ka.now ca.now
        nb kb.now cb.now kept.new coefficients.new result }
{
    if na == 1 {
        return product_rising::one_times(d, ka, ca, kb, cb, nb, kept, coefficients);
    }
    if nb == 1 {
        return product_rising::one_times(d, kb, cb, ka, ca, na, kept, coefficients);
    }
    summed_alone(d, ka, ca, na, kb, cb, nb, kept, coefficients)
}
