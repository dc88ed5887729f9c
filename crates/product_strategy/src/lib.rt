// Whether the products of two lists of terms held by wide keys are summed in a grid, and in which; and what an order
// keeps of them in scratch memory.
#![tactic(auto)]

ghost use Rattle.std.specs.Prelude.{◌≡◌, true, ◌*◌, ◌≤◌};
ghost use Rattle.product_hash_table.specs.Table.{most_entries};
ghost use Rattle.product_sums.specs.TermArrays.{scratch_places};
ghost use Rattle.product_in_table.specs.product_hash_collect.CollectorContracts.{HeldFactors};
ghost use Rattle.product_grid_index.specs.Grid.{extents, sides_for};
ghost use Rattle.product_sums.specs.ProductSums.{ProductGathered};
ghost use Rattle.product_in_table.specs.product_room.ProductTerms.{ScratchRoom, KeptRoom};

use product_grid_index::Sides;
use product_in_table::product_grid;
use product_sums::Gathered;

// How many places a grid may have for each product of two terms: a larger one takes longer to empty and to scan than a
// table to search.
const GRID_EACH: usize = 4;

// Up to so many products a table is as fast as a grid, whose size has to be found first.
const GRID_FROM: usize = 256;

// The grid for the products of the first na terms with the first nb.
pub fn grid_for(ka: &[u64], ca: &[i64], na: usize, kb: &[u64], cb: &[i64], nb: usize) -> Sides
    requires { HeldFactors ka.now ca.now na kb.now cb.now nb }
    ensures { result ≡ sides_for (extents na ka.now) (extents nb kb.now) }
{
    let e = product_grid_index::extents_of(ka, na);
    let h = product_grid_index::extents_of(kb, nb);
    product_grid_index::sides_of(e, h)
}

// Whether a grid of so many places is to be used for so many products, where there are so many places for sums; for
// degrees there are as many as there ever are in scratch memory.
pub fn in_grid(size: usize, products: usize, sums: usize) -> bool
    requires { products ≤ most_entries }
    ensures { result ≡ true → (size ≤ sums) × (size ≤ scratch_places) }
{
    size <= sums && size <= product_sums::PLACES && size <= GRID_EACH * products
}

// The terms that order d keeps of the products of each of the first na terms with each of the first nb, rising, with
// the two shares of what it loses. The scratch memory serves as a grid or as a table, whatever is in it.
pub fn kept_in_scratch(
    d: u64,
    ka: &[u64],
    ca: &[i64],
    na: usize,
    kb: &[u64],
    cb: &[i64],
    nb: usize,
    slots: &mut [u16],
    keys: &mut [u64],
    sums: &mut [i64],
    kept: &mut [u64],
    coefficients: &mut [i64],
) -> Gathered
    requires held_factors { HeldFactors ka.now ca.now na kb.now cb.now nb }
    requires scratch_room { ScratchRoom (na * nb) slots.old keys.old sums.old }
    requires kept_room { KeptRoom kept.old coefficients.old }
    ensures { ProductGathered d na ka.now ca.now
        nb kb.now cb.now kept.new coefficients.new result }
{
    if na == 1 {
        return product_rising::one_times(d, ka, ca, kb, cb, nb, kept, coefficients);
    }
    if nb == 1 {
        return product_rising::one_times(d, kb, cb, ka, ca, na, kept, coefficients);
    }
    let products = na * nb;
    if GRID_FROM < products {
        let s: Sides = grid_for(ka, ca, na, kb, cb, nb);
        if in_grid(s.size, products, sums.len()) {
            return product_grid::gathered(s, d, ka, ca, na, kb, cb, nb, sums, kept, coefficients);
        }
    }
    product_in_table::in_scratch_table(
        d,
        ka,
        ca,
        na,
        kb,
        cb,
        nb,
        slots,
        keys,
        sums,
        kept,
        coefficients,
    )
}
