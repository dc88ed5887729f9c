// What an order keeps of all products of two lists of terms, summed in room of its own: local arrays, filled with zeros
// where they are declared, of one of several sizes.
#![tactic(auto)]

ghost use Rattle.std.specs.Prelude.{◌≡◌, ◌+◌, ◌*◌, ◌≤◌};
ghost use Rattle.product_sums.specs.TermArrays.{terms, scratch_places};
ghost use Rattle.product_sums.specs.ProductSums.{ProductGathered};
ghost use Rattle.product_hash_table.specs.Table.{most_entries, slots_each};
ghost use Rattle.product_in_table.specs.product_hash_collect.CollectorContracts.{HeldFactors};
ghost use Rattle.product_grid_index.specs.Grid.{extents, sides_for};
ghost use Rattle.product_in_table.specs.product_room.ProductTerms.{KeptRoom};

use product_grid_index::Sides;
use product_in_table::product_grid;
use product_sums::Gathered;

// Handed on: crates above name these through this crate.
pub use product_hash_table;

// For how many products a table of its own has room: half as many as there can be, few, and the fewest, for which
// filling a larger table with zeros takes longer than they do.
pub const HALF_PRODUCTS: usize = product_hash_table::ENTRIES / 2;

pub const FEW_PRODUCTS: usize = 256;

pub const FEWEST_PRODUCTS: usize = 32;

// The lengths of the smaller tables' arrays: of keys and sums, and of slots.
pub const HALF_ENTRY_PLACES: usize = HALF_PRODUCTS + 1;

pub const HALF_SLOTS: usize = product_hash_table::SLOTS_EACH * HALF_PRODUCTS + 1;

pub const FEW_ENTRY_PLACES: usize = FEW_PRODUCTS + 1;

pub const FEW_SLOTS: usize = product_hash_table::SLOTS_EACH * FEW_PRODUCTS + 1;

pub const FEWEST_ENTRY_PLACES: usize = FEWEST_PRODUCTS + 1;

pub const FEWEST_SLOTS: usize = product_hash_table::SLOTS_EACH * FEWEST_PRODUCTS + 1;

// How many places the smaller grid of its own has: two models with all monomials of degree up to 3 in four variables
// multiply in one of 7 × 7 × 7 × 7.
pub const FEW_PLACES: usize = 2401;

// In a table with room for so many products. The lengths of its arrays follow from that, but a length in a type is not
// computed from another.
pub fn in_own_table<const PRODUCTS: usize, const ENTRY_PLACES: usize, const SLOTS: usize>(
    d: u64,
    ka: &[u64],
    ca: &[i64],
    na: usize,
    kb: &[u64],
    cb: &[i64],
    nb: usize,
    kept: &mut [u64],
    coefficients: &mut [i64],
) -> Gathered
    requires sizes { (PRODUCTS ≤ most_entries) × (ENTRY_PLACES ≡ PRODUCTS + 1) × (SLOTS ≡ slots_each * PRODUCTS + 1) }
    requires held_factors { HeldFactors ka.now ca.now na kb.now cb.now nb }
    requires nb_bound { na * nb ≤ PRODUCTS }
    requires kept_room { KeptRoom kept.old coefficients.old }
    ensures { ProductGathered d na ka.now ca.now
        nb kb.now cb.now kept.new coefficients.new result }
{
    let mut slots = [0u16; SLOTS];
    let mut keys = [0u64; ENTRY_PLACES];
    let mut sums = [0i64; ENTRY_PLACES];
    product_in_table::in_table(
        d,
        ka,
        ca,
        na,
        kb,
        cb,
        nb,
        &mut slots,
        &mut keys,
        &mut sums,
        PRODUCTS,
        kept,
        coefficients,
    )
}

// In a grid of so many places.
pub fn in_own_grid<const PLACES: usize>(
    s: Sides,
    d: u64,
    ka: &[u64],
    ca: &[i64],
    na: usize,
    kb: &[u64],
    cb: &[i64],
    nb: usize,
    kept: &mut [u64],
    coefficients: &mut [i64],
) -> Gathered
    requires places { PLACES ≤ scratch_places }
    requires held_factors { HeldFactors ka.now ca.now na kb.now cb.now nb }
    requires s_value { s ≡ sides_for (extents na ka.now) (extents nb kb.now) }
    requires size_le_places { s.size ≤ PLACES }
    requires kept_room { KeptRoom kept.old coefficients.old }
    ensures { ProductGathered d na ka.now ca.now
        nb kb.now cb.now kept.new coefficients.new result }
{
    let mut sums = [0i64; PLACES];
    product_grid::gathered_empty(s, d, ka, ca, na, kb, cb, nb, &mut sums, kept, coefficients)
}
