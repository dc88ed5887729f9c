// The steps of a book with scratch memory for products: in a small table, in one between, or in the full one.
#![tactic(auto)]

ghost use Rattle.std.specs.Prelude.{◌^◌, ◌<◌, pos, replicate};
ghost use Rattle.sheet_results.specs.Results.{results};
ghost use Rattle.sheet_run_loop.specs.sheet_run_laws.Run.{ScratchRoom, Part, Stopped};

use model_types::Key;
use sheet_run_loop::sheet_run_laws::{StepList, Stop};

// Handed on: crates above name these through this crate.
pub use sheet_run_loop::{model, sheet_run_laws};

// The products of the small table, and its size. The full one has room for those of 64 terms with 64.
pub const FEW_PRODUCTS: usize = 256;

pub const FEW_SLOTS: usize = model::SLOTS_EACH * FEW_PRODUCTS + 1;

pub const FEW_PLACES: usize = FEW_PRODUCTS + 1;

// Those of the next one, which serves a quotient of 16 terms and a substitution of one of 16: 64 for each.
pub const SOME_PRODUCTS: usize = 1024;

pub const SOME_SLOTS: usize = model::SLOTS_EACH * SOME_PRODUCTS + 1;

pub const SOME_PLACES: usize = SOME_PRODUCTS + 1;

// Its places for a grid: two models with all monomials of degree up to 3 in four variables multiply in one of
// 7 × 7 × 7 × 7.
pub const GRID_PLACES: usize = 2401;

// The steps from one on, with a table for so many products, with so many slots, keys and sums. (It is filled with zeros
// where it is declared, so that a run that does without a larger one must not come to it.)
pub fn steps_in<const PRODUCTS: usize, const SLOTS: usize, const KEYS: usize, const SUMS: usize>(
    l: StepList,
    from: usize,
    keys: &mut [Key],
    coefficients: &mut [i64],
    counts: &mut [usize],
    radii: &mut [u64],
    rows: &mut [u64],
) -> Stop
    requires sizes { ScratchRoom PRODUCTS (replicate SLOTS 0) (replicate KEYS 0) (replicate SUMS (pos 0)) }
    requires small { (SLOTS < 2 ^ 16) × (KEYS < 2 ^ 16) × (SUMS < 2 ^ 16) }
    requires part { Part l from (results keys.old coefficients.old counts.old radii.old) rows.old }
    ensures { (t : Part l from
        (results keys.old coefficients.old counts.old radii.old)
        rows.old) → Stopped t.held l PRODUCTS result
        (results keys.new coefficients.new counts.new radii.new)
        rows.new }
{
    let mut slots = [0u16; SLOTS];
    let mut places = [0u64; KEYS];
    let mut sums = [0i64; SUMS];
    sheet_run_loop::steps(
        l,
        from,
        PRODUCTS,
        keys,
        coefficients,
        counts,
        radii,
        rows,
        &mut slots,
        &mut places,
        &mut sums,
    )
}
