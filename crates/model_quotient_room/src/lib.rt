// Quotients of structs with a table of their own. A table is filled with zeros where it is declared, which takes longer
// for the full one than a quotient of few terms. So its size goes by the most products that one of the forms can have;
// the call chooses it, since a chooser between would copy the four structs once more.
#![tactic(auto)]

ghost use Rattle.std.specs.Prelude.{◌≡◌, ◌*◌, ◌^◌, ◌≤◌, ◌<◌};
ghost use Rattle.calculus.specs.Model.{most_terms};
ghost use Rattle.calculus.specs.Refusal.{at_place};
ghost use Rattle.calculus.specs.Operations.{quotient};
ghost use Rattle.model_types.specs.ModelStruct.{view, answer};
ghost use Rattle.product_hash_table.specs.Table.{slots_each};
ghost use Rattle.model_quotient.specs.model_proposal.Proposal.{Proposal, quotient_products};

use model_types::{Answer, MOST_TERMS, Model};

// Handed on: crates above name these through this crate.
pub use model_quotient;
pub use model_quotient::model_multiplication;

// The products that the smallest table has room for: w has up to four terms.
pub const FEW_PRODUCTS: usize = 256;

pub const FEW_SLOTS: usize = product_hash_table::SLOTS_EACH * FEW_PRODUCTS + 1;

pub const FEW_PLACES: usize = FEW_PRODUCTS + 1;

// Those that the next one has room for: w has up to sixteen.
pub const SOME_PRODUCTS: usize = 1024;

pub const SOME_SLOTS: usize = product_hash_table::SLOTS_EACH * SOME_PRODUCTS + 1;

pub const SOME_PLACES: usize = SOME_PRODUCTS + 1;

// Places for a grid, which serves more products than a table does: two models with all monomials of degree up to 3 in
// four variables multiply in one of 7 × 7 × 7 × 7.
pub const GRID_PLACES: usize = 2401;

// The most products that one of the forms can have, by the terms of g, h and w: the difference in the first has up to
// 64.
pub fn most_products(g: usize, h: usize, w: usize) -> usize
    requires { (g ≤ most_terms) × (h ≤ most_terms) × (w ≤ most_terms) }
    ensures { result ≡ quotient_products g h w }
{
    let pairs = g * h;
    let form = MOST_TERMS * w;
    if pairs <= form {
        return form;
    }
    pairs
}

// In a table with room for so many products, with so many slots, keys and sums; where these are more, the sums may be
// faster in a grid. The lengths follow from the products, but a length in a type is not computed from another.
pub fn divided_in<const PRODUCTS: usize, const SLOTS: usize, const KEYS: usize, const SUMS: usize>(
    d: u8,
    f: Model,
    g: Model,
    h: Model,
    w: Model,
) -> Answer
    requires sizes { (slots_each * PRODUCTS < SLOTS) × (PRODUCTS < KEYS) × (PRODUCTS < SUMS) }
    requires small { (SLOTS < 2 ^ 16) × (KEYS < 2 ^ 16) × (SUMS < 2 ^ 16) }
    requires proposal { Proposal d f g h w }
    requires count_bound { quotient_products g.count h.count w.count ≤ PRODUCTS }
    ensures { result ≡ answer (at_place 0 (quotient d (view f) (view g) (view h) (view w))) }
{
    let mut slots = [0u16; SLOTS];
    let mut keys = [0u64; KEYS];
    let mut sums = [0i64; SUMS];
    model_quotient::divided(d, f, g, h, w, &mut slots, &mut keys, &mut sums)
}
