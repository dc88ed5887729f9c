// The product of two models, in scratch memory or in room of its own: the product of models in slices borrows the
// arrays of both.
#![tactic(auto)]

ghost use Rattle.std.specs.Prelude.{◌≡◌, ◌*◌};
ghost use Rattle.calculus.specs.Refusal.{at_place};
ghost use Rattle.calculus.specs.Operations.{multiply};
ghost use Rattle.calculus.specs.Shares.{product_shares};
ghost use Rattle.model_types.specs.ModelStruct.{view, answer};
ghost use Rattle.model_types.specs.SharesStruct.{accounted};
ghost use Rattle.product_slices.specs.product_room.ProductTerms.{ScratchRoom};
ghost use Rattle.product_answer.specs.ProductFactors.{Factors};

use model_types::{Accounted, Answer, Model};

// ---- in scratch memory
// f times g at order d with the shares of its radius, in a grid where the monomials are few, or else in a table. The
// scratch memory serves for both, whatever is in it, and need not be larger than a table for the products of their
// terms.
pub fn multiplied_accounted(
    d: u8,
    f: Model,
    g: Model,
    slots: &mut [u16],
    keys: &mut [u64],
    sums: &mut [i64],
) -> Accounted
    requires factors { Factors d f g }
    requires scratch_room { ScratchRoom (f.count * g.count) slots.old keys.old sums.old }
    ensures { result ≡ accounted (multiply d (view f) (view g)) (λ m. product_shares d (view f) (view g)) }
{
    product_slices::multiplied_slices_accounted(
        d,
        f.n,
        f.count,
        f.radius,
        &f.keys,
        &f.coefficients,
        g.count,
        g.radius,
        &g.keys,
        &g.coefficients,
        slots,
        keys,
        sums,
    )
}

// f times g at order d, in a scratch grid or table.
pub fn multiplied(
    d: u8,
    f: Model,
    g: Model,
    slots: &mut [u16],
    keys: &mut [u64],
    sums: &mut [i64],
) -> Answer
    requires factors { Factors d f g }
    requires scratch_room { ScratchRoom (f.count * g.count) slots.old keys.old sums.old }
    ensures { result ≡ answer (at_place 0 (multiply d (view f) (view g))) }
{
    let product = multiplied_accounted(d, f, g, slots, keys, sums);
    product.answer
}

// ---- in room of its own
// f times g at order d, without a scratch grid or table.
pub fn multiplied_alone(d: u8, f: Model, g: Model) -> Answer
    requires { Factors d f g }
    ensures { result ≡ answer (at_place 0 (multiply d (view f) (view g))) }
{
    let mut kept = [0u64; model_types::MOST_TERMS + 1];
    let mut coefficients = [0i64; model_types::MOST_TERMS + 1];
    let k = product_slices::multiplied_slices_alone(
        d,
        f.n,
        f.count,
        f.radius,
        &f.keys,
        &f.coefficients,
        g.count,
        g.radius,
        &g.keys,
        &g.coefficients,
        &mut kept,
        &mut coefficients,
    );
    let product = product_answer::packed_kept(f.n, k, &kept, &coefficients);
    product.answer
}
