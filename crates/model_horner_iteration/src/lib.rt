// One iteration of Horner's rule on models that lie in slices of 64 places: the product with what is put in, then the
// next power's terms added. After the terms that a count names any numbers may stand.
#![tactic(auto)]

ghost use Rattle.std.specs.Prelude.{◌≡◌, ◌*◌};
ghost use Rattle.calculus.specs.Shares.{product_shares};
ghost use Rattle.model_types.specs.ModelStruct.{view};
ghost use Rattle.model_types.specs.SharesStruct.{accounted};
ghost use Rattle.model_slices.specs.HeldModels.{held, Room};
ghost use Rattle.model_horner_product.specs.product_room.ProductTerms.{ScratchRoom};
ghost use Rattle.model_horner_iteration.specs.HornerIteration.{horner_iteration, IterationOf};
ghost use Rattle.model_horner_iteration.specs.HornerIteration.{KeptIn};

use model_slices::Kept;
use model_types::{Key, Refusal, Refused, Shares};

// h times g with order d, then q added, with the shares of the product, whose radius the sum keeps. The sum goes into
// the slices in which h lay; the last two are at hand for the product's terms, and the table for the product.
pub fn iterated<'a>(
    d: u8,
    n: u8,
    c: usize,
    e: u64,
    keys1: &mut [Key],
    coefficients1: &mut [i64],
    count: usize,
    radius: u64,
    keys2: &[Key],
    coefficients2: &[i64],
    t: usize,
    others: &'a [Key],
    added: &'a [i64],
    slots: &mut [u16],
    keys: &mut [u64],
    sums: &mut [i64],
    spare: &mut [Key],
    products: &mut [i64],
) -> Kept
    requires iteration_of { IterationOf d n c e keys1.old coefficients1.old count radius keys2.now coefficients2.now
        t others.now added.now }
    requires scratch_room { ScratchRoom (c * count) slots.old keys.old sums.old }
    requires room { Room spare.old products.old }
    ensures { KeptIn n result keys1.new coefficients1.new (accounted (horner_iteration d
        (view (held n c e keys1.old coefficients1.old))
        (view (held n count radius keys2.now coefficients2.now))
        (view (held n t 0 others.now added.now)))
        (λ m. product_shares d
        (view (held n c e keys1.old coefficients1.old))
        (view (held n count radius keys2.now coefficients2.now)))) }
{
    let k = model_horner_product::product(
        d,
        n,
        c,
        e,
        keys1,
        coefficients1,
        count,
        radius,
        keys2,
        coefficients2,
        slots,
        keys,
        sums,
        spare,
        products,
    );
    let v = k.verdict;
    let Ok(()) = v else {
        return k;
    };
    let kept = k.shares;
    let total = model_addition::merged(
        k.count,
        spare,
        products,
        t,
        others,
        added,
        keys1,
        coefficients1,
    );
    if model_types::MOST_TERMS < total {
        return Kept {
            count: 0,
            radius: 0,
            shares: Shares::ZERO,
            verdict: Err(Refused(Refusal::TooManyTerms, 0)),
        };
    }
    let left = model_limits::limited_slices(total, k.radius, coefficients1);
    let w = left.verdict;
    let shares = model_types::unless_refused(w, kept);
    Kept {
        count: left.count,
        radius: left.radius,
        shares: shares,
        verdict: w,
    }
}
