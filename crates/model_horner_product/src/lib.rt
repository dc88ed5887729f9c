// The product in an iteration of Horner's rule, of models that lie in slices of 64 places. After the terms that a count
// names any numbers may stand.
#![tactic(auto)]

ghost use Rattle.std.specs.Prelude.{◌*◌};
ghost use Rattle.calculus.specs.Operations.{multiply};
ghost use Rattle.calculus.specs.Shares.{product_shares};
ghost use Rattle.model_types.specs.ModelStruct.{view};
ghost use Rattle.model_types.specs.SharesStruct.{accounted};
ghost use Rattle.model_slices.specs.HeldModels.{held, Room};
ghost use Rattle.product_slices.specs.product_room.ProductTerms.{ScratchRoom};
ghost use Rattle.model_horner_product.specs.HornerProduct.{FactorsOf, KeptIn};

use model_slices::Kept;
use model_types::Key;

// Handed on: crates above name these through this crate.
pub use product_slices;

// h times g with order d: its terms go into the last two slices, unless it is refused. The table is scratch.
pub fn product(
    d: u8,
    n: u8,
    many: usize,
    around: u64,
    keys1: &[Key],
    values1: &[i64],
    count: usize,
    radius: u64,
    keys2: &[Key],
    values2: &[i64],
    slots: &mut [u16],
    keys: &mut [u64],
    sums: &mut [i64],
    stored: &mut [Key],
    out: &mut [i64],
) -> Kept
    requires factors_of { FactorsOf d n many around keys1.now values1.now count radius keys2.now values2.now }
    requires scratch_room { ScratchRoom (many * count) slots.old keys.old sums.old }
    requires room { Room stored.old out.old }
    ensures { KeptIn n result stored.new out.new (accounted (multiply d
        (view (held n many around keys1.now values1.now))
        (view (held n count radius keys2.now values2.now)))
        (λ m. product_shares d
        (view (held n many around keys1.now values1.now))
        (view (held n count radius keys2.now values2.now)))) }
{
    let mut kept = [0u64; model_types::MOST_TERMS + 1];
    let mut rounded = [0i64; model_types::MOST_TERMS + 1];
    let k = product_slices::multiplied_slices(
        d,
        n,
        many,
        around,
        keys1,
        values1,
        count,
        radius,
        keys2,
        values2,
        slots,
        keys,
        sums,
        &mut kept,
        &mut rounded,
    );
    let v = k.verdict;
    let Ok(()) = v else {
        return k;
    };
    product_answer::store_first(k.count, &kept, &rounded, stored, out);
    k
}
