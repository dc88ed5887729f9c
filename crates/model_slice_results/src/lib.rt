// Products and differences of models in slices, whose terms are left in two other slices of 64 places. Zeros are not
// stored after the terms.
#![tactic(auto)]

ghost use Rattle.std.specs.Prelude.{◌*◌, ◌≤◌, length};
ghost use Rattle.calculus.specs.Operations.{multiply, subtract};
ghost use Rattle.calculus.specs.Refusal.{at_place};
ghost use Rattle.model_types.specs.ModelStruct.{view, answer};
ghost use Rattle.model_slices.specs.HandedModels.{handed};
ghost use Rattle.model_slices.specs.HeldModels.{held, Room};
ghost use Rattle.model_limits.specs.Limits.{LeftIn};
ghost use Rattle.model_horner_product.specs.product_room.ProductTerms.{ScratchRoom};
ghost use Rattle.product_answer.specs.ProductFactors.{Factors};
ghost use Rattle.model_slice_results.specs.Addends.{Addends};

use model_horner_product::product_slices;
use model_limits::Left;
use model_slices::Kept;
use model_types::{Key, MOST_TERMS, Refusal, Refused};

// The product of two sound models in n variables at order d, each in slices that may be longer than its count. The
// table is scratch.
pub fn product(
    d: u8,
    n: u8,
    counta: usize,
    radiusa: u64,
    keysa: &[Key],
    coefficientsa: &[i64],
    countb: usize,
    radiusb: u64,
    keysb: &[Key],
    coefficientsb: &[i64],
    slots: &mut [u16],
    keys: &mut [u64],
    sums: &mut [i64],
    stored: &mut [Key],
    out: &mut [i64],
) -> Left
    requires factors { Factors d (handed n counta radiusa keysa.now coefficientsa.now)
        (handed n countb radiusb keysb.now coefficientsb.now) }
    requires counta_in_bounds { (counta ≤ length keysa.now) × (counta ≤ length coefficientsa.now) }
    requires countb_in_bounds { (countb ≤ length keysb.now) × (countb ≤ length coefficientsb.now) }
    requires scratch_room { ScratchRoom (counta * countb) slots.old keys.old sums.old }
    requires room { Room stored.old out.old }
    ensures { LeftIn n result stored.new out.new (answer (at_place 0 (multiply d
        (view (handed n counta radiusa keysa.now coefficientsa.now))
        (view (handed n countb radiusb keysb.now coefficientsb.now))))) }
{
    let mut wide = [0u64; MOST_TERMS + 1];
    let mut rounded = [0i64; MOST_TERMS + 1];
    let k: Kept = product_slices::multiplied_slices(
        d,
        n,
        counta,
        radiusa,
        keysa,
        coefficientsa,
        countb,
        radiusb,
        keysb,
        coefficientsb,
        slots,
        keys,
        sums,
        &mut wide,
        &mut rounded,
    );
    let v = k.verdict;
    let left = Left {
        count: k.count,
        radius: k.radius,
        verdict: v,
    };
    let Ok(()) = v else {
        return left;
    };
    product_answer::store_first(k.count, &wide, &rounded, stored, out);
    left
}

// The first less the second, two sound models in n variables: a merge with the second, whose signs are turned, then the
// limits. The 65th term is refused before any span is tested.
pub fn difference(
    n: u8,
    countp: usize,
    radiusp: u64,
    keysp: &[Key],
    coefficientsp: &[i64],
    countq: usize,
    radiusq: u64,
    keysq: &[Key],
    coefficientsq: &[i64],
    stored: &mut [Key],
    out: &mut [i64],
) -> Left
    requires addends { Addends n countp radiusp keysp.now coefficientsp.now
        countq radiusq keysq.now coefficientsq.now }
    requires room { Room stored.old out.old }
    ensures { LeftIn n result stored.new out.new (answer (at_place 0 (subtract
        (view (held n countp radiusp keysp.now coefficientsp.now))
        (view (held n countq radiusq keysq.now coefficientsq.now))))) }
{
    let mut turned = [0i64; MOST_TERMS];
    model_unary::turn(countq, coefficientsq, &mut turned);
    let count = model_addition::merged_slices(
        countp,
        keysp,
        coefficientsp,
        countq,
        keysq,
        &turned,
        stored,
        out,
    );
    if MOST_TERMS < count {
        return Left {
            count: 0,
            radius: 0,
            verdict: Err(Refused(Refusal::TooManyTerms, 0)),
        };
    }
    let radius = radiusp + radiusq;
    model_limits::limited_slices(count, radius, out)
}
