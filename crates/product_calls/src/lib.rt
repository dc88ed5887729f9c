// The single call `multiply` on models that lie in slices. It takes anything that they can hold, makes the tests in
// document 01's order, and answers the product or the refusal with its place.
#![tactic(auto)]

ghost use Rattle.std.specs.Prelude.{true, ◌≡◌, length};
ghost use Rattle.calculus.specs.Calls.{call_multiply};
ghost use Rattle.model_types.specs.ModelStruct.{view, answer};
ghost use Rattle.model_slices.specs.HandedModels.{handed, borrowed};
ghost use Rattle.product_room.specs.ProductTerms.{KeptRoom};
ghost use Rattle.product_answer.specs.KeptProduct.{kept_accounted, KeptReady};

use model_slices::Kept;
use model_types::{Key, Refused, Shares};

// ---- handed on
pub use product_slices::{multiplied_slices_accounted, store_kept};

// ---- the call

// The product of two models, with terms above degree d swept into the radius: its terms, by wide keys, are in the two
// arrays. 3, 5 at place 0 or 1, 10, 8, 7.
pub fn multiply_slices(
    d: u8,
    n1: u8,
    count1: usize,
    radius1: u64,
    keys1: &[Key],
    coefficients1: &[i64],
    n2: u8,
    count2: usize,
    radius2: u64,
    keys2: &[Key],
    coefficients2: &[i64],
    kept: &mut [u64],
    coefficients: &mut [i64],
) -> Kept
    requires coefficients1_value { borrowed count1 (length keys1.now) (length coefficients1.now) ≡ true }
    requires coefficients2_value { borrowed count2 (length keys2.now) (length coefficients2.now) ≡ true }
    requires kept_room { KeptRoom kept.old coefficients.old }
    ensures exact { (kept_accounted n1 result kept.new coefficients.new).answer
        ≡ answer (call_multiply d
        (view (handed n1 count1 radius1 keys1.now coefficients1.now))
        (view (handed n2 count2 radius2 keys2.now coefficients2.now))) }
    ensures ready { KeptReady result kept.new coefficients.new }
{
    let v = model_slice_tests::ordered(
        d,
        n1,
        count1,
        radius1,
        keys1,
        coefficients1,
        n2,
        count2,
        radius2,
        keys2,
        coefficients2,
    );
    match v {
        Ok(()) => product_slices::multiplied_slices_alone(
            d,
            n1,
            count1,
            radius1,
            keys1,
            coefficients1,
            count2,
            radius2,
            keys2,
            coefficients2,
            kept,
            coefficients,
        ),
        Err(Refused(refusal, place)) => Kept {
            count: 0,
            radius: 0,
            shares: Shares::ZERO,
            verdict: Err(Refused(refusal, place)),
        },
    }
}
