// A product of two models that are handed over, straight from their slices into those of the answer.
#![tactic(auto)]

ghost use Rattle.std.specs.Prelude.{true, ◌≡◌, ◌≤◌, length};
ghost use Rattle.calculus.specs.Calls.{call_multiply};
ghost use Rattle.calculus.specs.Model.{most_terms};
ghost use Rattle.model_types.specs.ModelStruct.{view, answer};
ghost use Rattle.model_slices.specs.HandedModels.{handed, borrowed, answer_numbers};
ghost use Rattle.model.specs.OperationContracts.{kept_accounted, KeptReady};
ghost use Rattle.c_calls.specs.CallCodes.{called_state, stored_answer};

use model_slice_calls::store_numbers;
use model_slices::Kept;
use model_types::{Key, Refused};

// Handed on: crates above name these through this crate.
pub use model_slice_calls;

// How many terms an answer may have before it is refused: one more than a model.
const PLACES: usize = model_types::MOST_TERMS + 1;

// An answer whose terms stand in two arrays goes into the slices; its number.
fn store(
    n: u8,
    k: Kept,
    kept: &[u64],
    sums: &[i64],
    keys: &mut [Key],
    coefficients: &mut [i64],
    numbers: &mut [u64],
) -> u8
    requires kept_ready { KeptReady k kept.now sums.now }
    requires most_terms_in_bounds { (most_terms ≤ length keys.old) × (most_terms ≤ length coefficients.old)
        × (answer_numbers ≤ length numbers.old) }
    ensures { called_state result keys.new coefficients.new numbers.new
        ≡ stored_answer (kept_accounted n k kept.now sums.now).answer
        keys.old coefficients.old numbers.old }
{
    model::store_kept(k, kept, sums, keys, coefficients);
    let count = k.count;
    let radius = k.radius;
    let v = k.verdict;
    match v {
        Ok(()) => {
            store_numbers(0, n, count, radius, numbers);
            0
        }
        Err(Refused(refusal, place)) => {
            store_numbers(place, 1, 0, 0, numbers);
            model_types::number(refusal)
        }
    }
}

// The call `multiply`: the product of two models, or its refusal, goes into the slices; its number.
pub fn multiply(
    d: u8,
    n1: u8,
    count1: usize,
    radius1: u64,
    keys1: &[Key],
    coefficients1: &[i64],
    n2: u8,
    count2: usize,
    radius2: u64,
    keys2: &[Key],
    coefficients2: &[i64],
    keys: &mut [Key],
    coefficients: &mut [i64],
    numbers: &mut [u64],
) -> u8
    requires coefficients1_value { borrowed count1 (length keys1.now) (length coefficients1.now) ≡ true }
    requires coefficients2_value { borrowed count2 (length keys2.now) (length coefficients2.now) ≡ true }
    requires most_terms_in_bounds { (most_terms ≤ length keys.old) × (most_terms ≤ length coefficients.old)
        × (answer_numbers ≤ length numbers.old) }
    ensures { called_state result keys.new coefficients.new numbers.new
        ≡ stored_answer (answer (call_multiply d
        (view (handed n1 count1 radius1 keys1.now coefficients1.now))
        (view (handed n2 count2 radius2 keys2.now coefficients2.now))))
        keys.old coefficients.old numbers.old }
{
    let mut kept = [0u64; PLACES];
    let mut sums = [0i64; PLACES];
    let k = model::multiply_slices(
        d,
        n1,
        count1,
        radius1,
        keys1,
        coefficients1,
        n2,
        count2,
        radius2,
        keys2,
        coefficients2,
        &mut kept,
        &mut sums,
    );
    store(n1, k, &kept, &sums, keys, coefficients, numbers)
}
