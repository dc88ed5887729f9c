// The single calls `add` and `subtract` from slices to slices. They take anything that these can hold, make the tests
// in document 01's order, store the sum or the refusal with its place, and answer with the number of that, 0 without
// one.
#![tactic(auto)]

ghost use Rattle.std.specs.Prelude.{true, ◌≡◌, ℕ, ◌+◌, ◌^◌, ◌≤◌, ◌<◌, length};
ghost use Rattle.calculus.specs.Calls.{call_add, call_subtract};
ghost use Rattle.calculus.specs.Model.{most_terms};
ghost use Rattle.calculus.specs.Operations as Op;
ghost use Rattle.calculus.specs.Refusal.{at_place};
ghost use Rattle.model_types.specs.ModelStruct.{view, answer};
ghost use Rattle.model_slices.specs.HandedModels.{handed, borrowed, answer_numbers};
ghost use Rattle.model_slices.specs.HeldModels.{held};
ghost use Rattle.model_places.specs.LeftModels.{Zeros, left_answer};
ghost use Rattle.model_slice_answers.specs.StoredAnswers.{Stored};
ghost use Rattle.model_addition.specs.Addition.{SumFrom};
ghost use Rattle.model_slice_results.specs.Addends.{Addends};

use model_limits::Left;
use model_types::{Key, MOST_TERMS, Refusal, Refused};

// ---- of sound models in the same variables
// The sum goes into two arrays of zeros. The 65th term is refused before any span is tested.
fn sum_into(
    count1: usize,
    radius1: u64,
    keys1: &[Key],
    coefficients1: &[i64],
    count2: usize,
    radius2: u64,
    keys2: &[Key],
    coefficients2: &[i64],
    kept: &mut [Key],
    rest: &mut [i64],
) -> Left
    requires sum_from { SumFrom count1 keys1.now coefficients1.now count2 keys2.now coefficients2.now }
    requires radius2_bound { radius1 + radius2 < 2 ^ 64 }
    requires zeros { Zeros kept.old rest.old }
    ensures { (n : ℕ) → Addends n count1 radius1 keys1.now coefficients1.now
        count2 radius2 keys2.now coefficients2.now
        → left_answer n result kept.new rest.new
        ≡ answer (at_place 0 (Op.add
        (view (held n count1 radius1 keys1.now coefficients1.now))
        (view (held n count2 radius2 keys2.now coefficients2.now)))) }
{
    let count = model_addition::merged_slices(
        count1,
        keys1,
        coefficients1,
        count2,
        keys2,
        coefficients2,
        kept,
        rest,
    );
    if MOST_TERMS < count {
        return Left {
            count: 0,
            radius: 0,
            verdict: Err(Refused(Refusal::TooManyTerms, 0)),
        };
    }
    let radius = radius1 + radius2;
    if model_limits::within(count, radius, rest) {
        return Left {
            count: count,
            radius: radius,
            verdict: Ok(()),
        };
    }
    Left {
        count: 0,
        radius: 0,
        verdict: Err(Refused(Refusal::OverSpan, 0)),
    }
}

// And from there into the slices of the answer.
fn store_sum(
    n: u8,
    count1: usize,
    radius1: u64,
    keys1: &[Key],
    coefficients1: &[i64],
    count2: usize,
    radius2: u64,
    keys2: &[Key],
    coefficients2: &[i64],
    keys: &mut [Key],
    coefficients: &mut [i64],
    numbers: &mut [u64],
) -> u8
    requires addends { Addends n count1 radius1 keys1.now coefficients1.now
        count2 radius2 keys2.now coefficients2.now }
    requires most_terms_in_bounds { (most_terms ≤ length keys.old) × (most_terms ≤ length coefficients.old)
        × (answer_numbers ≤ length numbers.old) }
    ensures { Stored (answer (at_place 0 (Op.add
        (view (held n count1 radius1 keys1.now coefficients1.now))
        (view (held n count2 radius2 keys2.now coefficients2.now))))) result
        keys.old coefficients.old numbers.old
        keys.new coefficients.new numbers.new }
{
    let mut kept: [Key; MOST_TERMS] = [0; MOST_TERMS];
    let mut rest = [0i64; MOST_TERMS];
    let l = sum_into(
        count1,
        radius1,
        keys1,
        coefficients1,
        count2,
        radius2,
        keys2,
        coefficients2,
        &mut kept,
        &mut rest,
    );
    model_slice_answers::store_left(n, l, &kept, &rest, keys, coefficients, numbers)
}

// The difference: the sum with the second, whose signs are turned into an array.
fn store_difference(
    n: u8,
    count1: usize,
    radius1: u64,
    keys1: &[Key],
    coefficients1: &[i64],
    count2: usize,
    radius2: u64,
    keys2: &[Key],
    coefficients2: &[i64],
    keys: &mut [Key],
    coefficients: &mut [i64],
    numbers: &mut [u64],
) -> u8
    requires addends { Addends n count1 radius1 keys1.now coefficients1.now
        count2 radius2 keys2.now coefficients2.now }
    requires most_terms_in_bounds { (most_terms ≤ length keys.old) × (most_terms ≤ length coefficients.old)
        × (answer_numbers ≤ length numbers.old) }
    ensures { Stored (answer (at_place 0 (Op.subtract
        (view (held n count1 radius1 keys1.now coefficients1.now))
        (view (held n count2 radius2 keys2.now coefficients2.now))))) result
        keys.old coefficients.old numbers.old
        keys.new coefficients.new numbers.new }
{
    let mut turned = [0i64; MOST_TERMS];
    model_unary::turn(count2, coefficients2, &mut turned);
    store_sum(
        n,
        count1,
        radius1,
        keys1,
        coefficients1,
        count2,
        radius2,
        keys2,
        &turned,
        keys,
        coefficients,
        numbers,
    )
}

// ---- the calls
// Coefficients of equal monomials added, zeros dropped, radii added. 5 at place 0 or 1, 10, 8, 7.
pub fn add(
    n1: u8,
    count1: usize,
    radius1: u64,
    keys1: &[Key],
    coefficients1: &[i64],
    n2: u8,
    count2: usize,
    radius2: u64,
    keys2: &[Key],
    coefficients2: &[i64],
    keys: &mut [Key],
    coefficients: &mut [i64],
    numbers: &mut [u64],
) -> u8
    requires coefficients1_value { borrowed count1 (length keys1.now) (length coefficients1.now) ≡ true }
    requires coefficients2_value { borrowed count2 (length keys2.now) (length coefficients2.now) ≡ true }
    requires most_terms_in_bounds { (most_terms ≤ length keys.old) × (most_terms ≤ length coefficients.old)
        × (answer_numbers ≤ length numbers.old) }
    ensures { Stored (answer (call_add
        (view (handed n1 count1 radius1 keys1.now coefficients1.now))
        (view (handed n2 count2 radius2 keys2.now coefficients2.now)))) result
        keys.old coefficients.old numbers.old
        keys.new coefficients.new numbers.new }
{
    let v = model_slice_tests::two_models(
        model_types::MOST_DEGREE,
        n1,
        count1,
        radius1,
        keys1,
        coefficients1,
        n2,
        count2,
        radius2,
        keys2,
        coefficients2,
    );
    match v {
        Ok(()) => store_sum(
            n1,
            count1,
            radius1,
            keys1,
            coefficients1,
            count2,
            radius2,
            keys2,
            coefficients2,
            keys,
            coefficients,
            numbers,
        ),
        Err(Refused(refusal, place)) => {
            model_slice_answers::store_refused(refusal, place, keys, coefficients, numbers)
        }
    }
}

// The first and the negated second added. 5 at place 0 or 1, 10, 8, 7.
pub fn subtract(
    n1: u8,
    count1: usize,
    radius1: u64,
    keys1: &[Key],
    coefficients1: &[i64],
    n2: u8,
    count2: usize,
    radius2: u64,
    keys2: &[Key],
    coefficients2: &[i64],
    keys: &mut [Key],
    coefficients: &mut [i64],
    numbers: &mut [u64],
) -> u8
    requires coefficients1_value { borrowed count1 (length keys1.now) (length coefficients1.now) ≡ true }
    requires coefficients2_value { borrowed count2 (length keys2.now) (length coefficients2.now) ≡ true }
    requires most_terms_in_bounds { (most_terms ≤ length keys.old) × (most_terms ≤ length coefficients.old)
        × (answer_numbers ≤ length numbers.old) }
    ensures { Stored (answer (call_subtract
        (view (handed n1 count1 radius1 keys1.now coefficients1.now))
        (view (handed n2 count2 radius2 keys2.now coefficients2.now)))) result
        keys.old coefficients.old numbers.old
        keys.new coefficients.new numbers.new }
{
    let v = model_slice_tests::two_models(
        model_types::MOST_DEGREE,
        n1,
        count1,
        radius1,
        keys1,
        coefficients1,
        n2,
        count2,
        radius2,
        keys2,
        coefficients2,
    );
    match v {
        Ok(()) => store_difference(
            n1,
            count1,
            radius1,
            keys1,
            coefficients1,
            count2,
            radius2,
            keys2,
            coefficients2,
            keys,
            coefficients,
            numbers,
        ),
        Err(Refused(refusal, place)) => {
            model_slice_answers::store_refused(refusal, place, keys, coefficients, numbers)
        }
    }
}
