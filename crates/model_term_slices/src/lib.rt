// The single calls of one model in slices. They take anything that these can hold, and make the tests in document 01's
// order. `negate`, `sweep` and `antiderivative` store the answer or the refusal with its place into slices, and answer
// with the number of that, 0 without one; `range` and `integral` answer with a struct.
#![tactic(auto)]

ghost use Rattle.std.specs.Prelude.{true, ◌≡◌, ◌≤◌, length};
ghost use Rattle.calculus.specs.Calls.{call_negate, call_sweep, call_antiderivative};
ghost use Rattle.calculus.specs.Calls.{call_range, call_integral};
ghost use Rattle.calculus.specs.Model.{most_terms};
ghost use Rattle.calculus.specs.Operations as Op;
ghost use Rattle.calculus.specs.Refusal.{done};
ghost use Rattle.model_types.specs.ModelStruct.{view, answer, bounds, integral_answer};
ghost use Rattle.model_slices.specs.HandedModels.{handed, borrowed, answer_numbers};
ghost use Rattle.model_slices.specs.HeldModels.{held};
ghost use Rattle.model_slice_answers.specs.StoredAnswers.{Stored};
ghost use Rattle.model_term_slices.specs.SoundSlices.{SoundSlices, IntegrandSlices};

use model_limits::Left;
use model_types::{Bounds, Integral, Key, MOST_TERMS, Refused};

// ---- of a sound model: into two arrays of zeros, and from there into the slices of the answer
// All signs turned.
fn store_negated(
    n: u8,
    count: usize,
    radius: u64,
    keys: &[Key],
    coefficients: &[i64],
    outkeys: &mut [Key],
    outcoefficients: &mut [i64],
    numbers: &mut [u64],
) -> u8
    requires sound_slices { SoundSlices n count radius keys.now coefficients.now }
    requires most_terms_in_bounds { (most_terms ≤ length outkeys.old) × (most_terms ≤ length outcoefficients.old)
        × (answer_numbers ≤ length numbers.old) }
    ensures { Stored (answer (done (Op.negate
        (view (held n count radius keys.now coefficients.now))))) result
        outkeys.old outcoefficients.old numbers.old
        outkeys.new outcoefficients.new numbers.new }
{
    let mut kept: [Key; MOST_TERMS] = [0; MOST_TERMS];
    let mut rest = [0i64; MOST_TERMS];
    let l: Left = model_unary::negated_slices(
        count,
        radius,
        keys,
        coefficients,
        &mut kept,
        &mut rest,
    );
    model_slice_answers::store_left(n, l, &kept, &rest, outkeys, outcoefficients, numbers)
}

// Small terms swept.
fn store_swept(
    threshold: u64,
    n: u8,
    count: usize,
    radius: u64,
    keys: &[Key],
    coefficients: &[i64],
    outkeys: &mut [Key],
    outcoefficients: &mut [i64],
    numbers: &mut [u64],
) -> u8
    requires sound_slices { SoundSlices n count radius keys.now coefficients.now }
    requires most_terms_in_bounds { (most_terms ≤ length outkeys.old) × (most_terms ≤ length outcoefficients.old)
        × (answer_numbers ≤ length numbers.old) }
    ensures { Stored (answer (done (Op.sweep threshold
        (view (held n count radius keys.now coefficients.now))))) result
        outkeys.old outcoefficients.old numbers.old
        outkeys.new outcoefficients.new numbers.new }
{
    let mut kept: [Key; MOST_TERMS] = [0; MOST_TERMS];
    let mut rest = [0i64; MOST_TERMS];
    let l: Left = model_unary::swept_slices(
        threshold,
        count,
        radius,
        keys,
        coefficients,
        &mut kept,
        &mut rest,
    );
    model_slice_answers::store_left(n, l, &kept, &rest, outkeys, outcoefficients, numbers)
}

// The antiderivative in variable i, with order d.
fn store_integrated(
    d: u8,
    i: u8,
    n: u8,
    count: usize,
    radius: u64,
    keys: &[Key],
    coefficients: &[i64],
    outkeys: &mut [Key],
    outcoefficients: &mut [i64],
    numbers: &mut [u64],
) -> u8
    requires integrand_slices { IntegrandSlices d i n count radius keys.now coefficients.now }
    requires most_terms_in_bounds { (most_terms ≤ length outkeys.old) × (most_terms ≤ length outcoefficients.old)
        × (answer_numbers ≤ length numbers.old) }
    ensures { Stored (answer (done (Op.antiderivative d i
        (view (held n count radius keys.now coefficients.now))))) result
        outkeys.old outcoefficients.old numbers.old
        outkeys.new outcoefficients.new numbers.new }
{
    let mut kept: [Key; MOST_TERMS] = [0; MOST_TERMS];
    let mut rest = [0i64; MOST_TERMS];
    let l: Left = model_antiderivative::integrated_slices(
        d,
        i,
        count,
        radius,
        keys,
        coefficients,
        &mut kept,
        &mut rest,
    );
    model_slice_answers::store_left(n, l, &kept, &rest, outkeys, outcoefficients, numbers)
}

// ---- the calls
// All signs turned. 5.
pub fn negate(
    n: u8,
    count: usize,
    radius: u64,
    keys: &[Key],
    coefficients: &[i64],
    outkeys: &mut [Key],
    outcoefficients: &mut [i64],
    numbers: &mut [u64],
) -> u8
    requires coefficients_value { borrowed count (length keys.now) (length coefficients.now) ≡ true }
    requires most_terms_in_bounds { (most_terms ≤ length outkeys.old) × (most_terms ≤ length outcoefficients.old)
        × (answer_numbers ≤ length numbers.old) }
    ensures { Stored (answer (call_negate
        (view (handed n count radius keys.now coefficients.now)))) result
        outkeys.old outcoefficients.old numbers.old
        outkeys.new outcoefficients.new numbers.new }
{
    let v = model_slice_tests::single_model(n, count, radius, keys, coefficients);
    match v {
        Ok(()) => store_negated(
            n,
            count,
            radius,
            keys,
            coefficients,
            outkeys,
            outcoefficients,
            numbers,
        ),
        Err(Refused(refusal, place)) => {
            model_slice_answers::store_refused(refusal, place, outkeys, outcoefficients, numbers)
        }
    }
}

// Terms other than the constant one with |c| at most t dropped, and |c| added to the radius. 5, 6.
pub fn sweep(
    t: i64,
    n: u8,
    count: usize,
    radius: u64,
    keys: &[Key],
    coefficients: &[i64],
    outkeys: &mut [Key],
    outcoefficients: &mut [i64],
    numbers: &mut [u64],
) -> u8
    requires coefficients_value { borrowed count (length keys.now) (length coefficients.now) ≡ true }
    requires most_terms_in_bounds { (most_terms ≤ length outkeys.old) × (most_terms ≤ length outcoefficients.old)
        × (answer_numbers ≤ length numbers.old) }
    ensures { Stored (answer (call_sweep t
        (view (handed n count radius keys.now coefficients.now)))) result
        outkeys.old outcoefficients.old numbers.old
        outkeys.new outcoefficients.new numbers.new }
{
    let v = model_slice_tests::sweeping(t, n, count, radius, keys, coefficients);
    match v {
        Ok(()) => store_swept(
            fixed::magnitude(t),
            n,
            count,
            radius,
            keys,
            coefficients,
            outkeys,
            outcoefficients,
            numbers,
        ),
        Err(Refused(refusal, place)) => {
            model_slice_answers::store_refused(refusal, place, outkeys, outcoefficients, numbers)
        }
    }
}

// The antiderivative in variable i, with terms above degree d swept into the radius. 3, 5, 6.
pub fn antiderivative(
    d: u8,
    i: u8,
    n: u8,
    count: usize,
    radius: u64,
    keys: &[Key],
    coefficients: &[i64],
    outkeys: &mut [Key],
    outcoefficients: &mut [i64],
    numbers: &mut [u64],
) -> u8
    requires coefficients_value { borrowed count (length keys.now) (length coefficients.now) ≡ true }
    requires most_terms_in_bounds { (most_terms ≤ length outkeys.old) × (most_terms ≤ length outcoefficients.old)
        × (answer_numbers ≤ length numbers.old) }
    ensures { Stored (answer (call_antiderivative d i
        (view (handed n count radius keys.now coefficients.now)))) result
        outkeys.old outcoefficients.old numbers.old
        outkeys.new outcoefficients.new numbers.new }
{
    let v = model_slice_tests::integrating(d, i, n, count, radius, keys, coefficients);
    match v {
        Ok(()) => store_integrated(
            d,
            i,
            n,
            count,
            radius,
            keys,
            coefficients,
            outkeys,
            outcoefficients,
            numbers,
        ),
        Err(Refused(refusal, place)) => {
            model_slice_answers::store_refused(refusal, place, outkeys, outcoefficients, numbers)
        }
    }
}

// ---- the calls with two ends
// The range over the box. 5.
pub fn range(n: u8, count: usize, radius: u64, keys: &[Key], coefficients: &[i64]) -> Bounds
    requires { borrowed count (length keys.now) (length coefficients.now) ≡ true }
    ensures { result ≡ bounds (call_range
        (view (handed n count radius keys.now coefficients.now))) }
{
    let v = model_slice_tests::single_model(n, count, radius, keys, coefficients);
    match v {
        Ok(()) => model_range::range_slices(count, radius, keys, coefficients),
        Err(Refused(refusal, place)) => model_types::refuse_bounds(refusal, place),
    }
}

// The integral over the box. 5.
pub fn integral(n: u8, count: usize, radius: u64, keys: &[Key], coefficients: &[i64]) -> Integral
    requires { borrowed count (length keys.now) (length coefficients.now) ≡ true }
    ensures { result ≡ integral_answer (call_integral
        (view (handed n count radius keys.now coefficients.now))) }
{
    let v = model_slice_tests::single_model(n, count, radius, keys, coefficients);
    match v {
        Ok(()) => model_integral::integral_slices(n, count, radius, keys, coefficients),
        Err(Refused(refusal, place)) => model_types::refuse_integral(refusal, place),
    }
}
