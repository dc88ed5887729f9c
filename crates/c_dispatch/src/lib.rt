// The single call that a code names, a number as C hands it over: from slices to slices where it can be, by structs
// else.
#![tactic(auto)]

ghost use Rattle.std.specs.Prelude.{true, ◌≡◌, ◌≤◌, length};
ghost use Rattle.calculus.specs.Model.{most_terms};
ghost use Rattle.model_types.specs.ModelStruct.{view, answer, integral_answer};
ghost use Rattle.model_slices.specs.HandedModels.{handed, borrowed, answer_numbers, model_room};
ghost use Rattle.c_calls.specs.CallKinds.{two_call, one_call, other_call};
ghost use Rattle.c_calls.specs.CallCodes.{model_call, ends_call, call_fits, ends_call_fits};
ghost use Rattle.c_calls.specs.CallCodes.{called_state, called, stored_answer, ends_state, called_ends};
ghost use Rattle.c_calls.specs.CallCodes.{coordinates};

use c_products::model_slice_calls;
use model_types::{Integral, Key};

// A call of two models: add, subtract, or multiply.
fn of_two(
    code: u8,
    d: u8,
    n1: u8,
    count1: usize,
    radius1: u64,
    keys1: &[Key],
    coefficients1: &[i64],
    n2: u8,
    count2: usize,
    radius2: u64,
    keys2: &[Key],
    coefficients2: &[i64],
    keys: &mut [Key],
    coefficients: &mut [i64],
    numbers: &mut [u64],
) -> u8
    requires coefficients1_value { borrowed count1 (length keys1.now) (length coefficients1.now) ≡ true }
    requires coefficients2_value { borrowed count2 (length keys2.now) (length coefficients2.now) ≡ true }
    requires most_terms_in_bounds { (most_terms ≤ length keys.old) × (most_terms ≤ length coefficients.old)
        × (answer_numbers ≤ length numbers.old) }
    ensures { called_state result keys.new coefficients.new numbers.new
        ≡ stored_answer (answer (two_call code d
        (view (handed n1 count1 radius1 keys1.now coefficients1.now))
        (view (handed n2 count2 radius2 keys2.now coefficients2.now))))
        keys.old coefficients.old numbers.old }
{
    match code {
        c_calls::ADD => model_slice_calls::add(
            n1,
            count1,
            radius1,
            keys1,
            coefficients1,
            n2,
            count2,
            radius2,
            keys2,
            coefficients2,
            keys,
            coefficients,
            numbers,
        ),
        c_calls::SUBTRACT => model_slice_calls::subtract(
            n1,
            count1,
            radius1,
            keys1,
            coefficients1,
            n2,
            count2,
            radius2,
            keys2,
            coefficients2,
            keys,
            coefficients,
            numbers,
        ),
        _ => c_products::multiply(
            d,
            n1,
            count1,
            radius1,
            keys1,
            coefficients1,
            n2,
            count2,
            radius2,
            keys2,
            coefficients2,
            keys,
            coefficients,
            numbers,
        ),
    }
}

// A call of one model: negate, sweep, or antiderivative.
fn of_one(
    code: u8,
    d: u8,
    i: u8,
    value: i64,
    n: u8,
    count: usize,
    radius: u64,
    inkeys: &[Key],
    incoefficients: &[i64],
    keys: &mut [Key],
    coefficients: &mut [i64],
    numbers: &mut [u64],
) -> u8
    requires incoefficients_value { borrowed count (length inkeys.now) (length incoefficients.now) ≡ true }
    requires most_terms_in_bounds { (most_terms ≤ length keys.old) × (most_terms ≤ length coefficients.old)
        × (answer_numbers ≤ length numbers.old) }
    ensures { called_state result keys.new coefficients.new numbers.new
        ≡ stored_answer (answer (one_call code d i value
        (view (handed n count radius inkeys.now incoefficients.now))))
        keys.old coefficients.old numbers.old }
{
    match code {
        c_calls::NEGATE => model_slice_calls::negate(
            n,
            count,
            radius,
            inkeys,
            incoefficients,
            keys,
            coefficients,
            numbers,
        ),
        c_calls::SWEEP => model_slice_calls::sweep(
            value,
            n,
            count,
            radius,
            inkeys,
            incoefficients,
            keys,
            coefficients,
            numbers,
        ),
        _ => model_slice_calls::antiderivative(
            d,
            i,
            n,
            count,
            radius,
            inkeys,
            incoefficients,
            keys,
            coefficients,
            numbers,
        ),
    }
}

// Any other call that answers with a model: constant, variable, or substitute.
fn other(
    code: u8,
    d: u8,
    i: u8,
    value: i64,
    n1: u8,
    count1: usize,
    radius1: u64,
    keys1: &[Key],
    coefficients1: &[i64],
    n2: u8,
    count2: usize,
    radius2: u64,
    keys2: &[Key],
    coefficients2: &[i64],
    keys: &mut [Key],
    coefficients: &mut [i64],
    numbers: &mut [u64],
) -> u8
    requires { (most_terms ≤ length keys.old) × (most_terms ≤ length coefficients.old)
        × (answer_numbers ≤ length numbers.old) }
    ensures { called_state result keys.new coefficients.new numbers.new
        ≡ stored_answer (answer (other_call code d i value
        (view (handed n1 count1 radius1 keys1.now coefficients1.now))
        (view (handed n2 count2 radius2 keys2.now coefficients2.now))))
        keys.old coefficients.old numbers.old }
{
    let f = model_slices::taken(n1, count1, radius1, keys1, coefficients1);
    let g = model_slices::taken(n2, count2, radius2, keys2, coefficients2);
    let a = c_calls::other_call(code, d, i, value, n1, f, g);
    c_calls::store_answer(a, keys, coefficients, numbers)
}

// A call that answers with a model: the refusal's number, 0 without one, or MISUSED. The answer's 64 keys and
// coefficients go into two slices, the refusal's place, n, the count and the radius into the third.
pub fn call(
    code: u8,
    d: u8,
    i: u8,
    value: i64,
    n1: u8,
    count1: usize,
    radius1: u64,
    keys1: &[Key],
    coefficients1: &[i64],
    n2: u8,
    count2: usize,
    radius2: u64,
    keys2: &[Key],
    coefficients2: &[i64],
    keys: &mut [Key],
    coefficients: &mut [i64],
    numbers: &mut [u64],
) -> u8
    ensures { called_state result keys.new coefficients.new numbers.new
        ≡ called
        (call_fits code count1 (length keys1.now) (length coefficients1.now)
        count2 (length keys2.now) (length coefficients2.now)
        (model_room (length keys.old) (length coefficients.old) (length numbers.old)))
        (model_call code d i value
        (view (handed n1 count1 radius1 keys1.now coefficients1.now))
        (view (handed n2 count2 radius2 keys2.now coefficients2.now)))
        keys.old coefficients.old numbers.old }
{
    let room = model_slices::model_room(keys.len(), coefficients.len(), numbers.len());
    let long1 = keys1.len();
    let long2 = keys2.len();
    if !c_calls::call_fits(
        code,
        count1,
        long1,
        coefficients1.len(),
        count2,
        long2,
        coefficients2.len(),
        room,
    ) {
        return c_calls::MISUSED;
    }
    if c_calls::of_two(code) {
        return of_two(
            code,
            d,
            n1,
            count1,
            radius1,
            keys1,
            coefficients1,
            n2,
            count2,
            radius2,
            keys2,
            coefficients2,
            keys,
            coefficients,
            numbers,
        );
    }
    if c_calls::of_one(code) {
        return of_one(
            code,
            d,
            i,
            value,
            n1,
            count1,
            radius1,
            keys1,
            coefficients1,
            keys,
            coefficients,
            numbers,
        );
    }
    other(
        code,
        d,
        i,
        value,
        n1,
        count1,
        radius1,
        keys1,
        coefficients1,
        n2,
        count2,
        radius2,
        keys2,
        coefficients2,
        keys,
        coefficients,
        numbers,
    )
}

// The call with two ends that a code names: range and integral read the slices, and evaluate, for any code that these
// do not have, a struct. Of the three only an integral has a quotient and a remainder.
fn ends_call(
    code: u8,
    point: &[i64],
    n: u8,
    count: usize,
    radius: u64,
    keys: &[Key],
    coefficients: &[i64],
) -> Integral
    requires { borrowed count (length keys.now) (length coefficients.now) ≡ true }
    ensures { result ≡ integral_answer (ends_call code (coordinates point.now)
        (view (handed n count radius keys.now coefficients.now))) }
{
    match code {
        c_calls::RANGE => c_calls::alone(model_slice_calls::range(
            n,
            count,
            radius,
            keys,
            coefficients,
        )),
        c_calls::INTEGRAL => model_slice_calls::integral(n, count, radius, keys, coefficients),
        _ => {
            let f = model_slices::taken(n, count, radius, keys, coefficients);
            let xs = c_calls::coordinates(point);
            c_calls::evaluated(xs, f)
        }
    }
}

// A call that answers with two ends: the refusal's number, 0 without one, or MISUSED. The ends, the quotient and the
// remainder go into the slice; the last two are 0 but for an integral. Evaluate takes the first eight coordinates of
// the point, the others do not look at it. The place of every refusal is 0.
pub fn ends(
    code: u8,
    n: u8,
    count: usize,
    radius: u64,
    keys: &[Key],
    coefficients: &[i64],
    point: &[i64],
    ends: &mut [i64],
) -> u8
    ensures { ends_state result ends.new
        ≡ called_ends
        (ends_call_fits code count (length keys.now) (length coefficients.now)
        (length point.now) (length ends.old))
        (ends_call code (coordinates point.now)
        (view (handed n count radius keys.now coefficients.now)))
        ends.old }
{
    let long = keys.len();
    if !c_calls::ends_call_fits(
        code,
        count,
        long,
        coefficients.len(),
        point.len(),
        ends.len(),
    ) {
        return c_calls::MISUSED;
    }
    let b = ends_call(code, point, n, count, radius, keys, coefficients);
    c_calls::store_ends(b, ends)
}
