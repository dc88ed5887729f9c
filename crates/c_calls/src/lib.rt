// The single call that a code names, on models that are handed over, and its answer stored into slices.
#![tactic(auto)]

ghost use Rattle.std.specs.Prelude.{◌≡◌, ◌^◌, ◌<◌, ◌≤◌, length};
ghost use Rattle.calculus.specs.Model.{most_terms};
ghost use Rattle.calculus.specs.Calls.{call_evaluate};
ghost use Rattle.model_types.specs.ModelStruct.{view, answer, integral_answer};
ghost use Rattle.model_slices.specs.HandedModels.{answer_numbers};
ghost use Rattle.c_calls.specs.CallCodes.{call_known, call_fits, alone};
ghost use Rattle.c_calls.specs.CallCodes.{ends_call_fits};
ghost use Rattle.c_calls.specs.CallCodes.{called_state, stored_answer, ends_alone, ends_state};
ghost use Rattle.c_calls.specs.CallKinds.{of_two, of_one, other_call};
ghost use Rattle.c_calls.specs.CallCodes.{stored_integral, coordinate, coordinates, point_fits};

use model::{Answer, Bounds, Integral, Model};
use model_types::Key;

// The answer to a call that is not one: a slice is too short, or no call has this code.
pub const MISUSED: u8 = 255;

// The ends of an answer, and the quotient and the remainder.
const ENDS: usize = 4;

// The coordinates of a point.
const COORDINATES: usize = model_types::MOST_VARS as usize;

// The codes of calls that answer with a model are those of a sheet's steps. Code 9, the quotient, is none of them: it
// takes four models. (Codes are numbers and no enum: C hands them over, any byte may come, and what is none of these is
// refused.)
const CONSTANT: u8 = 1;

const VARIABLE: u8 = 2;

pub const NEGATE: u8 = 3;

pub const ADD: u8 = 4;

pub const SUBTRACT: u8 = 5;

pub const MULTIPLY: u8 = 6;

pub const SWEEP: u8 = 8;

const ANTIDERIVATIVE: u8 = 10;

// The codes of calls that answer with two ends, which no step does.
pub const RANGE: u8 = 1;

pub const INTEGRAL: u8 = 2;

const EVALUATE: u8 = 3;

// Whether a code names a call of two models that goes from slices to slices: add, subtract, multiply.
pub fn of_two(code: u8) -> bool
    ensures { result ≡ of_two code }
{
    ADD <= code && code <= MULTIPLY
}

// Whether it names one of one model: negate, sweep, antiderivative.
pub fn of_one(code: u8) -> bool
    ensures { result ≡ of_one code }
{
    code == NEGATE || code == SWEEP || code == ANTIDERIVATIVE
}

// Any other call that answers with a model, substitute for any code that constant and variable do not have. The
// constructors take the n of the first model, which is handed over beside it: read here, it would have the compiler
// take the model apart and copy it.
pub fn other_call(code: u8, d: u8, i: u8, value: i64, n: u8, f: Model, g: Model) -> Answer
    requires { n ≡ f.n }
    ensures { result ≡ answer (other_call code d i value (view f) (view g)) }
{
    match code {
        CONSTANT => Model::constant(n, value),
        VARIABLE => Model::variable(n, i),
        _ => model::substitute(d, i, f, g),
    }
}

// Two ends with a quotient and a remainder of 0.
pub fn alone(b: Bounds) -> Integral
    ensures { result ≡ ends_alone b }
{
    let low = b.low;
    let high = b.high;
    let v = b.verdict;
    Integral {
        low: low,
        high: high,
        quotient: 0,
        remainder: 0,
        verdict: v,
    }
}

// Coordinate i, from 0, of a point that is handed over, 0 where there is none.
pub fn coordinate(point: &[i64], i: usize) -> i64
    ensures { result ≡ coordinate point.now i }
{
    if i < point.len() {
        return point[i];
    }
    0
}

// All eight of them.
pub fn coordinates(point: &[i64]) -> [i64; model_types::MOST_VARS as usize]
    ensures { result ≡ coordinates point.now }
{
    let x1 = coordinate(point, 0);
    let x2 = coordinate(point, 1);
    let x3 = coordinate(point, 2);
    let x4 = coordinate(point, 3);
    let x5 = coordinate(point, 4);
    let x6 = coordinate(point, 5);
    let x7 = coordinate(point, 6);
    let x8 = coordinate(point, 7);
    [x1, x2, x3, x4, x5, x6, x7, x8]
}

// Two ends around the value at a point, of a struct.
pub fn evaluated(xs: [i64; model_types::MOST_VARS as usize], f: Model) -> Integral
    ensures { result ≡ integral_answer (alone (call_evaluate xs (view f))) }
{
    alone(model::evaluate(f, xs))
}

// An answer goes into the slices; its number.
pub fn store_answer(
    a: Answer,
    keys: &mut [Key],
    coefficients: &mut [i64],
    numbers: &mut [u64],
) -> u8
    requires { (most_terms ≤ length keys.old) × (most_terms ≤ length coefficients.old)
        × (answer_numbers ≤ length numbers.old) }
    ensures { called_state result keys.new coefficients.new numbers.new
        ≡ stored_answer a keys.old coefficients.old numbers.old }
{
    let m = a.model;
    let v = a.verdict;
    model_slices::store_terms(m, keys, coefficients);
    model_slices::store_numbers(model_slices::verdict_place(v), m, numbers);
    model_slices::verdict_number(v)
}

// Whether a code names a call that answers with a model: 1 to 8, and 10.
fn call_known(code: u8) -> bool
    ensures { result ≡ call_known code }
{
    code == ANTIDERIVATIVE || (CONSTANT <= code && code <= SWEEP)
}

// Whether a call that answers with a model is one: its code is known and its slices are long enough.
pub fn call_fits(
    code: u8,
    count1: usize,
    keys1: usize,
    coefficients1: usize,
    count2: usize,
    keys2: usize,
    coefficients2: usize,
    room: bool,
) -> bool
    ensures { result ≡ call_fits code count1 keys1 coefficients1 count2 keys2 coefficients2 room }
{
    call_known(code)
        && model_slices::borrowed(count1, keys1, coefficients1)
        && model_slices::borrowed(count2, keys2, coefficients2)
        && room
}

// Whether a point is long enough. Only evaluate looks at it.
fn point_fits(code: u8, point: usize) -> bool
    ensures { result ≡ point_fits code point }
{
    code != EVALUATE || COORDINATES <= point
}

// Whether a call that answers with two ends is one.
pub fn ends_call_fits(
    code: u8,
    count: usize,
    keys: usize,
    coefficients: usize,
    point: usize,
    ends: usize,
) -> bool
    ensures { result ≡ ends_call_fits code count keys coefficients point ends }
{
    RANGE <= code
        && code <= EVALUATE
        && model_slices::borrowed(count, keys, coefficients)
        && point_fits(code, point)
        && ENDS <= ends
}

// Two ends, the quotient and the remainder go into a slice; the number of the refusal.
pub fn store_ends(b: Integral, ends: &mut [i64]) -> u8
    requires { (4 ≤ length ends.old) × (b.remainder < 2 ^ 63) }
    ensures { ends_state result ends.new ≡ stored_integral b ends.old }
{
    let low = b.low;
    let high = b.high;
    let quotient = b.quotient;
    let remainder = fixed::signed(b.remainder);
    ends[0] = low;
    ends[1] = high;
    ends[2] = quotient;
    ends[3] = remainder;
    let v = b.verdict;
    model_slices::verdict_number(v)
}
