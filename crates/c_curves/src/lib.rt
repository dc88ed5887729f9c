// Calls on curves in Chebyshev polynomials that are handed over as slices, and their answers stored into slices.
#![tactic(auto)]

ghost use Rattle.std.specs.Prelude.{◌≡◌, ◌≤◌, length};
ghost use Rattle.chebyshev.specs.PowerRows.{places};
ghost use Rattle.model_slices.specs.HandedModels.{over};
ghost use Rattle.model_types.specs.CurveStruct.{view_curve, curve_answer};
ghost use Rattle.c_curves.specs.HandedCurves.{handed_curve, curve_call, curve_state};
ghost use Rattle.c_curves.specs.HandedCurves.{curve_numbers, stored_curve, curve_room, curve_fits};
ghost use Rattle.c_curves.specs.HandedCurves.{range_state, stored_bounds, range_fits};
ghost use Rattle.c_curves.specs.HandedCurves.{to_powers_fits, from_powers_fits};

use model_curves::{Bounds, Curve, CurveAnswer};

// The codes of calls that answer with a curve, those of a sheet's steps for models: numbers and no enum, as C hands
// them over.
const NEGATE: u8 = 3;

const ADD: u8 = 4;

const SUBTRACT: u8 = 5;

const MULTIPLY: u8 = 6;

// The numbers of a curve's answer: the refusal's place and the radius.
const NUMBERS: usize = 2;

// The ends of a range.
const ENDS: usize = 2;

// The curve that is handed over: the first sixteen coefficients.
pub fn handed_curve(coefficients: &[i64], radius: u64) -> Curve
    requires { places ≤ length coefficients.now }
    ensures { view_curve result ≡ handed_curve coefficients.now radius }
{
    let mut out = [0i64; model_types::CURVE_PLACES];
    // No copy_from_slice: it asks for memmove, which the library does not ask of a program.
    for i in 0..model_types::CURVE_PLACES {
        let c = coefficients[i];
        out[i] = c;
    }
    Curve {
        coefficients: out,
        radius: radius,
    }
}

// The call that a code names, the product for any that the others do not have.
pub fn curve_call(code: u8, f: Curve, g: Curve) -> CurveAnswer
    ensures { result ≡ curve_answer (curve_call code (view_curve f) (view_curve g)) }
{
    match code {
        NEGATE => model_curves::negate(f),
        ADD => model_curves::add(f, g),
        SUBTRACT => model_curves::subtract(f, g),
        _ => model_curves::multiply(f, g),
    }
}

// All sixteen coefficients of a curve go into a slice.
fn store_coefficients(c: Curve, coefficients: &mut [i64])
    requires { places ≤ length coefficients.old }
    ensures { coefficients.new ≡ over c.coefficients coefficients.old }
{
    // No copy_from_slice: it asks for memmove, which the library does not ask of a program.
    for i in 0..model_types::CURVE_PLACES {
        let z = c.coefficients[i];
        coefficients[i] = z;
    }
}

// An answer goes into the slices; its number.
pub fn store_curve(a: CurveAnswer, coefficients: &mut [i64], numbers: &mut [u64]) -> u8
    requires { (places ≤ length coefficients.old) × (curve_numbers ≤ length numbers.old) }
    ensures { curve_state result coefficients.new numbers.new
        ≡ stored_curve a coefficients.old numbers.old }
{
    let c = a.curve;
    let v = a.verdict;
    store_coefficients(c, coefficients);
    numbers[0] = model_slices::verdict_place(v) as u64;
    numbers[1] = c.radius;
    model_slices::verdict_number(v)
}

// Whether slices of these lengths have room for a curve's answer.
pub fn curve_room(coefficients: usize, numbers: usize) -> bool
    ensures { result ≡ curve_room coefficients numbers }
{
    model_types::CURVE_PLACES <= coefficients && NUMBERS <= numbers
}

// Whether a call that answers with a curve is one: its code is known, and its slices are long enough.
pub fn curve_fits(code: u8, coefficients1: usize, coefficients2: usize, room: bool) -> bool
    ensures { result ≡ curve_fits code coefficients1 coefficients2 room }
{
    NEGATE <= code
        && code <= MULTIPLY
        && model_types::CURVE_PLACES <= coefficients1
        && model_types::CURVE_PLACES <= coefficients2
        && room
}

// Whether a range is a call.
pub fn range_fits(coefficients: usize, ends: usize) -> bool
    ensures { result ≡ range_fits coefficients ends }
{
    model_types::CURVE_PLACES <= coefficients && ENDS <= ends
}

// Whether a conversion to powers is a call.
pub fn to_powers_fits(coefficients: usize, room: bool) -> bool
    ensures { result ≡ to_powers_fits coefficients room }
{
    model_types::CURVE_PLACES <= coefficients && room
}

// Whether a conversion back is a call.
pub fn from_powers_fits(count: usize, keys: usize, coefficients: usize, room: bool) -> bool
    ensures { result ≡ from_powers_fits count keys coefficients room }
{
    model_slices::borrowed(count, keys, coefficients) && room
}

// Two ends go into a slice; the number of the refusal.
pub fn store_bounds(b: Bounds, ends: &mut [i64]) -> u8
    requires { 2 ≤ length ends.old }
    ensures { range_state result ends.new ≡ stored_bounds b ends.old }
{
    let low = b.low;
    let high = b.high;
    ends[0] = low;
    ends[1] = high;
    let v = b.verdict;
    model_slices::verdict_number(v)
}
