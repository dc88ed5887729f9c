// Calls on curves in Chebyshev polynomials, whose code is a number, as C hands it over, and their conversion to and
// from powers.
ghost use Rattle.std.specs.Prelude.{◌≡◌, length};
ghost use Rattle.chebyshev.specs.CurveCalls.{call_range, call_to_powers, call_from_powers};
ghost use Rattle.model_types.specs.ModelStruct.{view};
ghost use Rattle.model_slices.specs.HandedModels.{handed, model_room};
ghost use Rattle.c_calls.specs.CallCodes.{called_state, called};
ghost use Rattle.c_curves.specs.HandedCurves.{handed_curve, curve_call, curve_room, curve_fits};
ghost use Rattle.c_curves.specs.HandedCurves.{curve_state, called_curve};
ghost use Rattle.c_curves.specs.HandedCurves.{range_fits, range_state, called_range};
ghost use Rattle.c_curves.specs.HandedCurves.{to_powers_fits, from_powers_fits};

use model_types::Key;

// A call that answers with a curve: the refusal's number, 0 without one, or MISUSED. Sixteen coefficients go into a
// slice, the refusal's place and the radius into another one.
#[unsafe(no_mangle)]
pub extern "C" fn hechroung_raw_curve(
    code: u8,
    coefficients1: &[i64],
    radius1: u64,
    coefficients2: &[i64],
    radius2: u64,
    coefficients: &mut [i64],
    numbers: &mut [u64],
) -> u8
    ensures { curve_state result coefficients.new numbers.new
        ≡ called_curve
        (curve_fits code (length coefficients1.now) (length coefficients2.now)
        (curve_room (length coefficients.old) (length numbers.old)))
        (curve_call code (handed_curve coefficients1.now radius1)
        (handed_curve coefficients2.now radius2))
        coefficients.old numbers.old }
{
    c_curve_calls::curve(
        code,
        coefficients1,
        radius1,
        coefficients2,
        radius2,
        coefficients,
        numbers,
    )
}

// The range of a curve: the refusal's number, 0 without one, or MISUSED. Both ends go into the slice. The place of
// every refusal is 0.
#[unsafe(no_mangle)]
pub extern "C" fn hechroung_raw_range_of_curve(
    coefficients: &[i64],
    radius: u64,
    ends: &mut [i64],
) -> u8
    ensures { range_state result ends.new
        ≡ called_range (range_fits (length coefficients.now) (length ends.old))
        (call_range (handed_curve coefficients.now radius)) ends.old }
{
    c_curve_calls::range_of_curve(coefficients, radius, ends)
}

// A curve in powers: the refusal's number, 0 without one, or MISUSED. The model goes into three slices as the answer of
// a single call does.
#[unsafe(no_mangle)]
pub extern "C" fn hechroung_raw_curve_to_powers(
    coefficients: &[i64],
    radius: u64,
    keys: &mut [Key],
    outcoefficients: &mut [i64],
    numbers: &mut [u64],
) -> u8
    ensures { called_state result keys.new outcoefficients.new numbers.new
        ≡ called
        (to_powers_fits (length coefficients.now)
        (model_room (length keys.old) (length outcoefficients.old)
        (length numbers.old)))
        (call_to_powers (handed_curve coefficients.now radius))
        keys.old outcoefficients.old numbers.old }
{
    c_curve_calls::to_powers(coefficients, radius, keys, outcoefficients, numbers)
}

// A model in powers of one variable as a curve: the refusal's number, 0 without one, or MISUSED. The curve goes into
// two slices as the answer of a call on curves does.
#[unsafe(no_mangle)]
pub extern "C" fn hechroung_raw_curve_from_powers(
    n: u8,
    count: usize,
    radius: u64,
    keys: &[Key],
    coefficients: &[i64],
    outcoefficients: &mut [i64],
    outnumbers: &mut [u64],
) -> u8
    ensures { curve_state result outcoefficients.new outnumbers.new
        ≡ called_curve
        (from_powers_fits count (length keys.now) (length coefficients.now)
        (curve_room (length outcoefficients.old) (length outnumbers.old)))
        (call_from_powers (view (handed n count radius keys.now coefficients.now)))
        outcoefficients.old outnumbers.old }
{
    c_curve_calls::from_powers(
        n,
        count,
        radius,
        keys,
        coefficients,
        outcoefficients,
        outnumbers,
    )
}
