// The single calls. Their code is a number, as C hands it over.
ghost use Rattle.std.specs.Prelude.{◌≡◌, length};
ghost use Rattle.model_types.specs.ModelStruct.{view};
ghost use Rattle.model_slices.specs.HandedModels.{handed, model_room};
ghost use Rattle.c_calls.specs.CallCodes.{model_call, ends_call, call_fits, ends_call_fits};
ghost use Rattle.c_calls.specs.CallCodes.{called_state, called, ends_state, called_ends, coordinates};

use model_types::Key;

// A call that answers with a model: the refusal's number, 0 without one, or MISUSED. The answer's 64 keys and
// coefficients go into two slices, the refusal's place, n, the count and the radius into the third.
#[unsafe(no_mangle)]
pub extern "C" fn hechroung_raw_call(
    code: u8,
    d: u8,
    i: u8,
    value: i64,
    n1: u8,
    count1: usize,
    radius1: u64,
    keys1: &[Key],
    coefficients1: &[i64],
    n2: u8,
    count2: usize,
    radius2: u64,
    keys2: &[Key],
    coefficients2: &[i64],
    keys: &mut [Key],
    coefficients: &mut [i64],
    numbers: &mut [u64],
) -> u8
    ensures { called_state result keys.new coefficients.new numbers.new
        ≡ called
        (call_fits code count1 (length keys1.now) (length coefficients1.now)
        count2 (length keys2.now) (length coefficients2.now)
        (model_room (length keys.old) (length coefficients.old) (length numbers.old)))
        (model_call code d i value
        (view (handed n1 count1 radius1 keys1.now coefficients1.now))
        (view (handed n2 count2 radius2 keys2.now coefficients2.now)))
        keys.old coefficients.old numbers.old }
{
    c_dispatch::call(
        code,
        d,
        i,
        value,
        n1,
        count1,
        radius1,
        keys1,
        coefficients1,
        n2,
        count2,
        radius2,
        keys2,
        coefficients2,
        keys,
        coefficients,
        numbers,
    )
}

// A call that answers with two ends: the refusal's number, 0 without one, or MISUSED. The ends, the quotient and the
// remainder go into the slice; the last two are 0 but for an integral. Evaluate takes the first eight coordinates of
// the point, the others do not look at it. The place of every refusal is 0.
#[unsafe(no_mangle)]
pub extern "C" fn hechroung_raw_ends(
    code: u8,
    n: u8,
    count: usize,
    radius: u64,
    keys: &[Key],
    coefficients: &[i64],
    point: &[i64],
    ends: &mut [i64],
) -> u8
    ensures { ends_state result ends.new
        ≡ called_ends
        (ends_call_fits code count (length keys.now) (length coefficients.now)
        (length point.now) (length ends.old))
        (ends_call code (coordinates point.now)
        (view (handed n count radius keys.now coefficients.now)))
        ends.old }
{
    c_dispatch::ends(code, n, count, radius, keys, coefficients, point, ends)
}
