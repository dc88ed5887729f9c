// Curves that are delivered in doubles.
ghost use Rattle.std.specs.Prelude.{◌≡◌, length};
ghost use Rattle.model_slices.specs.HandedModels.{model_room};
ghost use Rattle.c_calls.specs.CallCodes.{called_state, called};
ghost use Rattle.c_doubles.specs.HandedDoubles.{handed_doubles};

use model_types::Key;

// The model of c0 + c1 x + c2 x² with its radius: the refusal's number, 0 without one, or MISUSED. The answer's 64 keys
// and coefficients go into two slices, the refusal's place, n, the count and the radius into the third.
#[unsafe(no_mangle)]
pub extern "C" fn hechroung_raw_from_doubles(
    c0: f64,
    c1: f64,
    c2: f64,
    radius: f64,
    keys: &mut [Key],
    coefficients: &mut [i64],
    numbers: &mut [u64],
) -> u8
    ensures { called_state result keys.new coefficients.new numbers.new
        ≡ called
        (model_room (length keys.old) (length coefficients.old) (length numbers.old))
        (handed_doubles c0 c1 c2 radius)
        keys.old coefficients.old numbers.old }
{
    c_doubles::from_doubles(c0, c1, c2, radius, keys, coefficients, numbers)
}
