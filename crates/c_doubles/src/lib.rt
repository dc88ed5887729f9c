// A curve in doubles that is handed over as four numbers.
#![tactic(auto)]

ghost use Rattle.std.specs.Prelude.{◌≡◌, length};
ghost use Rattle.model_types.specs.ModelStruct.{answer};
ghost use Rattle.c_doubles.specs.HandedDoubles.{handed_doubles};
ghost use Rattle.model_slices.specs.HandedModels.{model_room};
ghost use Rattle.c_calls.specs.CallCodes.{called_state, called};

use model_types::{Answer, Doubles, Key};

// The call with the struct of them.
pub fn handed_doubles(c0: f64, c1: f64, c2: f64, radius: f64) -> Answer
    ensures { result ≡ answer (handed_doubles c0 c1 c2 radius) }
{
    let d = Doubles {
        c0: c0,
        c1: c1,
        c2: c2,
        radius: radius,
    };
    model_doubles::from_doubles(d)
}

// The model of c0 + c1 x + c2 x² with its radius: the refusal's number, 0 without one, or MISUSED. The answer's 64 keys
// and coefficients go into two slices, the refusal's place, n, the count and the radius into the third.
pub fn from_doubles(
    c0: f64,
    c1: f64,
    c2: f64,
    radius: f64,
    keys: &mut [Key],
    coefficients: &mut [i64],
    numbers: &mut [u64],
) -> u8
    ensures { called_state result keys.new coefficients.new numbers.new
        ≡ called
        (model_room (length keys.old) (length coefficients.old) (length numbers.old))
        (handed_doubles c0 c1 c2 radius)
        keys.old coefficients.old numbers.old }
{
    if !model_slices::model_room(keys.len(), coefficients.len(), numbers.len()) {
        return c_calls::MISUSED;
    }
    let a = handed_doubles(c0, c1, c2, radius);
    c_calls::store_answer(a, keys, coefficients, numbers)
}
