// The range of a curve.
#![tactic(auto)]

ghost use Rattle.std.specs.Prelude.{◌≡◌, T};
ghost use Rattle.chebyshev.specs.Curve.{sound};
ghost use Rattle.chebyshev.specs.CurveOperations.{variation};
ghost use Rattle.chebyshev.specs.CurveCalls.{call_range};
ghost use Rattle.model_types.specs.ModelStruct.{bounds};
ghost use Rattle.model_types.specs.CurveStruct.{view_curve};

use model_types::{Bounds, Curve, Refusal};

// The sum of all |c| but that of the constant, and e.
pub fn variation_of(c: Curve) -> u64
    requires { T (sound (view_curve c)) }
    ensures { result ≡ variation (view_curve c) }
{
    let mut total: u64 = 0;
    for i in (1..16).rev() {
        total += fixed::magnitude(c.coefficients[i]);
    }
    total + c.radius
}

// 5
pub fn range(c: Curve) -> Bounds
    ensures { result ≡ bounds (call_range (view_curve c)) }
{
    if !model_curve_addition::curve_sound(c) {
        return model_types::refuse_bounds(Refusal::BadModel, 0);
    }
    let middle = c.coefficients[0];
    let around = fixed::signed(variation_of(c));
    Bounds {
        low: fixed::difference(middle, around),
        high: fixed::sum(middle, around),
        verdict: Ok(()),
    }
}
