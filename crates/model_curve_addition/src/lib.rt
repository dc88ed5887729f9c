// Curves in Chebyshev polynomials, held in memory.
#![tactic(auto)]

ghost use Rattle.std.specs.Prelude.{◌≡◌, T};
ghost use Rattle.calculus.specs.Refusal.{stopped, at_place};
ghost use Rattle.chebyshev.specs.Curve.{sound, span};
ghost use Rattle.chebyshev.specs.CurveOperations as Op;
ghost use Rattle.chebyshev.specs.CurveOperations.{limited_curve, added};
ghost use Rattle.chebyshev.specs.CurveCalls.{call_negate, call_add, call_subtract};
ghost use Rattle.model_types.specs.ModelStruct.{cause};
ghost use Rattle.model_types.specs.CurveStruct.{view_curve, pack_curve, curve_answer};

use model_types::{Curve, CurveAnswer, Refusal, Refused};

// The answer of a refused call.
pub fn refuse_curve(refusal: Refusal, place: usize) -> CurveAnswer
    ensures { result ≡ curve_answer (stopped (cause refusal) place) }
{
    let zero = Curve {
        coefficients: [0; 16],
        radius: 0,
    };
    CurveAnswer {
        curve: zero,
        verdict: Err(Refused(refusal, place)),
    }
}

// Whether the span is within the limit. It is summed without wrapping.
pub fn curve_sound(c: Curve) -> bool
    ensures { result ≡ sound (view_curve c) }
{
    let mut total = c.radius;
    for z in &c.coefficients {
        total = fixed::capped_sum(total, fixed::magnitude(*z));
    }
    fixed::within_span(total)
}

// The end of every operation: the curve, unless its span is above the limit.
pub fn limited_curve(c: Curve) -> CurveAnswer
    ensures { result ≡ curve_answer (at_place 0 (limited_curve (view_curve c))) }
{
    if curve_sound(c) {
        return CurveAnswer {
            curve: c,
            verdict: Ok(()),
        };
    }
    refuse_curve(Refusal::OverSpan, 0)
}

// All signs turned.
fn turned_curve(c: Curve) -> Curve
    requires { T (sound (view_curve c)) }
    ensures { result ≡ pack_curve (Op.negate (view_curve c)) }
{
    let mut out = [0; 16];
    for i in 0..16 {
        let z = fixed::negated(c.coefficients[i]);
        out[i] = z;
    }
    Curve {
        coefficients: out,
        radius: c.radius,
    }
}

// Coefficients and radii added.
fn added_curves(f: Curve, g: Curve) -> Curve
    requires t { T (sound (view_curve f)) }
    requires t_2 { T (sound (view_curve g)) }
    ensures { result ≡ pack_curve (added (view_curve f) (view_curve g)) }
{
    let mut out = [0; 16];
    for i in 0..16 {
        let z = fixed::sum(f.coefficients[i], g.coefficients[i]);
        out[i] = z;
    }
    Curve {
        coefficients: out,
        radius: f.radius + g.radius,
    }
}

// ---- the calls
// 5
pub fn negate(c: Curve) -> CurveAnswer
    ensures { result ≡ curve_answer (call_negate (view_curve c)) }
{
    if !curve_sound(c) {
        return refuse_curve(Refusal::BadModel, 0);
    }
    CurveAnswer {
        curve: turned_curve(c),
        verdict: Ok(()),
    }
}

// 5, 5, 7
pub fn add(f: Curve, g: Curve) -> CurveAnswer
    ensures { result ≡ curve_answer (call_add (view_curve f) (view_curve g)) }
{
    if !curve_sound(f) {
        return refuse_curve(Refusal::BadModel, 0);
    }
    if !curve_sound(g) {
        return refuse_curve(Refusal::BadModel, 1);
    }
    limited_curve(added_curves(f, g))
}

// 5, 5, 7
pub fn subtract(f: Curve, g: Curve) -> CurveAnswer
    ensures { result ≡ curve_answer (call_subtract (view_curve f) (view_curve g)) }
{
    if !curve_sound(f) {
        return refuse_curve(Refusal::BadModel, 0);
    }
    if !curve_sound(g) {
        return refuse_curve(Refusal::BadModel, 1);
    }
    limited_curve(added_curves(f, turned_curve(g)))
}
