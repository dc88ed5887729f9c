// The limits on every result: the span of what a sum or a product leaves is tested.
#![tactic(auto)]

ghost use Rattle.std.specs.Prelude.{◌≡◌, List, ℕ, ◌≤◌, leb, length};
ghost use Rattle.numbers.specs.Fixed.{span_limit};
ghost use Rattle.calculus.specs.Model.{span};
ghost use Rattle.calculus.specs.Refusal.{at_place};
ghost use Rattle.calculus.specs.Operations.{limited, widen};
ghost use Rattle.model_slices.specs.model_types.ModelStruct.{view, answer};
ghost use Rattle.model_slices.specs.HeldModels.{model_places, held, Room};
ghost use Rattle.model_limits.specs.Limits.{Packed, LeftIn};

use model_slices::model_types;
use model_slices::model_types::{Answer, Model, Refusal, Refused, Verdict};

// What is left of a model whose terms lie in two slices, or the refusal.
#[derive(Clone, Copy)]
pub struct Left {
    pub count: usize,
    pub radius: u64,
    pub verdict: Verdict,
}

// Whether the span of a model is within the limit. It is summed without wrapping.
pub fn within(count: usize, radius: u64, coefficients: &[i64]) -> bool
    requires { (count ≤ model_places) × (length coefficients.now ≡ model_places) }
    ensures { (n : ℕ) (ks : List ℕ) → Room ks coefficients.now
        → result ≡ leb (span (view (held n count radius ks coefficients.now))) span_limit }
{
    let mut span = radius;
    for j in 0..count {
        let c = coefficients[j];
        span = fixed::capped_sum(span, fixed::magnitude(c));
    }
    fixed::within_span(span)
}

// The end of every sum and product: the model, unless its span is above the limit. More than 64 terms do not get here:
// a struct has no place for them, so they are refused before.
pub fn limited(m: Model) -> Answer
    requires { Packed m }
    ensures { result ≡ answer (at_place 0 (limited (view m))) }
{
    if within(m.count, m.radius, &m.coefficients) {
        return Answer {
            model: m,
            verdict: Ok(()),
        };
    }
    model_types::refuse(Refusal::OverSpan, 0)
}

// The same of a model in slices: the terms that it holds stay where they are.
pub fn limited_slices(count: usize, radius: u64, coefficients: &[i64]) -> Left
    requires { (count ≤ model_places) × (length coefficients.now ≡ model_places) }
    ensures { (n : ℕ) (ks : List ℕ) → Room ks coefficients.now
        → Packed (held n count radius ks coefficients.now)
        → LeftIn n result ks coefficients.now
        (answer (at_place 0 (limited (view (held n count radius ks coefficients.now))))) }
{
    if within(count, radius, coefficients) {
        return Left {
            count,
            radius,
            verdict: Ok(()),
        };
    }
    Left {
        count: 0,
        radius: 0,
        verdict: Err(Refused(Refusal::OverSpan, 0)),
    }
}

// The radius e added: the last addition of a substitution. It takes every e, since a sum that the cap cuts is refused
// as the whole sum is.
pub fn widened(m: Model, e: u64) -> Answer
    requires { Packed m }
    ensures { result ≡ answer (at_place 0 (widen e (view m))) }
{
    limited(Model {
        radius: fixed::capped_sum(m.radius, e),
        ..m
    })
}
