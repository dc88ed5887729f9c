// What a step answers besides an operation's own answer: a model that is not refused, and an input with zeros beyond
// its count.
#![tactic(auto)]

ghost use Rattle.std.specs.Prelude.{◌≡◌, T};
ghost use Rattle.calculus.specs.Model.{most_degree, sound};
ghost use Rattle.model_types.specs.ModelStruct.{view, pack};
ghost use Rattle.sheet_step_answers.specs.Answers.{accepted_answer};

use model_types::{Answer, Key, Model};

// A model that is not refused.
pub fn accepted(m: Model) -> Answer
    ensures { result ≡ accepted_answer m }
{
    Answer {
        model: m,
        verdict: Ok(()),
    }
}

// A model without what stood beyond its count: zeros stand there.
pub fn cleared(m: Model) -> Model
    requires { T (sound most_degree (view m)) }
    ensures { result ≡ pack (view m) }
{
    let count = m.count;
    let mut keys: [Key; model_types::MOST_TERMS] = [0; model_types::MOST_TERMS];
    let mut coefficients = [0i64; model_types::MOST_TERMS];
    model_slices::copy_keys(count, &m.keys, &mut keys);
    model_slices::copy_coefficients(count, &m.coefficients, &mut coefficients);
    Model {
        n: m.n,
        count: count,
        radius: m.radius,
        keys: keys,
        coefficients: coefficients,
    }
}
