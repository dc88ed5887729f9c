// The product with a coordinate in Horner's rule, on models that lie in slices of 64 places, and the copy of what is
// left. After the terms that a count names any numbers may stand.
#![tactic(auto)]

ghost use Rattle.std.specs.Prelude.{◌≡◌, ℕ, ◌≤◌};
ghost use Rattle.model_types.specs.ModelStruct.{view, pack};
ghost use Rattle.model_slices.specs.HeldModels.{model_places, held, Room};
ghost use Rattle.model_scaling.specs.Scaling.{scaled_pass};
ghost use Rattle.model_horner.specs.Held.{ScaleOf};

use model_types::Key;

// The terms of a product with a constant in two slices, and what they leave.
#[derive(Clone, Copy)]
pub struct Passed {
    pub count: usize,
    pub error: u64,
}

// A model times the constant x goes into two slices: its terms, and E.
pub fn scaled(
    x: i64,
    total: usize,
    radius: u64,
    keys: &[Key],
    coefficients: &[i64],
    stored: &mut [Key],
    out: &mut [i64],
) -> Passed
    requires scale_of { ScaleOf x total radius keys.now coefficients.now }
    requires room { Room stored.old out.old }
    ensures { (w : ScaleOf x total radius keys.now coefficients.now)
        → held w.vars result.count result.error stored.new out.new
        ≡ pack (scaled_pass x (view (held w.vars total radius keys.now coefficients.now))) }
{
    let mut count = 0;
    let mut error = fixed::magnitude(x) * radius;
    for j in 0..total {
        let key = keys[j];
        let c = coefficients[j];
        let new = model_scaling::scaled_coefficient(x, c);
        error += model_scaling::scaled_residual(x, c);
        if new != 0 {
            stored[count] = key;
            out[count] = new;
            count += 1;
        }
    }
    Passed { count, error }
}

// The terms that a count names go from two slices into two others.
pub fn copied(count: usize, keys: &[Key], coefficients: &[i64], stored: &mut [Key], out: &mut [i64])
    requires count_le_model_places { (count ≤ model_places) × Room keys.now coefficients.now }
    requires room { Room stored.old out.old }
    ensures { (n radius : ℕ) → held n count radius stored.new out.new
        ≡ held n count radius keys.now coefficients.now }
{
    model_slices::copy_keys(count, keys, stored);
    model_slices::copy_coefficients(count, coefficients, out);
}
