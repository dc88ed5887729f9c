// The rules that a model must keep: the tests of one term, of a model that lies in slices, and of a struct, which lends
// its arrays.
#![tactic(auto)]

ghost use Rattle.std.specs.Prelude.{true, ◌≡◌, ◌≤◌, length};
ghost use Rattle.calculus.specs.Key.{key_width};
ghost use Rattle.calculus.specs.Model.{sound};
ghost use Rattle.model_types.specs.ModelStruct.{view, term_sound};
ghost use Rattle.model_slices.specs.HandedModels.{handed, borrowed};

use model_keys::Key;
use model_types::{MOST_TERMS, Model};

// Whether a term may stand in a model where keys before it are below `least`.
fn term_sound(n: u8, d: u8, least: u64, key: Key, coefficient: i64) -> bool
    requires { (1 ≤ n) × (n ≤ key_width) }
    ensures { result ≡ term_sound n d least key coefficient }
{
    coefficient != 0
        && least <= key as u64
        && model_keys::key_fits(n, key)
        && model_keys::degree(key) <= d as u32
}

// Whether slices hold a model by the rules, with degrees up to d. The span is summed without wrapping. (Not inlined: a
// caller that answers an Option, as sheet_walk::record_at, has its loop set a second register for each term.)
#[inline(never)]
pub fn sound_slices(
    n: u8,
    count: usize,
    radius: u64,
    keys: &[Key],
    coefficients: &[i64],
    d: u8,
) -> bool
    requires { borrowed count (length keys.now) (length coefficients.now) ≡ true }
    ensures { result ≡ sound d (view (handed n count radius keys.now coefficients.now)) }
{
    if !model_types::vars_sound(n) {
        return false;
    }
    if MOST_TERMS < count {
        return false;
    }
    let mut span = radius;
    let mut least: u64 = 0;
    for i in 0..count {
        let k = keys[i];
        let c = coefficients[i];
        if !term_sound(n, d, least, k, c) {
            return false;
        }
        span = fixed::capped_sum(span, fixed::magnitude(c));
        least = k as u64 + 1;
    }
    fixed::within_span(span)
}

// Whether a struct holds a model by the rules, with degrees up to d.
pub fn sound(m: Model, d: u8) -> bool
    ensures { result ≡ sound d (view m) }
{
    sound_slices(m.n, m.count, m.radius, &m.keys, &m.coefficients, d)
}
