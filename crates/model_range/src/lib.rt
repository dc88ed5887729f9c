// The range of a model over the box.
#![tactic(auto)]

ghost use Rattle.std.specs.Prelude.{◌≡◌, T};
ghost use Rattle.calculus.specs.Model.{most_degree, sound};
ghost use Rattle.calculus.specs.Refusal.{done};
ghost use Rattle.calculus.specs.Operations.{range, range_in_box};
ghost use Rattle.model_types.specs.ModelStruct.{view, bounds};
ghost use Rattle.model_slices.specs.HeldModels.{held};
ghost use Rattle.model_places.specs.LeftModels.{Lies};
ghost use Rattle.model_range.specs.KeyRange.{key_steady, even_fall, even_rise, key_fall, key_rise};

use model_types::{Bounds, Key, Model};

// What a term counts in the constant part.
fn steady(key: Key, coefficient: i64) -> i64
    ensures { result ≡ key_steady key coefficient }
{
    if key == 0 { coefficient } else { 0 }
}

// How far an even term reaches below 0: its size where the coefficient is below 0.
fn under(coefficient: i64) -> u64
    ensures { result ≡ even_fall coefficient }
{
    if 0 <= coefficient {
        0
    } else {
        fixed::magnitude(coefficient)
    }
}

// How far it reaches above 0.
fn over(coefficient: i64) -> u64
    ensures { result ≡ even_rise coefficient }
{
    if coefficient <= 0 {
        0
    } else {
        fixed::magnitude(coefficient)
    }
}

// How far any term other than the constant reaches below 0. The sign is asked for in a function of its own: tested
// here, before the parity, it was compiled to a jump that no processor can foresee, and the walk took several times as
// long.
fn fall(key: Key, coefficient: i64) -> u64
    ensures { result ≡ key_fall key coefficient }
{
    if key == 0 {
        0
    } else if model_keys::all_even(key) {
        under(coefficient)
    } else {
        fixed::magnitude(coefficient)
    }
}

// How far it reaches above 0.
fn rise(key: Key, coefficient: i64) -> u64
    ensures { result ≡ key_rise key coefficient }
{
    if key == 0 {
        0
    } else if model_keys::all_even(key) {
        over(coefficient)
    } else {
        fixed::magnitude(coefficient)
    }
}

// The range of a model in slices.
pub fn range_slices(count: usize, radius: u64, keys: &[Key], coefficients: &[i64]) -> Bounds
    requires { Lies count radius keys.now coefficients.now }
    ensures { (w : Lies count radius keys.now coefficients.now)
        → result ≡ bounds (done (range
        (view (held w.vars count radius keys.now coefficients.now)))) }
{
    let mut middle: i64 = 0;
    let mut below: u64 = 0;
    let mut above: u64 = 0;
    for i in 0..count {
        let key = keys[i];
        let c = coefficients[i];
        middle = fixed::sum(middle, steady(key, c));
        below += fall(key, c);
        above += rise(key, c);
    }
    let down = fixed::signed(below + radius);
    let up = fixed::signed(above + radius);
    Bounds {
        low: fixed::difference(middle, down),
        high: fixed::sum(middle, up),
        verdict: Ok(()),
    }
}

// The range.
pub fn range_of(m: Model) -> Bounds
    requires { T (sound most_degree (view m)) }
    ensures { result ≡ bounds (done (range (view m))) }
{
    range_slices(m.count, m.radius, &m.keys, &m.coefficients)
}

// Whether the range lies from -U to U.
pub fn in_box(m: Model) -> bool
    requires { T (sound most_degree (view m)) }
    ensures { result ≡ range_in_box (view m) }
{
    let ends = range_of(m);
    let unit = fixed::unit();
    fixed::negated(unit) <= ends.low && ends.high <= unit
}
