// The antiderivative of a model in one of its variables.
#![tactic(auto)]

ghost use Rattle.std.specs.Prelude.{◌≡◌, ◌+◌, ◌^◌, ◌<◌, nat_abs};
ghost use Rattle.calculus.specs.Refusal.{accepted, done};
ghost use Rattle.calculus.specs.Operations.{antiderivative, growth_rounding};
ghost use Rattle.calculus.specs.Shares.{antiderivative_shares};
ghost use Rattle.model_keys.specs.Keys.{Slot, key_exponent};
ghost use Rattle.model_types.specs.ModelStruct.{view, pack, answer};
ghost use Rattle.model_types.specs.SharesStruct.{accounted};
ghost use Rattle.model_slices.specs.HeldModels.{held};
ghost use Rattle.model_places.specs.LeftModels.{Zeros, left_answer};
ghost use Rattle.model_antiderivative.specs.Antiderivatives.{key_stays, key_coefficient, key_growth};
ghost use Rattle.model_antiderivative.specs.Antiderivatives.{key_rounding, Integrand, IntegrandIn};

use model_keys::Key;
use model_limits::Left;
use model_types::{Accounted, Answer, Model};

// k, by which a term is divided: the exponent of variable i after it has risen.
fn new_exponent(i: u8, key: Key) -> u64
    requires { Slot i }
    ensures { result ≡ key_exponent i key + 1 }
{
    model_keys::exponent_of(key, i) as u64 + 1
}

// Whether a term's new degree is at most d.
fn stays(d: u8, key: Key) -> bool
    ensures { result ≡ key_stays d key }
{
    model_keys::degree(key) < d as u32
}

// A term's new coefficient, 0 for one that is swept.
fn divided(d: u8, i: u8, key: Key, coefficient: i64) -> i64
    requires slot { Slot i }
    requires coefficient_bound { nat_abs coefficient < 2 ^ 63 }
    ensures { result ≡ key_coefficient d i key coefficient }
{
    if !stays(d, key) {
        return 0;
    }
    fixed::nearest_divided(coefficient, new_exponent(i, key))
}

// What a term adds to the radius: 1 where it stays and does not divide, all of it rounded up where it is swept.
fn growth(d: u8, i: u8, key: Key, coefficient: i64) -> u64
    requires { Slot i }
    ensures { result ≡ key_growth d i key coefficient }
{
    let size = fixed::magnitude(coefficient);
    let k = new_exponent(i, key);
    if !stays(d, key) {
        fixed::divided_up(size, k)
    } else if size % k != 0 {
        1
    } else {
        0
    }
}

// What a term adds by rounding alone: nothing where it is swept.
fn growth_by_rounding(d: u8, i: u8, key: Key, coefficient: i64) -> u64
    requires { Slot i }
    ensures { result ≡ key_rounding d i key coefficient }
{
    if !stays(d, key) {
        return 0;
    }
    growth(d, i, key, coefficient)
}

// How much of a model's growth is by rounding.
fn rounded(d: u8, i: u8, f: Model) -> u64
    requires { Integrand d i f }
    ensures { result ≡ growth_rounding d i (view f) }
{
    let total = f.count;
    let mut sum = 0;
    for j in 0..total {
        let key = f.keys[j];
        let c = f.coefficients[j];
        sum += growth_by_rounding(d, i, key, c);
    }
    sum
}

// The antiderivative in variable i of a sound model, with order d: one pass over the terms, which stay in order and go
// into two arrays of zeros.
pub fn integrated_slices(
    d: u8,
    i: u8,
    total: usize,
    start: u64,
    keys: &[Key],
    coefficients: &[i64],
    stored: &mut [Key],
    out: &mut [i64],
) -> Left
    requires integrand_in { IntegrandIn d i total start keys.now coefficients.now }
    requires zeros { Zeros stored.old out.old }
    ensures { (w : IntegrandIn d i total start keys.now coefficients.now)
        → left_answer w.vars result stored.new out.new
        ≡ answer (done (antiderivative d i
        (view (held w.vars total start keys.now coefficients.now)))) }
{
    let mut count = 0;
    let mut radius = start;
    for j in 0..total {
        let key = keys[j];
        let c = coefficients[j];
        let new = divided(d, i, key, c);
        radius += growth(d, i, key, c);
        if new != 0 {
            stored[count] = model_keys::raised(key, i);
            out[count] = new;
            count += 1;
        }
    }
    Left {
        count,
        radius,
        verdict: Ok(()),
    }
}

// The same of a struct.
pub fn integrated(d: u8, i: u8, f: Model) -> Model
    requires { Integrand d i f }
    ensures { result ≡ pack (antiderivative d i (view f)) }
{
    let mut keys: [Key; model_types::MOST_TERMS] = [0; model_types::MOST_TERMS];
    let mut coefficients = [0i64; model_types::MOST_TERMS];
    let l = integrated_slices(
        d,
        i,
        f.count,
        f.radius,
        &f.keys,
        &f.coefficients,
        &mut keys,
        &mut coefficients,
    );
    Model {
        n: f.n,
        count: l.count,
        radius: l.radius,
        keys,
        coefficients,
    }
}

// The antiderivative with the shares of its radius: what it grew by is by rounding or swept.
pub fn integrated_accounted(d: u8, i: u8, f: Model) -> Accounted
    requires { Integrand d i f }
    ensures { result ≡ accounted (accepted (antiderivative d i (view f)))
        (λ m. antiderivative_shares d i (view f)) }
{
    let model = integrated(d, i, f);
    let rounding = rounded(d, i, f);
    let grown = model.radius - f.radius;
    let swept = grown - rounding;
    let shares = model_types::grown(f.radius, rounding, swept);
    let answer = Answer {
        model,
        verdict: Ok(()),
    };
    Accounted { answer, shares }
}
