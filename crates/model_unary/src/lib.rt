// Operations on one model: the signs turned, and small terms swept into the radius.
#![tactic(auto)]

ghost use Rattle.std.specs.Prelude.{◌≡◌, not, ◌&&◌, map, ℕ, ◌^◌, ◌≤◌, ◌<◌, T, eqb, leb, pos, nat_abs, neg_ℤ, length, take, get_or};
ghost use Rattle.calculus.specs.Model.{most_degree, sound};
ghost use Rattle.calculus.specs.Refusal.{accepted, done};
ghost use Rattle.calculus.specs.Operations.{negate, sweep};
ghost use Rattle.calculus.specs.Shares.{sweep_shares};
ghost use Rattle.model_types.specs.ModelStruct.{view, pack, answer};
ghost use Rattle.model_types.specs.SharesStruct.{accounted};
ghost use Rattle.model_slices.specs.HandedModels.{over};
ghost use Rattle.model_slices.specs.HeldModels.{held};
ghost use Rattle.model_places.specs.LeftModels.{Lies, Zeros, left_answer};

use model_places::model_limits::Left;
use model_types::{Accounted, Answer, Key, MOST_TERMS, Model};

// Whether a term is swept: not the constant one, and not above the threshold.
fn is_small(threshold: u64, key: Key, size: u64) -> bool
    ensures { result ≡ (not (eqb key 0) && leb size threshold) }
{
    key != 0 && size <= threshold
}

// ---- signs turned
// The first coefficients of a slice go into another one with their signs turned.
pub fn turn(count: usize, coefficients: &[i64], out: &mut [i64])
    requires count_in_bounds { (count ≤ length coefficients.now) × (count ≤ length out.old) }
    requires by_index { (i : ℕ) → i < count → nat_abs (get_or coefficients.now i (pos 0)) < 2 ^ 63 }
    ensures { out.new
        ≡ over (map neg_ℤ (take count coefficients.now)) out.old }
{
    for i in 0..count {
        let old = coefficients[i];
        out[i] = fixed::negated(old);
    }
}

// All signs turned: the terms go into two arrays of zeros.
pub fn negated_slices(
    count: usize,
    radius: u64,
    keys: &[Key],
    coefficients: &[i64],
    stored: &mut [Key],
    out: &mut [i64],
) -> Left
    requires lies { Lies count radius keys.now coefficients.now }
    requires zeros { Zeros stored.old out.old }
    ensures { (w : Lies count radius keys.now coefficients.now)
        → left_answer w.vars result stored.new out.new
        ≡ answer (done (negate
        (view (held w.vars count radius keys.now coefficients.now)))) }
{
    model_slices::copy_keys(count, keys, stored);
    turn(count, coefficients, out);
    Left {
        count,
        radius,
        verdict: Ok(()),
    }
}

// All signs turned.
pub fn negated(m: Model) -> Model
    requires { T (sound most_degree (view m)) }
    ensures { result ≡ pack (negate (view m)) }
{
    let mut keys: [Key; MOST_TERMS] = [0; MOST_TERMS];
    let mut turned = [0i64; MOST_TERMS];
    let l = negated_slices(
        m.count,
        m.radius,
        &m.keys,
        &m.coefficients,
        &mut keys,
        &mut turned,
    );
    Model {
        n: m.n,
        count: l.count,
        radius: l.radius,
        keys,
        coefficients: turned,
    }
}

// ---- small terms swept
// Terms other than the constant one with coefficients up to the threshold dropped, their size added to the radius: the
// others go into two arrays of zeros.
pub fn swept_slices(
    threshold: u64,
    total: usize,
    start: u64,
    keys: &[Key],
    coefficients: &[i64],
    stored: &mut [Key],
    out: &mut [i64],
) -> Left
    requires lies { Lies total start keys.now coefficients.now }
    requires zeros { Zeros stored.old out.old }
    ensures { (w : Lies total start keys.now coefficients.now)
        → left_answer w.vars result stored.new out.new
        ≡ answer (done (sweep threshold
        (view (held w.vars total start keys.now coefficients.now)))) }
{
    let mut count = 0;
    let mut radius = start;
    for i in 0..total {
        let key = keys[i];
        let c = coefficients[i];
        let size = fixed::magnitude(c);
        if is_small(threshold, key, size) {
            radius += size;
        } else {
            stored[count] = key;
            out[count] = c;
            count += 1;
        }
    }
    Left {
        count,
        radius,
        verdict: Ok(()),
    }
}

// The same of a struct.
pub fn swept(m: Model, threshold: u64) -> Model
    requires { T (sound most_degree (view m)) }
    ensures { result ≡ pack (sweep threshold (view m)) }
{
    let mut keys: [Key; MOST_TERMS] = [0; MOST_TERMS];
    let mut coefficients = [0i64; MOST_TERMS];
    let l = swept_slices(
        threshold,
        m.count,
        m.radius,
        &m.keys,
        &m.coefficients,
        &mut keys,
        &mut coefficients,
    );
    Model {
        n: m.n,
        count: l.count,
        radius: l.radius,
        keys,
        coefficients,
    }
}

// A sweep with the shares of its radius: the old one is carried, and what it grew by is swept.
pub fn swept_accounted(m: Model, threshold: u64) -> Accounted
    requires { T (sound most_degree (view m)) }
    ensures { result ≡ accounted (accepted (sweep threshold (view m))) (λ s. sweep_shares threshold (view m)) }
{
    let model = swept(m, threshold);
    let dropped = model.radius - m.radius;
    let shares = model_types::grown(m.radius, 0, dropped);
    let answer = Answer {
        model,
        verdict: Ok(()),
    };
    Accounted { answer, shares }
}
