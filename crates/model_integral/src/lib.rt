// The integral of a model over the box: of its polynomial part exactly, and two ends around it.
#![tactic(auto)]

ghost use Rattle.std.specs.Prelude.{◌≡◌, ◌*◌, ◌/◌, ◌^◌, ◌<◌, ◌≤◌, T, pos, nat_abs, ◌*ℤ◌};
ghost use Rattle.numbers.specs.Division.{floor, remainder};
ghost use Rattle.calculus.specs.Key.{key_width};
ghost use Rattle.calculus.specs.Model.{most_degree, sound};
ghost use Rattle.calculus.specs.Refusal.{done};
ghost use Rattle.calculus.specs.Operations.{common_denominator, integral_parts, one_if_any, whole_integral};
ghost use Rattle.calculus.specs.Operations.{integral_sum, term_by_term};
ghost use Rattle.model_keys.specs.Keys.{key_divisor};
ghost use Rattle.model_types.specs.ModelStruct.{view, bounds, integral_answer};
ghost use Rattle.model_slices.specs.HeldModels.{held};
ghost use Rattle.model_places.specs.SlicePlaces.{Places};
ghost use Rattle.model_integral.specs.Rounding.{rule};
ghost use Rattle.model_integral.specs.IntegralParts.{most_parts, exact_integral};
ghost use Rattle.model_integral.specs.IntegralTerms.{TermsIn};

use model_types::{Bounds, Integral, Key, Model};

// The common denominator: a multiple of the product of (exponent + 1) of every even term.
const DENOMINATOR: u64 = 212837625;

// It serves up to so many variables.
const MOST_EXACT: u8 = 4;

// 2^n, the volume of the box.
fn volume(n: u8) -> u64
    requires { (1 ≤ n) × (n ≤ key_width) }
    ensures { result ≡ 2 ^ n }
{
    1 << n
}

// ---- in up to four variables
// The integral of one term with even exponents, for a box of volume `scale`, in parts of the denominator.
fn parts(scale: u64, key: Key, coefficient: i64) -> i64
    requires { (scale ≤ 16) × (nat_abs coefficient * (16 * common_denominator) < 2 ^ 63) }
    ensures { result ≡ coefficient *ℤ pos (scale * (common_denominator / key_divisor key)) }
{
    let share = DENOMINATOR / model_keys::divisor(key);
    fixed::product(coefficient, fixed::signed(scale * share))
}

// The sum of the terms' integrals, in parts of the denominator: nothing is rounded.
fn integral_parts(n: u8, count: usize, keys: &[Key], coefficients: &[i64]) -> i64
    requires terms_in { TermsIn n count keys.now coefficients.now }
    requires n_bound { n ≤ 4 }
    ensures { (w : TermsIn n count keys.now coefficients.now)
        → result ≡ integral_parts
        (view (held n count w.radius keys.now coefficients.now)) }
{
    let scale = volume(n);
    let mut total: i64 = 0;
    for i in 0..count {
        let key = keys[i];
        let c = coefficients[i];
        if model_keys::all_even(key) {
            total = fixed::sum(total, parts(scale, key, c));
        }
    }
    total
}

// The parts above the quotient.
fn rest(total: i64, quotient: i64) -> u64
    requires { (nat_abs total ≤ most_parts) × (quotient ≡ floor total common_denominator) }
    ensures { result ≡ remainder total common_denominator }
{
    let whole = fixed::product(quotient, fixed::signed(DENOMINATOR));
    fixed::magnitude(fixed::difference(total, whole))
}

// 1 if there are parts above the quotient.
fn one_if_any(remainder: u64) -> u64
    ensures { result ≡ one_if_any remainder }
{
    if remainder == 0 { 0 } else { 1 }
}

// The quotient is rounded down, and the ends are 2^n times the radius around it.
fn exact(n: u8, count: usize, radius: u64, keys: &[Key], coefficients: &[i64]) -> Integral
    requires places { Places count keys.now coefficients.now }
    requires t { T (sound most_degree (view (held n count radius keys.now coefficients.now))) }
    requires n_bound { n ≤ 4 }
    ensures { result ≡ integral_answer (done (exact_integral
        (view (held n count radius keys.now coefficients.now)))) }
{
    let total = integral_parts(n, count, keys, coefficients);
    let quotient = fixed::floor_divided(total, DENOMINATOR);
    let remainder = rest(total, quotient);
    let around = fixed::signed(volume(n) * radius);
    let above = fixed::signed(one_if_any(remainder));
    let low = fixed::difference(quotient, around);
    let high = fixed::sum(fixed::sum(quotient, around), above);
    Integral {
        low,
        high,
        quotient,
        remainder,
        verdict: Ok(()),
    }
}

// ---- above, by the term-by-term rule
// A quotient, rounded up or down.
fn divided(up: bool, z: i64, d: u64) -> i64
    requires { (nat_abs z < 2 ^ 63) × (0 < d) }
    ensures { result ≡ rule up z d }
{
    if up {
        fixed::ceiling_divided(z, d)
    } else {
        fixed::floor_divided(z, d)
    }
}

// The integral of one term with even exponents, for a box of volume `scale`.
fn share(up: bool, scale: i64, key: Key, coefficient: i64) -> i64
    requires { nat_abs coefficient * nat_abs scale < 2 ^ 63 }
    ensures { result ≡ rule up (coefficient *ℤ scale) (key_divisor key) }
{
    divided(
        up,
        fixed::product(coefficient, scale),
        model_keys::divisor(key),
    )
}

// The sum of the terms' integrals, each rounded by itself.
fn integral_sum(up: bool, n: u8, count: usize, keys: &[Key], coefficients: &[i64]) -> i64
    requires { TermsIn n count keys.now coefficients.now }
    ensures { (w : TermsIn n count keys.now coefficients.now)
        → result ≡ integral_sum (rule up)
        (view (held n count w.radius keys.now coefficients.now)) }
{
    let scale = fixed::signed(volume(n));
    let mut total: i64 = 0;
    for i in 0..count {
        let key = keys[i];
        let c = coefficients[i];
        if model_keys::all_even(key) {
            total = fixed::sum(total, share(up, scale, key, c));
        }
    }
    total
}

// The two ends.
fn term_by_term(n: u8, count: usize, radius: u64, keys: &[Key], coefficients: &[i64]) -> Bounds
    requires places { Places count keys.now coefficients.now }
    requires t { T (sound most_degree (view (held n count radius keys.now coefficients.now))) }
    ensures { result ≡ bounds (done (term_by_term
        (view (held n count radius keys.now coefficients.now)))) }
{
    let around = fixed::signed(volume(n) * radius);
    Bounds {
        low: fixed::difference(integral_sum(false, n, count, keys, coefficients), around),
        high: fixed::sum(integral_sum(true, n, count, keys, coefficients), around),
        verdict: Ok(()),
    }
}

// ---- in any number of variables
// The integral of a model in slices: above four variables without the polynomial part's own.
pub fn integral_slices(
    n: u8,
    count: usize,
    radius: u64,
    keys: &[Key],
    coefficients: &[i64],
) -> Integral
    requires places { Places count keys.now coefficients.now }
    requires t { T (sound most_degree (view (held n count radius keys.now coefficients.now))) }
    ensures { result ≡ integral_answer (done (whole_integral
        (view (held n count radius keys.now coefficients.now)))) }
{
    if n <= MOST_EXACT {
        return exact(n, count, radius, keys, coefficients);
    }
    let b = term_by_term(n, count, radius, keys, coefficients);
    Integral {
        low: b.low,
        high: b.high,
        quotient: 0,
        remainder: 0,
        verdict: Ok(()),
    }
}

// Of a struct.
pub fn integral_of(m: Model) -> Integral
    requires { T (sound most_degree (view m)) }
    ensures { result ≡ integral_answer (done (whole_integral (view m))) }
{
    integral_slices(m.n, m.count, m.radius, &m.keys, &m.coefficients)
}
