// A curve delivered in doubles becomes a model. Each double is taken apart from its bits: nothing is computed in
// floats.
#![tactic(auto)]

ghost use Rattle.std.specs.Prelude.{◌≡◌, not, ◌&&◌, leb, ◌%◌, ◌^◌, ◌<◌, ◌≤◌};
ghost use Rattle.numbers.specs.Division.{divided_up};
ghost use Rattle.calculus.specs.Model as C;
ghost use Rattle.calculus.specs.Model.{most_terms};
ghost use Rattle.calculus.specs.Operations.{one_if_any};
ghost use Rattle.doubles.specs.Doubles.{signed, model_of, call_doubles};
ghost use Rattle.model_types.specs.ModelStruct.{pack, answer};
ghost use Rattle.model_doubles.specs.DoubleParts.{parts_of_bits, Worth, point, divisor, scaled};
ghost use Rattle.model_doubles.specs.DoubleParts.{Moderate, model_of_parts};
ghost use Rattle.model_doubles.specs.DoublesStruct.{delivered, with_term};

use model_types::{Answer, Doubles, Key, Model, Refusal};

// ---- the parts of a double

// A finite double's value: digits × 2^places of the smallest double, 2^-1074.
#[derive(Clone, Copy)]
struct Parts {
    finite: bool,
    negative: bool,
    digits: u64,
    places: u64,
}

// The weight of a double's sign, and that of its exponent's field, which is also that of the leading digit.
const SIGN: u64 = 1 << 63;

const LEAD: u64 = 1 << 52;

// The exponent's field of infinities and NaNs.
const ALL_ONES: u64 = 2047;

// The parts of a bit pattern.
fn parts_of_bits(bits: u64) -> Parts
    ensures { result ≡ parts_of_bits bits }
{
    let low = bits % SIGN;
    let field = low / LEAD;
    let fraction = bits % LEAD;
    let negative = SIGN <= bits;
    if field == ALL_ONES {
        return Parts {
            finite: false,
            negative: false,
            digits: 0,
            places: 0,
        };
    }
    if field == 0 {
        return Parts {
            finite: true,
            negative: negative,
            digits: fraction,
            places: 0,
        };
    }
    let digits = LEAD + fraction;
    let places = field - 1;
    Parts {
        finite: true,
        negative: negative,
        digits: digits,
        places: places,
    }
}

// The parts of a double. A NaN differs from itself; which of the patterns of a NaN it has is not asked.
fn taken_apart(x: f64) -> Parts
    ensures { Worth x result }
{
    if x != x {
        return Parts {
            finite: false,
            negative: false,
            digits: 0,
            places: 0,
        };
    }
    parts_of_bits(f64::to_bits(x))
}

// ---- the parts in units of 1/U

// U times a double as a coefficient, and 1 if that is not the whole of it.
#[derive(Clone, Copy)]
struct Scaled {
    coefficient: i64,
    inexact: u64,
}

// With so many places the digits are U times the value. With more, all 53 digits count, and the span is exceeded.
const POINT: u64 = 1074 - fixed::UNIT_BITS as u64;

// A divisor of 2^55 leaves less than a half of any 53 digits, and so does any larger one.
const MOST_SHIFT: u64 = 55;

// What the digits are divided by: 2^(POINT - places), or 2^55 where that is larger.
fn divisor(places: u64) -> u64
    requires { places ≤ point }
    ensures { result ≡ divisor places }
{
    let shift = POINT - places;
    1u64 << shift.min(MOST_SHIFT)
}

// 1 if anything is left.
fn one_if_any(rest: u64) -> u64
    ensures { result ≡ one_if_any rest }
{
    (rest != 0) as u64
}

// The digits with their sign.
fn with_sign(negative: bool, digits: u64) -> i64
    requires { digits < 2 ^ 53 }
    ensures { result ≡ signed negative digits }
{
    let z = fixed::signed(digits);
    if negative {
        return fixed::negated(z);
    }
    z
}

// The digits with their sign, divided and rounded to the nearest.
fn to_units(p: Parts) -> Scaled
    requires digits_bound { p.digits < 2 ^ 53 }
    requires places_le_point { p.places ≤ point }
    ensures { result ≡ scaled p }
{
    let d = divisor(p.places);
    let z = with_sign(p.negative, p.digits);
    let coefficient = fixed::nearest_divided(z, d);
    let inexact = one_if_any(p.digits % d);
    Scaled {
        coefficient: coefficient,
        inexact: inexact,
    }
}

// The digits divided and rounded up.
fn rounded_up(p: Parts) -> u64
    requires { p.places ≤ point }
    ensures { result ≡ divided_up p.digits (divisor p.places) }
{
    fixed::divided_up(p.digits, divisor(p.places))
}

// ---- the model

// The keys of x and of x²: the exponent of variable 1 stands in the highest four bits.
const FIRST_POWER: Key = 1 << 28;

const SECOND_POWER: Key = 2 << 28;

// A term after those of a model, unless its coefficient is 0.
fn with_term(m: Model, key: Key, coefficient: i64) -> Model
    requires n_value { m.n ≡ 1 }
    requires count_lt_most_terms { m.count < most_terms }
    ensures { (o : C.Model) → m ≡ pack o → result ≡ pack (with_term key coefficient o) }
{
    if coefficient == 0 {
        return m;
    }
    let count = m.count;
    let mut keys = m.keys;
    let mut coefficients = m.coefficients;
    keys[count] = key;
    coefficients[count] = coefficient;
    Model {
        n: m.n,
        count: count + 1,
        radius: m.radius,
        keys: keys,
        coefficients: coefficients,
    }
}

// The model of three coefficients and a radius.
fn model_of(c0: i64, c1: i64, c2: i64, radius: u64) -> Model
    ensures { result ≡ pack (model_of c0 c1 c2 radius) }
{
    let mut empty = model_types::without_terms(1);
    empty.radius = radius;
    let constant = with_term(empty, 0, c0);
    let linear = with_term(constant, FIRST_POWER, c1);
    with_term(linear, SECOND_POWER, c2)
}

// Each coefficient to the nearest, the radius up, and 1 more for each coefficient that is not exact.
fn joined(a: Parts, b: Parts, c: Parts, e: Parts) -> Model
    requires { Moderate a b c e }
    ensures { result ≡ pack (model_of_parts a b c e) }
{
    let x = to_units(a);
    let y = to_units(b);
    let z = to_units(c);
    let radius = rounded_up(e) + x.inexact + y.inexact + z.inexact;
    model_of(x.coefficient, y.coefficient, z.coefficient, radius)
}

// ---- the call

// Whether all are finite and the radius is not negative.
fn deliverable(a: Parts, b: Parts, c: Parts, e: Parts, negative: bool) -> bool
    ensures { result ≡ (a.finite && b.finite && c.finite && e.finite && not negative) }
{
    a.finite && b.finite && c.finite && e.finite && !negative
}

// Whether none is so large that it exceeds the span by itself.
fn moderate(a: Parts, b: Parts, c: Parts, e: Parts) -> bool
    ensures { result ≡ (leb a.places point && leb b.places point
        && leb c.places point && leb e.places point) }
{
    a.places <= POINT && b.places <= POINT && c.places <= POINT && e.places <= POINT
}

// The model of a curve in doubles: 16 where a value is not finite or the radius is negative, then 7.
pub fn from_doubles(d: Doubles) -> Answer
    ensures { result ≡ answer (call_doubles (delivered d)) }
{
    let radius = d.radius;
    let a = taken_apart(d.c0);
    let b = taken_apart(d.c1);
    let c = taken_apart(d.c2);
    let e = taken_apart(radius);
    let negative = radius < 0.0;
    if !deliverable(a, b, c, e, negative) {
        return model_types::refuse(Refusal::BadDouble, 0);
    }
    if !moderate(a, b, c, e) {
        return model_types::refuse(Refusal::OverSpan, 0);
    }
    model_limits::limited(joined(a, b, c, e))
}
