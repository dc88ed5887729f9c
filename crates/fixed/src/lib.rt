// Numbers in fixed point: the unit, the span limit, exact arithmetic on 64-bit numbers, and rounding to the unit.
// No function traps or wraps: each takes every input, or a `requires` leaves out what has no answer in 64 bits.
// Callers know the limits and the rounding by name and by the laws in crates/numbers (FixedLaws and DivisionLaws).
#![tactic(auto)]

ghost use Rattle.std.specs.Prelude.{◌&&◌, ◌≡◌, ◌+◌, ◌*◌, ◌^◌, ◌<◌, leb, pos, negsuc, nat_abs, neg_ℤ, ◌+ℤ◌, ◌-ℤ◌, ◌*ℤ◌};
ghost use Rattle.std.specs.Int.Signed.{non_neg};
ghost use Rattle.numbers.specs.Division.{floor, ceiling, remainder, divided_up, nearest};
ghost use Rattle.numbers.specs.Fixed.{U, span_limit, round_up, capped};
ghost use Rattle.fixed.specs.RoundedStruct.{rounded};

// The unit U, by its binary digits: with a power of two the floor of z / U is a shift. It is public for a constant of
// the layer above, by which the digits of a double are moved.
pub const UNIT_BITS: u32 = 20;

// U: a coefficient c stands for c / U. It is public for the constants of the layers above; code there calls `unit`.
pub const UNIT: u64 = 1 << UNIT_BITS;

const HALF_UNIT: u64 = UNIT / 2;

// The largest span.
const SPAN_LIMIT: u64 = 1 << 30;

// What a capped sum is once it exceeds the span limit.
const ABOVE_SPAN: u64 = SPAN_LIMIT + 1;

// A number of units, and how far from it lies what was rounded.
#[derive(Clone, Copy)]
pub struct Rounded {
    pub coefficient: i64,
    pub residual: u64,
}

// ---- the unit and the limits

// U as a coefficient: that of the number 1 and of a variable.
pub fn unit() -> i64
    ensures { result ≡ pos U }
{
    UNIT as i64
}

// The test of a span. It answers the same of a capped span.
pub fn within_span(s: u64) -> bool
    ensures { result ≡ leb s span_limit }
{
    s <= SPAN_LIMIT
}

// The test of a coordinate: from -U to U.
pub fn within_unit(x: i64) -> bool
    ensures { result ≡ leb (nat_abs x) U }
{
    magnitude(x) <= UNIT
}

// The test of a constant: from minus the span limit to the span limit.
pub fn constant_within_limits(v: i64) -> bool
    ensures { result ≡ leb (nat_abs v) span_limit }
{
    within_span(magnitude(v))
}

// The test of a threshold: from 0 to the span limit.
pub fn threshold_within_limits(t: i64) -> bool
    ensures { result ≡ (non_neg t && leb (nat_abs t) span_limit) }
{
    0 <= t && within_span(magnitude(t))
}

// ---- exact arithmetic, one signed operation a function, so that callers reason about whole numbers

// -1 - z, which is in range for every z: it takes -(n + 1) to n and back.
fn complement(z: i64) -> i64
    ensures { result ≡ negsuc 0 -ℤ z }
{
    -1 - z
}

// The size of z. That of the least number fits too, since the answer has no sign: -(n + 1) is first made n, as by
// `complement`.
pub fn magnitude(z: i64) -> u64
    ensures { result ≡ nat_abs z }
{
    if z < 0 {
        let before = -1 - z;
        before as u64 + 1
    } else {
        z as u64
    }
}

// A natural number as a signed one: radii and sizes where they meet coefficients. Those of a sound model are at most
// the span limit, which `span_fits` puts far below 2^63.
pub fn signed(n: u64) -> i64
    requires { n < 2 ^ 63 }
    ensures { result ≡ pos n }
{
    n as i64
}

// -z: all but the least number have one. Coefficients of a sound model are at most the span limit in size.
pub fn negated(z: i64) -> i64
    requires { nat_abs z < 2 ^ 63 }
    ensures { result ≡ neg_ℤ z }
{
    -z
}

// a + b: coefficients of equal monomials, and products that meet there. Of sound models the sizes of all coefficients
// sum to at most the span limit (`span_fits`), and those of all products to at most its square (`span_square_fits`).
pub fn sum(a: i64, b: i64) -> i64
    requires { nat_abs a + nat_abs b < 2 ^ 63 }
    ensures { result ≡ a +ℤ b }
{
    a + b
}

// a - b, as a sum: the low end of a range.
pub fn difference(a: i64, b: i64) -> i64
    requires { nat_abs a + nat_abs b < 2 ^ 63 }
    ensures { result ≡ a -ℤ b }
{
    a - b
}

// a b: two coefficients of sound models, each at most the span limit in size (`span_square_fits`), or a coefficient and
// a number below 2^32 (`span_fits`).
pub fn product(a: i64, b: i64) -> i64
    requires { nat_abs a * nat_abs b < 2 ^ 63 }
    ensures { result ≡ a *ℤ b }
{
    a * b
}

// A sum that stops just above the span limit, so that no number of summands of any size wraps; the span test answers of
// it as of the sum (`capped_within`), also after many sums (`capped_sum`).
pub fn capped_sum(s: u64, x: u64) -> u64
    ensures { result ≡ capped (s + x) }
{
    if SPAN_LIMIT < s {
        return ABOVE_SPAN;
    }
    if SPAN_LIMIT - s < x {
        return ABOVE_SPAN;
    }
    s + x
}

// ---- division

// z / d rounded down, for the quotient of an integral. The divisor there is the common denominator.
pub fn floor_divided(z: i64, d: u64) -> i64
    requires { 0 < d }
    ensures { result ≡ floor z d }
{
    let size = magnitude(z);
    if z < 0 {
        complement(signed((size - 1) / d))
    } else {
        signed(size / d)
    }
}

// z / d rounded up, for the high end of a term's integral. The dividend there is a coefficient of a sound model times a
// small power of two (`span_fits`).
pub fn ceiling_divided(z: i64, d: u64) -> i64
    requires z_bound { nat_abs z < 2 ^ 63 }
    requires d_nonzero { 0 < d }
    ensures { result ≡ ceiling z d }
{
    negated(floor_divided(negated(z), d))
}

// n / d rounded to the nearest, halfway to the even. Twice the remainder is compared with d, with one more where the
// quotient is odd: that tells at a tie which of the two is even.
fn nearest_quotient(n: u64, d: u64) -> u64
    requires n_bound { n < 2 ^ 63 }
    requires d_nonzero { 0 < d }
    ensures { pos result ≡ nearest (pos n) d }
{
    let below = n / d;
    let rest = n % d;
    let odd = below % 2;
    let twice = rest * 2;
    if twice + odd <= d { below } else { below + 1 }
}

// z / d rounded to the nearest, halfway to the even. The rule does not see the sign, so the size is divided.
pub fn nearest_divided(z: i64, d: u64) -> i64
    requires z_bound { nat_abs z < 2 ^ 63 }
    requires d_nonzero { 0 < d }
    ensures { result ≡ nearest z d }
{
    let c = signed(nearest_quotient(magnitude(z), d));
    if z < 0 { negated(c) } else { c }
}

// ---- rounding to the unit

// z / U rounded down: the shift copies the sign, so it rounds down below 0 too.
fn whole_units(z: i64) -> i64
    ensures { result ≡ floor z U }
{
    z >> UNIT_BITS
}

// What z is above that number of units: 0 to U - 1.
fn above_whole_units(z: i64, units: i64) -> u64
    requires { units ≡ floor z U }
    ensures { result ≡ remainder z U }
{
    (z - units * UNIT as i64) as u64
}

// z rounded to a coefficient, halfway to the even, with its residual. What z is above the floor is compared with half a
// unit, with one more where the floor is odd: one comparison for ties and all others, and every z is taken.
pub fn round(z: i64) -> Rounded
    ensures { result ≡ rounded z }
{
    let below = whole_units(z);
    let rest = above_whole_units(z, below);
    let odd = magnitude(below) % 2;
    if rest + odd <= HALF_UNIT {
        Rounded {
            coefficient: below,
            residual: rest,
        }
    } else {
        let above = below + 1;
        let missing = UNIT - rest;
        Rounded {
            coefficient: above,
            residual: missing,
        }
    }
}

// a / d rounded up, for d from 1. It tests the remainder instead of adding d - 1, so it takes every a.
pub fn divided_up(a: u64, d: u64) -> u64
    requires { 0 < d }
    ensures { result ≡ divided_up a d }
{
    if a % d == 0 { a / d } else { a / d + 1 }
}

// e / U rounded up, the radius that pays for e. It tests the remainder instead of adding U - 1, so it takes every e.
pub fn round_up(e: u64) -> u64
    ensures { result ≡ round_up e }
{
    if e % UNIT == 0 {
        e / UNIT
    } else {
        e / UNIT + 1
    }
}
