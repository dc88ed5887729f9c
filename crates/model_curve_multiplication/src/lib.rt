// Products of curves.
#![tactic(auto)]

ghost use Rattle.std.specs.Prelude.{◌≡◌, ◌+◌, ◌*◌, ◌^◌, ◌≤◌, ◌<◌, T, length, pos, nat_abs, ◌-ℤ◌, ◌*ℤ◌};
ghost use Rattle.numbers.specs.Division.{nearest};
ghost use Rattle.chebyshev.specs.Recurrence as R;
ghost use Rattle.chebyshev.specs.Curve.{sound, span};
ghost use Rattle.chebyshev.specs.CurveOperations.{products, swept, rounded, carried};
ghost use Rattle.chebyshev.specs.CurveCalls.{call_multiply};
ghost use Rattle.chebyshev.specs.Coefficients.{size, products_of};
ghost use Rattle.model_types.specs.CurveStruct.{view_curve, pack_curve, curve_answer};

use model_types::{Curve, CurveAnswer, Refusal};

// Collected coefficients are in units of 1/(2U²).
const TWO_UNITS: u64 = 2 * fixed::UNIT;

// Coefficients of degrees 0 to 30, before they are rounded.
#[derive(Clone, Copy)]
pub struct Degrees {
    pub places: [i64; 31],
}

// How far two degrees are apart.
fn apart(i: usize, j: usize) -> usize
    ensures { result ≡ R.apart i j }
{
    i.abs_diff(j)
}

// The products of a at degree i with all of g, each added at its two degrees, from the last one down.
fn add_products(z: &mut [i64; 31], i: usize, a: i64, g: &[i64; 16])
    requires i_bound { i < 16 }
    requires z_len { length z.old ≡ 31 }
    requires g_len { length g.now ≡ 16 }
    requires z_bound { 2 * (nat_abs a * size g.now) + size z.old < 2 ^ 63 }
    ensures { z.new ≡ products_of i a 0 g.now z.old }
{
    for j in (0..16).rev() {
        let v = fixed::product(a, g[j]);
        let near = apart(i, j);
        let far = i + j;
        let x = fixed::sum(v, z[near]);
        z[near] = x;
        let y = fixed::sum(v, z[far]);
        z[far] = y;
    }
}

// Twice each coefficient of the product, in units of 1/U²: degree by degree of f, from the last one down.
fn collected(f: Curve, g: Curve) -> Degrees
    requires t { T (sound (view_curve f)) }
    requires t_2 { T (sound (view_curve g)) }
    ensures { result.places ≡ products (view_curve f) (view_curve g) }
{
    let mut z = [0; 31];
    for i in (0..16).rev() {
        let a = f.coefficients[i];
        add_products(&mut z, i, a, &g.coefficients);
    }
    Degrees { places: z }
}

// The size of each coefficient above degree 15.
fn swept_of(z: Degrees) -> u64
    requires { size z.places < 2 ^ 62 }
    ensures { result ≡ swept z.places }
{
    let mut total: u64 = 0;
    for i in (16..31).rev() {
        total += fixed::magnitude(z.places[i]);
    }
    total
}

// What is left of c beside q times d.
fn left_of(c: i64, q: i64, d: u64) -> u64
    requires c_bound { nat_abs c ≤ 2 ^ 61 }
    requires d_nonzero { 0 < d }
    requires d_bound { d < 2 ^ 32 }
    requires q_value { q ≡ nearest c d }
    ensures { result ≡ nat_abs (c -ℤ nearest c d *ℤ pos d) }
{
    let back = fixed::product(q, fixed::signed(d));
    fixed::magnitude(fixed::difference(c, back))
}

// Coefficients up to degree 15 over d to nearest; what is left of them, what is above degree 15 and e enter the radius,
// rounded up once.
pub fn rounded_degrees(z: Degrees, d: u64, e: u64) -> Curve
    requires places_bound { e + size z.places ≤ 2 ^ 61 }
    requires d_nonzero { 0 < d }
    requires d_bound { d < 2 ^ 32 }
    ensures { result ≡ pack_curve (rounded d e z.places) }
{
    let mut total = e + swept_of(z);
    let mut out = [0; 16];
    for i in 0..16 {
        let c = z.places[i];
        let q = fixed::nearest_divided(c, d);
        total += left_of(c, q, d);
        out[i] = q;
    }
    Curve {
        coefficients: out,
        radius: fixed::divided_up(total, d),
    }
}

// The sum of all |c| and e.
fn span_of(c: Curve) -> u64
    requires { T (sound (view_curve c)) }
    ensures { result ≡ span (view_curve c) }
{
    let first = fixed::magnitude(c.coefficients[0]);
    let others = model_curve_range::variation_of(c);
    first + others
}

// Twice the radius cross terms: A × e2, B × e1 and e1 × e2.
fn crossed(f: Curve, g: Curve) -> u64
    requires t { T (sound (view_curve f)) }
    requires t_2 { T (sound (view_curve g)) }
    ensures { result ≡ 2 * carried (view_curve f) (view_curve g) }
{
    let first = span_of(f);
    let second = span_of(g);
    let size = second - g.radius;
    let left = first * g.radius;
    let right = size * f.radius;
    let both = left + right;
    2 * both
}

// 5, 5, 7
pub fn multiply(f: Curve, g: Curve) -> CurveAnswer
    ensures { result ≡ curve_answer (call_multiply (view_curve f) (view_curve g)) }
{
    if !model_curve_addition::curve_sound(f) {
        return model_curve_addition::refuse_curve(Refusal::BadModel, 0);
    }
    if !model_curve_addition::curve_sound(g) {
        return model_curve_addition::refuse_curve(Refusal::BadModel, 1);
    }
    let z = collected(f, g);
    let e = crossed(f, g);
    let r = rounded_degrees(z, TWO_UNITS, e);
    model_curve_addition::limited_curve(r)
}
