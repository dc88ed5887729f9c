// Models in powers of one variable as curves.
#![tactic(auto)]

ghost use Rattle.std.specs.Prelude.{◌≡◌, ◌^◌, ◌<◌, T, pos};
ghost use Rattle.calculus.specs.Model.{most_degree};
ghost use Rattle.calculus.specs.Model as M;
ghost use Rattle.chebyshev.specs.Coefficients.{size};
ghost use Rattle.chebyshev.specs.PowerRows.{combine};
ghost use Rattle.chebyshev.specs.Tables.{power_table};
ghost use Rattle.chebyshev.specs.CurveOperations.{row_of};
ghost use Rattle.chebyshev.specs.CurveCalls.{call_from_powers};
ghost use Rattle.model_types.specs.Arrays.{padded};
ghost use Rattle.model_types.specs.ModelStruct.{view};
ghost use Rattle.model_types.specs.CurveStruct.{curve_answer};

use model_curve_multiplication::Degrees;
use model_types::{Curve, CurveAnswer, Model, Refusal};

// The powers' coefficients are whole numbers over this one.
const POWER_SCALE: u64 = 1 << 14;

// Row k holds the coefficients of 2^14 x^k in Chebyshev polynomials, that of T_0 first.
const POWERS: [[i64; 16]; 16] = [
    [16384, 0, 0, 0, 0, 0, 0, 0, 0, 0, 0, 0, 0, 0, 0, 0],
    [0, 16384, 0, 0, 0, 0, 0, 0, 0, 0, 0, 0, 0, 0, 0, 0],
    [8192, 0, 8192, 0, 0, 0, 0, 0, 0, 0, 0, 0, 0, 0, 0, 0],
    [0, 12288, 0, 4096, 0, 0, 0, 0, 0, 0, 0, 0, 0, 0, 0, 0],
    [6144, 0, 8192, 0, 2048, 0, 0, 0, 0, 0, 0, 0, 0, 0, 0, 0],
    [0, 10240, 0, 5120, 0, 1024, 0, 0, 0, 0, 0, 0, 0, 0, 0, 0],
    [5120, 0, 7680, 0, 3072, 0, 512, 0, 0, 0, 0, 0, 0, 0, 0, 0],
    [0, 8960, 0, 5376, 0, 1792, 0, 256, 0, 0, 0, 0, 0, 0, 0, 0],
    [4480, 0, 7168, 0, 3584, 0, 1024, 0, 128, 0, 0, 0, 0, 0, 0, 0],
    [0, 8064, 0, 5376, 0, 2304, 0, 576, 0, 64, 0, 0, 0, 0, 0, 0],
    [
        4032, 0, 6720, 0, 3840, 0, 1440, 0, 320, 0, 32, 0, 0, 0, 0, 0,
    ],
    [0, 7392, 0, 5280, 0, 2640, 0, 880, 0, 176, 0, 16, 0, 0, 0, 0],
    [
        3696, 0, 6336, 0, 3960, 0, 1760, 0, 528, 0, 96, 0, 8, 0, 0, 0,
    ],
    [
        0, 6864, 0, 5148, 0, 2860, 0, 1144, 0, 312, 0, 52, 0, 4, 0, 0,
    ],
    [
        3432, 0, 6006, 0, 4004, 0, 2002, 0, 728, 0, 182, 0, 28, 0, 2, 0,
    ],
    [
        0, 6435, 0, 5005, 0, 3003, 0, 1365, 0, 455, 0, 105, 0, 15, 0, 1,
    ],
];

// The coefficients of T_0 to T_15, times 2^14, with zeros above degree 15.
fn degrees_from(c: Curve) -> Degrees
    requires { size c.coefficients < 2 ^ 31 }
    ensures { result.places ≡ padded (pos 0) 31 (combine c.coefficients power_table) }
{
    let rows = POWERS;
    let mut total = [0; 16];
    model_curve_rows::combine_rows(&mut total, &c.coefficients, &rows);
    let mut out = [0; 31];
    // No copy_from_slice: it asks for memmove, which the library does not ask of a program.
    for i in 0..16 {
        let z = total[i];
        out[i] = z;
    }
    Degrees { places: out }
}

// The terms as a row of sixteen, from the last one down.
fn row_from(m: Model) -> Curve
    requires { T (M.sound most_degree (view m)) }
    ensures { result.coefficients ≡ row_of (view m).terms }
{
    let mut out = [0; 16];
    for i in (0..m.count).rev() {
        let key = m.keys[i];
        let k = model_keys::first_exponent(key);
        let c = m.coefficients[i];
        let x = fixed::sum(c, out[k]);
        out[k] = x;
    }
    Curve {
        coefficients: out,
        radius: m.radius,
    }
}

// 5, 13, 7
pub fn from_powers(m: Model) -> CurveAnswer
    ensures { result ≡ curve_answer (call_from_powers (view m)) }
{
    if !model_soundness::sound(m, model_types::MOST_DEGREE) {
        return model_curve_addition::refuse_curve(Refusal::BadModel, 0);
    }
    let n = m.n;
    if n != 1 {
        return model_curve_addition::refuse_curve(Refusal::NotOneVariable, 0);
    }
    let e = POWER_SCALE * m.radius;
    let row = row_from(m);
    let z = degrees_from(row);
    let r = model_curve_multiplication::rounded_degrees(z, POWER_SCALE, e);
    model_curve_addition::limited_curve(r)
}
