// Curves in powers: the model that a curve becomes, exactly.
#![tactic(auto)]

ghost use Rattle.std.specs.Prelude.{◌≡◌, ◌<◌, T, pos, get_or};
ghost use Rattle.calculus.specs.Refusal.{at_place};
ghost use Rattle.chebyshev.specs.Curve.{sound};
ghost use Rattle.chebyshev.specs.PowerRows.{combine};
ghost use Rattle.chebyshev.specs.Tables.{chebyshev_table};
ghost use Rattle.chebyshev.specs.CurveOperations as Op;
ghost use Rattle.chebyshev.specs.CurveCalls.{call_to_powers};
ghost use Rattle.model_types.specs.ModelStruct.{answer};
ghost use Rattle.model_types.specs.CurveStruct.{view_curve};

use model_types::{Answer, Curve, Key, MOST_TERMS, Model, Refusal};

// Coefficients of powers 0 to 15.
#[derive(Clone, Copy)]
pub struct Powers {
    pub places: [i64; 16],
}

// Row k holds the coefficients of T_k in powers, that of power 0 first.
const CHEBYSHEV: [[i64; 16]; 16] = [
    [1, 0, 0, 0, 0, 0, 0, 0, 0, 0, 0, 0, 0, 0, 0, 0],
    [0, 1, 0, 0, 0, 0, 0, 0, 0, 0, 0, 0, 0, 0, 0, 0],
    [-1, 0, 2, 0, 0, 0, 0, 0, 0, 0, 0, 0, 0, 0, 0, 0],
    [0, -3, 0, 4, 0, 0, 0, 0, 0, 0, 0, 0, 0, 0, 0, 0],
    [1, 0, -8, 0, 8, 0, 0, 0, 0, 0, 0, 0, 0, 0, 0, 0],
    [0, 5, 0, -20, 0, 16, 0, 0, 0, 0, 0, 0, 0, 0, 0, 0],
    [-1, 0, 18, 0, -48, 0, 32, 0, 0, 0, 0, 0, 0, 0, 0, 0],
    [0, -7, 0, 56, 0, -112, 0, 64, 0, 0, 0, 0, 0, 0, 0, 0],
    [1, 0, -32, 0, 160, 0, -256, 0, 128, 0, 0, 0, 0, 0, 0, 0],
    [0, 9, 0, -120, 0, 432, 0, -576, 0, 256, 0, 0, 0, 0, 0, 0],
    [-1, 0, 50, 0, -400, 0, 1120, 0, -1280, 0, 512, 0, 0, 0, 0, 0],
    [
        0, -11, 0, 220, 0, -1232, 0, 2816, 0, -2816, 0, 1024, 0, 0, 0, 0,
    ],
    [
        1, 0, -72, 0, 840, 0, -3584, 0, 6912, 0, -6144, 0, 2048, 0, 0, 0,
    ],
    [
        0, 13, 0, -364, 0, 2912, 0, -9984, 0, 16640, 0, -13312, 0, 4096, 0, 0,
    ],
    [
        -1, 0, 98, 0, -1568, 0, 9408, 0, -26880, 0, 39424, 0, -28672, 0, 8192, 0,
    ],
    [
        0, -15, 0, 560, 0, -6048, 0, 28800, 0, -70400, 0, 92160, 0, -61440, 0, 16384,
    ],
];

// The coefficients in powers.
fn in_rows(c: Curve) -> Powers
    requires { T (sound (view_curve c)) }
    ensures { result.places ≡ combine c.coefficients chebyshev_table }
{
    let rows = CHEBYSHEV;
    let mut total = [0; 16];
    model_curve_rows::combine_rows(&mut total, &c.coefficients, &rows);
    Powers { places: total }
}

// All terms but zeros, unless their span is above the limit.
fn in_powers(c: Curve) -> Answer
    requires { T (sound (view_curve c)) }
    ensures { result ≡ answer (at_place 0 (Op.to_powers (view_curve c))) }
{
    let radius = c.radius;
    let row = in_rows(c);
    let mut keys: [Key; MOST_TERMS] = [0; MOST_TERMS];
    let mut coefficients = [0i64; MOST_TERMS];
    let mut count = 0;
    let mut span = radius;
    for i in 0..16 {
        let z = row.places[i];
        let size = fixed::magnitude(z);
        let key = model_keys::power_key(i);
        if size == 0 {
            continue;
        }
        span += size;
        keys[count] = key;
        coefficients[count] = z;
        count += 1;
    }
    if fixed::within_span(span) {
        let m = Model {
            n: 1,
            count: count,
            radius: radius,
            keys: keys,
            coefficients: coefficients,
        };
        return Answer {
            model: m,
            verdict: Ok(()),
        };
    }
    model_types::refuse(Refusal::OverSpan, 0)
}

// 5, 7
pub fn to_powers(c: Curve) -> Answer
    ensures { result ≡ answer (call_to_powers (view_curve c)) }
{
    if !model_curve_addition::curve_sound(c) {
        return model_types::refuse(Refusal::BadModel, 0);
    }
    in_powers(c)
}
