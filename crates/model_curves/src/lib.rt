// Curves in Chebyshev polynomials of one variable: the single calls of document 02's request 10. Each takes anything,
// whatever its fields hold, makes the tests in the request's order, and answers the result or the refusal with its
// place. The numbers in a call's comment are its refusals, in the order of the tests.
#![tactic(auto)]

pub use model_types::{Answer, Bounds, Curve, CurveAnswer, Model};

// All signs turned. 5.
pub use model_curve_addition::negate;

// The sum. 5 (places 0, 1), 7.
pub use model_curve_addition::add;

// The first minus the second. 5 (places 0, 1), 7.
pub use model_curve_addition::subtract;

// The product, by T_i × T_j = (T_(i+j) + T_|i-j|) / 2. 5 (places 0, 1), 7.
pub use model_curve_multiplication::multiply;

// The constant coefficient, minus and plus the sum of the other |c| and e. 5.
pub use model_curve_range::range;

// The same polynomial in powers of variable 1, exactly. 5, 7.
pub use model_curve_to_powers::to_powers;

// A model in powers of one variable as a curve. 5, 13, 7.
pub use model_curve_from_powers::from_powers;
