// Models held in memory: their types, the answers of a refused call, and the models of constants and variables.
#![tactic(auto)]

ghost use Rattle.std.specs.Prelude.{◌≡◌, ◌+◌, ◌*◌, ◌^◌, ◌≤◌, ◌<◌};
ghost use Rattle.numbers.specs.Fixed.{U, span_limit};
ghost use Rattle.calculus.specs.Key.{key_width};
ghost use Rattle.calculus.specs.Model.{zero_model, between};
ghost use Rattle.calculus.specs.Model as C;
ghost use Rattle.calculus.specs.Refusal as R;
ghost use Rattle.calculus.specs.Refusal.{stopped, number, at_place};
ghost use Rattle.calculus.specs.Tests.{vars_sound, order_sound};
ghost use Rattle.calculus.specs.Operations.{constant, variable};
ghost use Rattle.calculus.specs.Calls.{call_constant, call_variable};
ghost use Rattle.calculus.specs.Shares.{grown, all_carried};
ghost use Rattle.model_types.specs.ModelStruct.{pack, one_term, cause, answer, bounds};
ghost use Rattle.model_types.specs.SharesStruct.{stored_shares, unless_refused, accounted};
ghost use Rattle.model_types.specs.ModelStruct.{integral_answer};

pub use model_keys::Key;

// The places of a model's terms.
pub const MOST_TERMS: usize = 64;

// The largest number of variables.
pub const MOST_VARS: u8 = 8;

// The largest degree of a term, and the largest order.
pub const MOST_DEGREE: u8 = 15;

// The coefficients of a curve in Chebyshev polynomials: degrees 0 to 15.
pub const CURVE_PLACES: usize = 16;

// One term: eight exponents of four bits each, that of variable 1 in the highest bits, and a coefficient in units of
// 1/U.
#[derive(Clone, Copy)]
pub struct Term {
    pub key: Key,
    pub coefficient: i64,
}

// A model: the keys, strictly rising, and the coefficients of its first `count` terms, and a radius in units of 1/U. A
// term's key and its coefficient stand at the same place, so that a function on slices of both reads a struct, the
// results of a run and a caller's memory alike.
#[derive(Clone, Copy)]
pub struct Model {
    pub n: u8,
    pub count: usize,
    pub radius: u64,
    pub keys: [Key; MOST_TERMS],
    pub coefficients: [i64; MOST_TERMS],
}

// Why a call is refused: one case for each number of the documents' table.
#[derive(Clone, Copy, Debug, PartialEq, Eq)]
pub enum Refusal {
    BadLength = 1,
    BadMark = 2,
    BadLimits = 3,
    BadOffset = 4,
    BadModel = 5,
    BadStep = 6,
    OverSpan = 7,
    TooManyTerms = 8,
    LeavesBox = 9,
    VariablesDiffer = 10,
    ShortBuffer = 11,
    Uncertified = 12,
    NotOneVariable = 13,
    CutTooDeep = 14,
    BadReading = 15,
    BadDouble = 16,
    BadRank = 17,
}

// Why a call is refused, and the place of the fault.
#[derive(Clone, Copy, Debug, PartialEq, Eq)]
pub struct Refused(pub Refusal, pub usize);

// What stands beside a call's value: whether it is accepted.
pub type Verdict = Result<(), Refused>;

// A model, or the zero model beside a refusal. Document 01 asks for this form, a struct of the model and an enum beside
// it, and for the zero model.
#[derive(Clone, Copy)]
pub struct Answer {
    pub model: Model,
    pub verdict: Verdict,
}

// Where a radius came from: carried, rounding, swept, slack. Their sum is the radius times U.
#[derive(Clone, Copy)]
pub struct Shares {
    pub carried: u64,
    pub rounding: u64,
    pub swept: u64,
    pub slack: u64,
}

// An answer with the shares of its radius; zeros beside a refusal.
#[derive(Clone, Copy)]
pub struct Accounted {
    pub answer: Answer,
    pub shares: Shares,
}

// A curve in one variable: the coefficients of the Chebyshev polynomials T_0 to T_15, and a radius, in units of 1/U.
#[derive(Clone, Copy)]
pub struct Curve {
    pub coefficients: [i64; CURVE_PLACES],
    pub radius: u64,
}

// A curve, or all zeros beside a refusal, which every call on curves promises (`curve_answer`).
#[derive(Clone, Copy)]
pub struct CurveAnswer {
    pub curve: Curve,
    pub verdict: Verdict,
}

// Two ends, or zeros beside a refusal, as document 01 has it.
#[derive(Clone, Copy)]
pub struct Bounds {
    pub low: i64,
    pub high: i64,
    pub verdict: Verdict,
}

// A reading of the bench: a point, and a low and a high value in units of 1/U.
#[derive(Clone, Copy)]
pub struct Reading {
    pub x: [i64; MOST_VARS as usize],
    pub low: i64,
    pub high: i64,
}

// What a row of readings gives: the first reading that contradicts the model, by its number from 0, if one does; and
// the verdict. No call answers a contradiction beside a refusal, but what takes a finding takes any pair of both.
#[derive(Clone, Copy, Debug, PartialEq, Eq)]
pub struct Finding {
    pub contradiction: Option<usize>,
    pub verdict: Verdict,
}

// The two ends of an integral, and that of the polynomial part alone: quotient + remainder / 212,837,625, exactly. All
// are 0 beside a refusal, as document 01 has it.
#[derive(Clone, Copy)]
pub struct Integral {
    pub low: i64,
    pub high: i64,
    pub quotient: i64,
    pub remainder: u64,
    pub verdict: Verdict,
}

// A curve in one variable as it is delivered in doubles: the coefficients of powers 0, 1 and 2, and a radius.
#[derive(Clone, Copy)]
pub struct Doubles {
    pub c0: f64,
    pub c1: f64,
    pub c2: f64,
    pub radius: f64,
}

impl Term {
    // What stands in a place that is not used.
    pub const ZERO: Term = Term {
        key: 0,
        coefficient: 0,
    };
}

impl Model {
    // No terms and radius 0, in one variable.
    pub const ZERO: Model = Model {
        n: 1,
        count: 0,
        radius: 0,
        keys: [0; MOST_TERMS],
        coefficients: [0; MOST_TERMS],
    };

    // One term of key 0, coefficient U. A constant's array is a list of all places or one value repeated.
    pub const ONE: Model = Model {
        count: 1,
        coefficients: [
            fixed::UNIT as i64,
            0,
            0,
            0,
            0,
            0,
            0,
            0,
            0,
            0,
            0,
            0,
            0,
            0,
            0,
            0,
            0,
            0,
            0,
            0,
            0,
            0,
            0,
            0,
            0,
            0,
            0,
            0,
            0,
            0,
            0,
            0,
            0,
            0,
            0,
            0,
            0,
            0,
            0,
            0,
            0,
            0,
            0,
            0,
            0,
            0,
            0,
            0,
            0,
            0,
            0,
            0,
            0,
            0,
            0,
            0,
            0,
            0,
            0,
            0,
            0,
            0,
            0,
            0,
        ],
        ..Model::ZERO
    };
}

impl Shares {
    // What a refused step reports, and a place that no step has.
    pub const ZERO: Shares = Shares {
        carried: 0,
        rounding: 0,
        swept: 0,
        slack: 0,
    };
}

// Document 01's number of a refusal.
pub fn number(refusal: Refusal) -> u8
    ensures { result ≡ number (cause refusal) }
{
    refusal as u8
}

// The answers of a refused call. One of the zeros is stored again, at a place that the compiler cannot know: it then
// leaves the 64 terms together. Otherwise it takes them apart, here and wherever an answer may be a refusal, and copies
// every accepted answer number by number.
pub fn refuse(refusal: Refusal, place: usize) -> Answer
    ensures { result ≡ answer (stopped (cause refusal) place) }
{
    let at = place % MOST_TERMS;
    let mut zero = Model::ZERO;
    zero.coefficients[at] = 0;
    Answer {
        model: zero,
        verdict: Err(Refused(refusal, place)),
    }
}

pub fn refuse_bounds(refusal: Refusal, place: usize) -> Bounds
    ensures { result ≡ bounds (stopped (cause refusal) place) }
{
    Bounds {
        low: 0,
        high: 0,
        verdict: Err(Refused(refusal, place)),
    }
}

pub fn refuse_integral(refusal: Refusal, place: usize) -> Integral
    ensures { result ≡ integral_answer (stopped (cause refusal) place) }
{
    Integral {
        low: 0,
        high: 0,
        quotient: 0,
        remainder: 0,
        verdict: Err(Refused(refusal, place)),
    }
}

// Whether i is 1 to `most`.
pub fn from_one(most: u8, i: u8) -> bool
    ensures { result ≡ between 1 most i }
{
    if i < 1 {
        return false;
    }
    i <= most
}

// Whether n is a number of variables.
pub fn vars_sound(n: u8) -> bool
    ensures { result ≡ vars_sound n }
{
    from_one(MOST_VARS, n)
}

// Whether d is an order.
pub fn order_sound(d: u8) -> bool
    ensures { result ≡ order_sound d }
{
    from_one(MOST_DEGREE, d)
}

// A model without terms, in n variables.
pub fn without_terms(n: u8) -> Model
    ensures { result ≡ pack (zero_model n) }
{
    let mut zero = Model::ZERO;
    zero.n = n;
    zero
}

impl Model {
    // The call for a constant, from -2^30 to 2^30.
    pub fn constant(n: u8, value: i64) -> Answer
        ensures { result ≡ answer (call_constant n value) }
    {
        if !vars_sound(n) {
            return refuse(Refusal::BadLimits, 0);
        }
        if !fixed::constant_within_limits(value) {
            return refuse(Refusal::BadStep, 0);
        }
        Answer {
            model: constant_of(n, value),
            verdict: Ok(()),
        }
    }

    // The call for a variable, from 1 to n.
    pub fn variable(n: u8, i: u8) -> Answer
        ensures { result ≡ answer (call_variable n i) }
    {
        if !vars_sound(n) {
            return refuse(Refusal::BadLimits, 0);
        }
        if !from_one(n, i) {
            return refuse(Refusal::BadStep, 0);
        }
        Answer {
            model: variable_of(n, i),
            verdict: Ok(()),
        }
    }
}

// ---- for the layer above: numbers that are known to be within their limits
// A model of one term.
fn of_one_term(n: u8, key: Key, coefficient: i64) -> Model
    requires { n ≤ key_width }
    ensures { result ≡ pack (one_term n key coefficient) }
{
    let mut keys: [Key; MOST_TERMS] = [0; MOST_TERMS];
    let mut coefficients = [0i64; MOST_TERMS];
    keys[0] = key;
    coefficients[0] = coefficient;
    Model {
        n: n,
        count: 1,
        radius: 0,
        keys: keys,
        coefficients: coefficients,
    }
}

// The model of a constant.
pub fn constant_of(n: u8, value: i64) -> Model
    requires { n ≤ key_width }
    ensures { result ≡ pack (constant n value) }
{
    if value == 0 {
        without_terms(n)
    } else {
        of_one_term(n, 0, value)
    }
}

// The model of a variable.
pub fn variable_of(n: u8, i: u8) -> Model
    requires { (1 ≤ i) × (i ≤ n) × (n ≤ key_width) }
    ensures { result ≡ pack (variable n i) }
{
    of_one_term(n, model_keys::raised(0, i), fixed::unit())
}

// ---- for the layer above: shares of radii
// U × e.
pub fn times_unit(e: u64) -> u64
    requires { U * e < 2 ^ 64 }
    ensures { result ≡ U * e }
{
    let unit = fixed::magnitude(fixed::unit());
    unit * e
}

// The shares of a radius e that grew by rounding and by what was swept.
pub fn grown(e: u64, rounding: u64, swept: u64) -> Shares
    requires { e + rounding + swept ≤ span_limit }
    ensures { result ≡ stored_shares (grown e rounding swept) }
{
    Shares {
        carried: times_unit(e),
        rounding: times_unit(rounding),
        swept: times_unit(swept),
        slack: 0,
    }
}

// What stands beside a verdict: the shares, or zeros beside a refusal.
pub fn unless_refused(v: Verdict, shares: Shares) -> Shares
    ensures { result ≡ unless_refused v shares }
{
    let Ok(()) = v else {
        return Shares::ZERO;
    };
    shares
}

// The answer of an operation whose radius is all carried. Beside a refusal the radius is 0, and so are the shares.
pub fn all_carried(a: Answer) -> Accounted
    requires { a.model.radius ≤ span_limit }
    ensures { (o : R.Answer C.Model) → a ≡ answer (at_place 0 o) → result ≡ accounted o all_carried }
{
    let shares = grown(a.model.radius, 0, 0);
    Accounted {
        answer: a,
        shares: shares,
    }
}
