// The tests of the single calls, in document 01's order: each function gives the verdict that lets a call go on, or
// refuses it. The numbers in its comment are the refusals, in the order of the tests.
#![tactic(auto)]

ghost use Rattle.std.specs.Prelude.{◌≡◌, take, drop, ◌≤◌};
ghost use Rattle.calculus.specs.Key.{key_width};
ghost use Rattle.calculus.specs.Tests.{all_zero, all_in_unit};
ghost use Rattle.model_types.specs.ModelStruct.{view, verdict};
ghost use Rattle.model_call_tests.specs.Admission.{single_model, sweeping, at_point, integrating};
ghost use Rattle.model_call_tests.specs.Admission.{two_models, ordered, substituting};
ghost use Rattle.model_call_tests.specs.Admission.{four_models, dividing};

use model_types::{Model, Refusal, Refused, Verdict};

// The test of a call of one model. 5.
pub fn single_model(m: Model) -> Verdict
    ensures { result ≡ verdict (single_model (view m)) }
{
    if !model_soundness::sound(m, model_types::MOST_DEGREE) {
        return Err(Refused(Refusal::BadModel, 0));
    }
    Ok(())
}

// The tests of a sweep. 5, 6.
pub fn sweeping(m: Model, t: i64) -> Verdict
    ensures { result ≡ verdict (sweeping t (view m)) }
{
    if !model_soundness::sound(m, model_types::MOST_DEGREE) {
        return Err(Refused(Refusal::BadModel, 0));
    }
    if !fixed::threshold_within_limits(t) {
        return Err(Refused(Refusal::BadStep, 0));
    }
    Ok(())
}

// The tests of an antiderivative in variable i of m, with order d. 3, 5, 6.
pub fn integrating(d: u8, i: u8, m: Model) -> Verdict
    ensures { result ≡ verdict (integrating d i (view m)) }
{
    if !model_types::order_sound(d) {
        return Err(Refused(Refusal::BadLimits, 0));
    }
    if !model_soundness::sound(m, d) {
        return Err(Refused(Refusal::BadModel, 0));
    }
    if !model_types::from_one(m.n, i) {
        return Err(Refused(Refusal::BadStep, 0));
    }
    Ok(())
}

// The tests of two models with degrees up to d. 5 at place 0 or 1, 10.
pub fn two_models(d: u8, a: Model, b: Model) -> Verdict
    ensures { result ≡ verdict (two_models d (view a) (view b)) }
{
    if !model_soundness::sound(a, d) {
        return Err(Refused(Refusal::BadModel, 0));
    }
    if !model_soundness::sound(b, d) {
        return Err(Refused(Refusal::BadModel, 1));
    }
    if a.n != b.n {
        return Err(Refused(Refusal::VariablesDiffer, 0));
    }
    Ok(())
}

// The tests of a product with order d. 3, 5 at place 0 or 1, 10.
pub fn ordered(d: u8, a: Model, b: Model) -> Verdict
    ensures { result ≡ verdict (ordered d (view a) (view b)) }
{
    if !model_types::order_sound(d) {
        return Err(Refused(Refusal::BadLimits, 0));
    }
    two_models(d, a, b)
}

// The tests of a substitution for variable i of f. 3, 5 at place 0 or 1, 10, 6.
pub fn substituting(d: u8, i: u8, f: Model, g: Model) -> Verdict
    ensures { result ≡ verdict (substituting d i (view f) (view g)) }
{
    let v = ordered(d, f, g);
    let Ok(()) = v else {
        return v;
    };
    if !model_types::from_one(f.n, i) {
        return Err(Refused(Refusal::BadStep, 0));
    }
    Ok(())
}

// The tests of four models with degrees up to d. 5 at places 0 to 3, 10.
pub fn four_models(d: u8, f: Model, g: Model, h: Model, w: Model) -> Verdict
    ensures { result ≡ verdict (four_models d (view f) (view g) (view h) (view w)) }
{
    if !model_soundness::sound(f, d) {
        return Err(Refused(Refusal::BadModel, 0));
    }
    if !model_soundness::sound(g, d) {
        return Err(Refused(Refusal::BadModel, 1));
    }
    if !model_soundness::sound(h, d) {
        return Err(Refused(Refusal::BadModel, 2));
    }
    if !model_soundness::sound(w, d) {
        return Err(Refused(Refusal::BadModel, 3));
    }
    if f.n != g.n {
        return Err(Refused(Refusal::VariablesDiffer, 0));
    }
    if f.n != h.n {
        return Err(Refused(Refusal::VariablesDiffer, 0));
    }
    if f.n != w.n {
        return Err(Refused(Refusal::VariablesDiffer, 0));
    }
    Ok(())
}

// The tests of a quotient with order d. 3, 5 at places 0 to 3, 10.
pub fn dividing(d: u8, f: Model, g: Model, h: Model, w: Model) -> Verdict
    ensures { result ≡ verdict (dividing d (view f) (view g) (view h) (view w)) }
{
    if !model_types::order_sound(d) {
        return Err(Refused(Refusal::BadLimits, 0));
    }
    four_models(d, f, g, h, w)
}

// Whether the coordinates above n are 0.
pub fn unused_zero(n: u8, xs: [i64; model_types::MOST_VARS as usize]) -> bool
    requires { n ≤ key_width }
    ensures { result ≡ all_zero (drop n xs) }
{
    for i in n..model_types::MOST_VARS {
        let x = xs[i as usize];
        if x != 0 {
            return false;
        }
    }
    true
}

// Whether the first n coordinates lie from -U to U.
pub fn used_within(n: u8, xs: [i64; model_types::MOST_VARS as usize]) -> bool
    requires { n ≤ key_width }
    ensures { result ≡ all_in_unit (take n xs) }
{
    for i in 0..n {
        let x = xs[i as usize];
        if !fixed::within_unit(x) {
            return false;
        }
    }
    true
}

// The tests of an evaluation. 5, 6 for a coordinate above n that is not 0, 9 for one of the others outside -U to U.
pub fn at_point(m: Model, xs: [i64; model_types::MOST_VARS as usize]) -> Verdict
    ensures { result ≡ verdict (at_point xs (view m)) }
{
    if !model_soundness::sound(m, model_types::MOST_DEGREE) {
        return Err(Refused(Refusal::BadModel, 0));
    }
    if !unused_zero(m.n, xs) {
        return Err(Refused(Refusal::BadStep, 0));
    }
    if !used_within(m.n, xs) {
        return Err(Refused(Refusal::LeavesBox, 0));
    }
    Ok(())
}
