// The tests of the calls on models that lie in slices, without a struct on the way.
#![tactic(auto)]

ghost use Rattle.std.specs.Prelude.{true, ◌≡◌, length};
ghost use Rattle.model_types.specs.ModelStruct.{view, verdict};
ghost use Rattle.model_slices.specs.HandedModels.{handed, borrowed};
ghost use Rattle.model_call_tests.specs.Admission.{single_model, sweeping, integrating, two_models, ordered};

use model_types::{Key, Refusal, Refused, Verdict};

// The test of a call of one model. 5.
pub fn single_model(n: u8, count: usize, radius: u64, keys: &[Key], coefficients: &[i64]) -> Verdict
    requires { borrowed count (length keys.now) (length coefficients.now) ≡ true }
    ensures { result ≡ verdict (single_model
        (view (handed n count radius keys.now coefficients.now))) }
{
    if !model_soundness::sound_slices(
        n,
        count,
        radius,
        keys,
        coefficients,
        model_types::MOST_DEGREE,
    ) {
        return Err(Refused(Refusal::BadModel, 0));
    }
    Ok(())
}

// The tests of a sweep. 5, 6.
pub fn sweeping(
    t: i64,
    n: u8,
    count: usize,
    radius: u64,
    keys: &[Key],
    coefficients: &[i64],
) -> Verdict
    requires { borrowed count (length keys.now) (length coefficients.now) ≡ true }
    ensures { result ≡ verdict (sweeping t
        (view (handed n count radius keys.now coefficients.now))) }
{
    let v = single_model(n, count, radius, keys, coefficients);
    let Ok(()) = v else {
        return v;
    };
    if !fixed::threshold_within_limits(t) {
        return Err(Refused(Refusal::BadStep, 0));
    }
    Ok(())
}

// The tests of an antiderivative in variable i, with order d. 3, 5, 6.
pub fn integrating(
    d: u8,
    i: u8,
    n: u8,
    count: usize,
    radius: u64,
    keys: &[Key],
    coefficients: &[i64],
) -> Verdict
    requires { borrowed count (length keys.now) (length coefficients.now) ≡ true }
    ensures { result ≡ verdict (integrating d i
        (view (handed n count radius keys.now coefficients.now))) }
{
    if !model_types::order_sound(d) {
        return Err(Refused(Refusal::BadLimits, 0));
    }
    if !model_soundness::sound_slices(n, count, radius, keys, coefficients, d) {
        return Err(Refused(Refusal::BadModel, 0));
    }
    if !model_types::from_one(n, i) {
        return Err(Refused(Refusal::BadStep, 0));
    }
    Ok(())
}

// The tests of two models with degrees up to d. 5 at place 0 or 1, 10.
pub fn two_models(
    d: u8,
    n1: u8,
    count1: usize,
    radius1: u64,
    keys1: &[Key],
    coefficients1: &[i64],
    n2: u8,
    count2: usize,
    radius2: u64,
    keys2: &[Key],
    coefficients2: &[i64],
) -> Verdict
    requires coefficients1_value { borrowed count1 (length keys1.now) (length coefficients1.now) ≡ true }
    requires coefficients2_value { borrowed count2 (length keys2.now) (length coefficients2.now) ≡ true }
    ensures { result ≡ verdict
        (two_models d (view (handed n1 count1 radius1 keys1.now coefficients1.now))
        (view (handed n2 count2 radius2 keys2.now coefficients2.now))) }
{
    if !model_soundness::sound_slices(n1, count1, radius1, keys1, coefficients1, d) {
        return Err(Refused(Refusal::BadModel, 0));
    }
    if !model_soundness::sound_slices(n2, count2, radius2, keys2, coefficients2, d) {
        return Err(Refused(Refusal::BadModel, 1));
    }
    if n1 != n2 {
        return Err(Refused(Refusal::VariablesDiffer, 0));
    }
    Ok(())
}

// The tests of a product with order d. 3, 5 at place 0 or 1, 10.
pub fn ordered(
    d: u8,
    n1: u8,
    count1: usize,
    radius1: u64,
    keys1: &[Key],
    coefficients1: &[i64],
    n2: u8,
    count2: usize,
    radius2: u64,
    keys2: &[Key],
    coefficients2: &[i64],
) -> Verdict
    requires coefficients1_value { borrowed count1 (length keys1.now) (length coefficients1.now) ≡ true }
    requires coefficients2_value { borrowed count2 (length keys2.now) (length coefficients2.now) ≡ true }
    ensures { result ≡ verdict
        (ordered d (view (handed n1 count1 radius1 keys1.now coefficients1.now))
        (view (handed n2 count2 radius2 keys2.now coefficients2.now))) }
{
    if !model_types::order_sound(d) {
        return Err(Refused(Refusal::BadLimits, 0));
    }
    two_models(
        d,
        n1,
        count1,
        radius1,
        keys1,
        coefficients1,
        n2,
        count2,
        radius2,
        keys2,
        coefficients2,
    )
}
