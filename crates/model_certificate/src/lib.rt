// What the two forms of a proposal certify: a radius around the proposed quotient, from the ranges of both.
#![tactic(auto)]

ghost use Rattle.std.specs.Prelude.{◌≡◌, ◌≤◌, T, length};
ghost use Rattle.numbers.specs.Fixed.{span_limit};
ghost use Rattle.calculus.specs.Model.{most_degree, most_terms, sound};
ghost use Rattle.calculus.specs.Refusal.{at_place};
ghost use Rattle.calculus.specs.Operations.{largest_value, certified};
ghost use Rattle.model_types.specs.ModelStruct.{view, answer};
ghost use Rattle.model_slices.specs.HandedModels.{handed};
ghost use Rattle.model_slices.specs.HeldModels.{held};
ghost use Rattle.model_places.specs.LeftModels.{Lies};

use model_types::{Answer, Key, MOST_TERMS, Model, Refusal};

// The largest size of the ends of a form's range: beta or mu.
fn largest_value(count: usize, radius: u64, keys: &[Key], coefficients: &[i64]) -> u64
    requires { Lies count radius keys.now coefficients.now }
    ensures { (w : Lies count radius keys.now coefficients.now)
        → result ≡ largest_value (view (held w.vars count radius keys.now coefficients.now)) }
{
    let ends = model_range::range_slices(count, radius, keys, coefficients);
    let low = fixed::magnitude(ends.low);
    let high = fixed::magnitude(ends.high);
    low.max(high)
}

// The struct of a model in slices: its terms, and zeros after them.
fn copied(n: u8, count: usize, radius: u64, keys: &[Key], coefficients: &[i64]) -> Model
    requires count_le_most_terms { count ≤ most_terms }
    requires count_in_bounds { (count ≤ length keys.now) × (count ≤ length coefficients.now) }
    ensures { result ≡ held n count radius keys.now coefficients.now }
{
    let mut kept: [Key; MOST_TERMS] = [0; MOST_TERMS];
    let mut terms = [0i64; MOST_TERMS];
    model_slices::copy_keys(count, keys, &mut kept);
    model_slices::copy_coefficients(count, coefficients, &mut terms);
    Model {
        n,
        count,
        radius,
        keys: kept,
        coefficients: terms,
    }
}

// h with the radius that beta and mu certify. 12 when mu is U or more, then 7.
fn certified(n: u8, count: usize, keys: &[Key], coefficients: &[i64], beta: u64, mu: u64) -> Answer
    requires t { T (sound most_degree (view (handed n count 0 keys.now coefficients.now))) }
    requires count_in_bounds { (count ≤ length keys.now) × (count ≤ length coefficients.now) }
    requires beta_le_span_limit { beta ≤ span_limit }
    ensures { result ≡ answer (at_place 0 (certified
        (view (handed n count 0 keys.now coefficients.now)) beta mu)) }
{
    let unit = fixed::magnitude(fixed::unit());
    if unit <= mu {
        return model_types::refuse(Refusal::Uncertified, 0);
    }
    let product = beta * unit;
    let room = unit - mu;
    let radius = fixed::divided_up(product, room);
    model_limits::limited(copied(n, count, radius, keys, coefficients))
}

// h with the radius that the two forms certify, all three in slices.
pub fn judged(
    n: u8,
    count: usize,
    keys: &[Key],
    coefficients: &[i64],
    county: usize,
    radiusy: u64,
    keysy: &[Key],
    coefficientsy: &[i64],
    countz: usize,
    radiusz: u64,
    keysz: &[Key],
    coefficientsz: &[i64],
) -> Answer
    requires t { T (sound most_degree (view (handed n count 0 keys.now coefficients.now))) }
    requires count_in_bounds { (count ≤ length keys.now) × (count ≤ length coefficients.now) }
    requires lies { Lies county radiusy keysy.now coefficientsy.now }
    requires lies_2 { Lies countz radiusz keysz.now coefficientsz.now }
    ensures { (v : Lies county radiusy keysy.now coefficientsy.now)
        (w : Lies countz radiusz keysz.now coefficientsz.now)
        → result ≡ answer (at_place 0 (certified
        (view (handed n count 0 keys.now coefficients.now))
        (largest_value (view (held v.vars county radiusy keysy.now coefficientsy.now)))
        (largest_value (view (held w.vars countz radiusz keysz.now
        coefficientsz.now))))) }
{
    let beta = largest_value(county, radiusy, keysy, coefficientsy);
    let mu = largest_value(countz, radiusz, keysz, coefficientsz);
    let quotient = certified(n, count, keys, coefficients, beta, mu);
    quotient
}
