// Models that are handed over as numbers and slices, and models stored into slices. A model is its n, its count and its
// radius, and slices of keys and of coefficients, which may be longer than its count.
#![tactic(auto)]

ghost use Rattle.std.specs.Prelude.{◌≡◌, ◌≤◌, min, length, take};
ghost use Rattle.calculus.specs.Model.{most_terms};
ghost use Rattle.model_types.specs.ModelStruct.{view, verdict_number, verdict_place};
ghost use Rattle.model_slices.specs.HandedModels.{handed, borrowed, over};
ghost use Rattle.model_slices.specs.HandedModels.{answer_numbers, model_room};
ghost use Rattle.model_slices.specs.HandedModels.{stored_keys, stored_coefficients, stored_numbers};

use model_types::{Key, Model, Refused, Shares, Verdict};

// Handed on: crates above name these through this crate.
pub use model_types;

// The answer of a product. Its terms, unless it is refused, are the first `count` of two arrays, by wide keys.
#[derive(Clone, Copy)]
pub struct Kept {
    pub count: usize,
    pub radius: u64,
    pub shares: Shares,
    pub verdict: Verdict,
}

// The numbers of a model's answer: the refusal's place, n, the count, the radius.
const NUMBERS: usize = 4;

// The lesser of two.
pub fn least(a: usize, b: usize) -> usize
    ensures { result ≡ min a b }
{
    a.min(b)
}

// Whether slices of these lengths have every place that a count names. A count above 64 names 64 places.
pub fn borrowed(count: usize, keys: usize, coefficients: usize) -> bool
    ensures { result ≡ borrowed count keys coefficients }
{
    let named = least(count, model_types::MOST_TERMS);
    named <= keys && named <= coefficients
}

// ---- terms copied
// The first keys of a slice go into another.
pub fn copy_keys(count: usize, keys: &[Key], out: &mut [Key])
    requires { (count ≤ length keys.now) × (count ≤ length out.old) }
    ensures { out.new ≡ over (take count keys.now) out.old }
{
    // No copy_from_slice: it asks for memmove, which the library does not ask of a program.
    for i in 0..count {
        let k = keys[i];
        out[i] = k;
    }
}

// The first coefficients.
pub fn copy_coefficients(count: usize, coefficients: &[i64], out: &mut [i64])
    requires { (count ≤ length coefficients.now) × (count ≤ length out.old) }
    ensures { out.new ≡ over (take count coefficients.now) out.old }
{
    // No copy_from_slice: it asks for memmove, which the library does not ask of a program.
    for i in 0..count {
        let c = coefficients[i];
        out[i] = c;
    }
}

// The model that is handed over. Its places are the first 64 of the slices, and zeros where these end before.
pub fn handed(n: u8, count: usize, radius: u64, keys: &[Key], coefficients: &[i64]) -> Model
    ensures { result ≡ handed n count radius keys.now coefficients.now }
{
    let both = least(keys.len(), coefficients.len());
    let places = least(model_types::MOST_TERMS, both);
    let mut out_keys: [Key; model_types::MOST_TERMS] = [0; model_types::MOST_TERMS];
    let mut out = [0i64; model_types::MOST_TERMS];
    copy_keys(places, keys, &mut out_keys);
    copy_coefficients(places, coefficients, &mut out);
    Model {
        n,
        count,
        radius,
        keys: out_keys,
        coefficients: out,
    }
}

// The same model to every call: only the places that its count names are copied, and zeros stand after them.
pub fn taken(n: u8, count: usize, radius: u64, keys: &[Key], coefficients: &[i64]) -> Model
    ensures { view result ≡ view (handed n count radius keys.now coefficients.now) }
{
    let both = least(keys.len(), coefficients.len());
    let named = least(count, model_types::MOST_TERMS);
    let places = least(named, both);
    let mut out_keys: [Key; model_types::MOST_TERMS] = [0; model_types::MOST_TERMS];
    let mut out = [0i64; model_types::MOST_TERMS];
    copy_keys(places, keys, &mut out_keys);
    copy_coefficients(places, coefficients, &mut out);
    Model {
        n,
        count,
        radius,
        keys: out_keys,
        coefficients: out,
    }
}

// Document 01's number of a verdict, 0 without a refusal.
pub fn verdict_number(verdict: Verdict) -> u8
    ensures { result ≡ verdict_number verdict }
{
    match verdict {
        Ok(()) => 0,
        Err(Refused(refusal, place)) => model_types::number(refusal),
    }
}

// And its place.
pub fn verdict_place(verdict: Verdict) -> usize
    ensures { result ≡ verdict_place verdict }
{
    match verdict {
        Ok(()) => 0,
        Err(Refused(refusal, place)) => place,
    }
}

// All 64 places of a model's terms go into two slices.
pub fn store_terms(m: Model, keys: &mut [Key], coefficients: &mut [i64])
    requires { (most_terms ≤ length keys.old) × (most_terms ≤ length coefficients.old) }
    ensures { (keys.new ≡ stored_keys m keys.old)
        × (coefficients.new ≡ stored_coefficients m coefficients.old) }
{
    copy_keys(model_types::MOST_TERMS, &m.keys, keys);
    copy_coefficients(model_types::MOST_TERMS, &m.coefficients, coefficients);
}

// The numbers of an answer.
pub fn store_numbers(place: usize, m: Model, numbers: &mut [u64])
    requires { answer_numbers ≤ length numbers.old }
    ensures { numbers.new ≡ stored_numbers place m numbers.old }
{
    numbers[0] = place as u64;
    numbers[1] = m.n as u64;
    numbers[2] = m.count as u64;
    numbers[3] = m.radius;
}

// Whether slices of these lengths have room for a model's answer.
pub fn model_room(keys: usize, coefficients: usize, numbers: usize) -> bool
    ensures { result ≡ model_room keys coefficients numbers }
{
    model_types::MOST_TERMS <= keys && model_types::MOST_TERMS <= coefficients && NUMBERS <= numbers
}
