// Books that are handed over as numbers and slices: for each model an entry of ns, counts and radii and 64 keys and
// coefficients; for each step the four bytes of its code, a, b and v, and a value.
#![tactic(auto)]

ghost use Rattle.std.specs.Prelude.{◌≡◌, ◌<◌, length};
ghost use Rattle.c_books.specs.HandedBooks.{step_places, handed_steps, model_places, handed_models};
ghost use Rattle.c_books.specs.HandedBooks.{model_at, handed_book};

use model_types::{Key, Model};
use sheet_book::{Book, Step};

// The bytes of a step beside its value.
const FIELDS: usize = 4;

// The steps in slices of these lengths, at most 64.
pub fn step_places(fields: usize, values: usize) -> usize
    ensures { result ≡ step_places fields values }
{
    let both = model_slices::least(fields / FIELDS, values);
    model_slices::least(sheet_book::MOST_STEPS, both)
}

// The steps that are handed over, and zeros after them.
pub fn handed_steps(fields: &[u8], values: &[i64]) -> [Step; sheet_book::MOST_STEPS]
    ensures { result ≡ handed_steps fields.now values.now }
{
    let places = step_places(fields.len(), values.len());
    let mut out = [Step::ZERO; sheet_book::MOST_STEPS];
    for i in 0..places {
        let at = FIELDS * i;
        let code = fields[at];
        let a = fields[at + 1];
        let b = fields[at + 2];
        let v = fields[at + 3];
        let x = values[i];
        out[i] = Step {
            code: code,
            a: a,
            b: b,
            v: v,
            value: x,
        };
    }
    out
}

// The models in slices of these lengths, at most 16.
pub fn model_places(
    ns: usize,
    counts: usize,
    radii: usize,
    keys: usize,
    coefficients: usize,
) -> usize
    ensures { result ≡ model_places ns counts radii keys coefficients }
{
    let terms = model_slices::least(
        keys / model_types::MOST_TERMS,
        coefficients / model_types::MOST_TERMS,
    );
    let heads = model_slices::least(ns, model_slices::least(counts, radii));
    model_slices::least(sheet_book::MOST_MODELS, model_slices::least(heads, terms))
}

// The model at a place that the slices have.
pub fn model_at(
    ns: &[u8],
    counts: &[usize],
    radii: &[u64],
    keys: &[Key],
    coefficients: &[i64],
    k: usize,
) -> Model
    requires { k < model_places (length ns.now) (length counts.now) (length radii.now) (length keys.now)
        (length coefficients.now) }
    ensures { result ≡ model_at ns.now counts.now radii.now keys.now
        coefficients.now k }
{
    let n = ns[k];
    let count = counts[k];
    let radius = radii[k];
    let from = model_types::MOST_TERMS * k;
    let to = from + model_types::MOST_TERMS;
    model_slices::handed(n, count, radius, &keys[from..to], &coefficients[from..to])
}

// The models that are handed over, and zeros after them.
pub fn handed_models(
    ns: &[u8],
    counts: &[usize],
    radii: &[u64],
    keys: &[Key],
    coefficients: &[i64],
) -> [Model; sheet_book::MOST_MODELS]
    ensures { result ≡ handed_models ns.now counts.now radii.now
        keys.now coefficients.now }
{
    let places = model_places(
        ns.len(),
        counts.len(),
        radii.len(),
        keys.len(),
        coefficients.len(),
    );
    let none = model_types::without_terms(0);
    let mut out = [none; sheet_book::MOST_MODELS];
    for k in 0..places {
        let m = model_at(ns, counts, radii, keys, coefficients, k);
        out[k] = m;
    }
    out
}

// The book that is handed over.
pub fn handed_book(
    n: u8,
    d: u8,
    modelcount: usize,
    stepcount: usize,
    ns: &[u8],
    counts: &[usize],
    radii: &[u64],
    keys: &[Key],
    coefficients: &[i64],
    fields: &[u8],
    values: &[i64],
) -> Book
    ensures { result ≡ handed_book n d modelcount stepcount
        (handed_models ns.now counts.now radii.now keys.now
        coefficients.now)
        (handed_steps fields.now values.now) }
{
    Book {
        n: n,
        d: d,
        model_count: modelcount,
        step_count: stepcount,
        models: handed_models(ns, counts, radii, keys, coefficients),
        steps: handed_steps(fields, values),
    }
}
