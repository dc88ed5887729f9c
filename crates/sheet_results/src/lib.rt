// A book's models and the results of its steps, in flat slices: 64 keys and 64 coefficients for each, a count and a
// radius; and the rows of the results, four numbers for each. The models stand first, model a at place a, and the
// result of step i at place 16 + i. A step reads what it names out of them, so that nothing else is copied.
#![tactic(auto)]

ghost use Rattle.std.specs.Prelude.{◌≡◌, cond, ◌+◌, ◌≤◌, ◌<◌, length, take, set};
ghost use Rattle.calculus.specs.Model.{most_terms, zero_model};
ghost use Rattle.calculus.specs.Book.{most_models, most_steps};
ghost use Rattle.model_types.specs.ModelStruct.{view};
ghost use Rattle.model_slices.specs.HandedModels.{over};
ghost use Rattle.sheet_results.specs.Results.{results, Roomy, held_result, with_result, with_row, first_rows};
ghost use Rattle.sheet_results.specs.Results.{settled_results, settled_rows, most_row_numbers};

use model_types::{Accounted, Key, Model, Shares, Verdict};

// The numbers of a row.
const ROW: usize = 4;

// The model at a place: only the terms that its count names are copied, and zeros stand after them.
pub fn result(
    n: u8,
    j: usize,
    keys: &[Key],
    coefficients: &[i64],
    counts: &[usize],
    radii: &[u64],
) -> Model
    requires { Roomy (j + 1) (results keys.now coefficients.now counts.now radii.now) }
    ensures { view result ≡ view (held_result n
        (results keys.now coefficients.now counts.now radii.now) j) }
{
    let from = model_types::MOST_TERMS * j;
    let count = counts[j];
    let radius = radii[j];
    let mut out_keys: [Key; model_types::MOST_TERMS] = [0; model_types::MOST_TERMS];
    let mut out = [0i64; model_types::MOST_TERMS];
    model_slices::copy_keys(count, &keys[from..], &mut out_keys);
    model_slices::copy_coefficients(count, &coefficients[from..], &mut out);
    Model {
        n: n,
        count: count,
        radius: radius,
        keys: out_keys,
        coefficients: out,
    }
}

// The model at a place if it is named, or else the zero model.
pub fn operand(
    n: u8,
    named: bool,
    j: usize,
    keys: &[Key],
    coefficients: &[i64],
    counts: &[usize],
    radii: &[u64],
) -> Model
    requires { Roomy (j + 1) (results keys.now coefficients.now counts.now radii.now) }
    ensures { view result ≡ cond named (view (held_result n
        (results keys.now coefficients.now counts.now radii.now) j))
        (zero_model n) }
{
    if named {
        return result(n, j, keys, coefficients, counts, radii);
    }
    model_types::without_terms(n)
}

// The row of a result is put at a place.
fn put_row(row: Shares, i: usize, rows: &mut [u64])
    requires i_lt_most_steps { i < most_steps }
    requires rows_len { length rows.old ≡ most_row_numbers }
    ensures { rows.new ≡ with_row row i rows.old }
{
    let at = ROW * i;
    rows[at] = row.carried;
    rows[at + 1] = row.rounding;
    rows[at + 2] = row.swept;
    rows[at + 3] = row.slack;
}

// The terms that a model's count names go into two slices.
fn store_named(m: Model, keys: &mut [Key], coefficients: &mut [i64])
    requires { (most_terms ≤ length keys.old) × (most_terms ≤ length coefficients.old) }
    ensures { (keys.new ≡ over (take m.count m.keys) keys.old)
        × (coefficients.new ≡ over (take m.count m.coefficients) coefficients.old) }
{
    let count = model_slices::least(m.count, model_types::MOST_TERMS);
    model_slices::copy_keys(count, &m.keys, keys);
    model_slices::copy_coefficients(count, &m.coefficients, coefficients);
}

// A model is put at a place. (What it says of the model's own arrays is known here only, where it is handed over.)
pub fn put_model(
    m: Model,
    i: usize,
    keys: &mut [Key],
    coefficients: &mut [i64],
    counts: &mut [usize],
    radii: &mut [u64],
)
    requires { Roomy (i + 1) (results keys.old coefficients.old counts.old radii.old) }
    ensures radii_after { results keys.new coefficients.new counts.new radii.new
        ≡ with_result m i (results keys.old coefficients.old counts.old
        radii.old) }
    ensures whole { (length m.keys ≡ most_terms) × (length m.coefficients ≡ most_terms) }
{
    let from = model_types::MOST_TERMS * i;
    store_named(m, &mut keys[from..], &mut coefficients[from..]);
    counts[i] = m.count;
    radii[i] = m.radius;
}

// An answer's verdict. Unless it is refused its model is put at the place of result i, and its shares are row i.
pub fn settled(
    c: Accounted,
    i: usize,
    keys: &mut [Key],
    coefficients: &mut [i64],
    counts: &mut [usize],
    radii: &mut [u64],
    rows: &mut [u64],
) -> Verdict
    requires i_lt_most_steps { i < most_steps }
    requires roomy { Roomy (most_models + i + 1) (results keys.old coefficients.old counts.old radii.old) }
    requires rows_len { length rows.old ≡ most_row_numbers }
    ensures { (result ≡ c.answer.verdict)
        × (results keys.new coefficients.new counts.new radii.new
        ≡ settled_results c (most_models + i) (results keys.old coefficients.old
        counts.old radii.old))
        × (rows.new ≡ settled_rows c i rows.old) }
{
    let a = c.answer;
    let v = a.verdict;
    let Ok(()) = v else {
        return v;
    };
    let m = a.model;
    let row = c.shares;
    let place = sheet_book::MOST_MODELS + i;
    put_model(m, place, keys, coefficients, counts, radii);
    put_row(row, i, rows);
    v
}

// The rows of all places.
pub fn all_rows(flat: &[u64]) -> [Shares; sheet_book::MOST_STEPS]
    requires { length flat.now ≡ most_row_numbers }
    ensures { result ≡ first_rows flat.now most_steps }
{
    let mut shares = [Shares::ZERO; sheet_book::MOST_STEPS];
    for i in 0..sheet_book::MOST_STEPS {
        let at = ROW * i;
        let carried = flat[at];
        let rounding = flat[at + 1];
        let swept = flat[at + 2];
        let slack = flat[at + 3];
        shares[i] = Shares {
            carried: carried,
            rounding: rounding,
            swept: swept,
            slack: slack,
        };
    }
    shares
}
