// The verdict of a whole book: tests 3, 5 and 6, before any step runs.
#![tactic(auto)]

ghost use Rattle.std.specs.Prelude.{◌≡◌, ◌&&◌, ◌≤◌, eqb};
ghost use Rattle.calculus.specs.Model.{sound};
ghost use Rattle.calculus.specs.Book.{most_models, most_steps};
ghost use Rattle.model_types.specs.ModelStruct.{view};
ghost use Rattle.sheet_book.specs.BookStruct.{book_verdict};
ghost use Rattle.sheet_book_tests.specs.Unsound.{first_unsound_model, first_unsound_step};

use model_types::{Model, Refusal, Refused, Verdict};
use sheet_book::Book;

// Test 5: whether a model has the book's n, and keeps the rules with degrees up to d.
fn model_sound(n: u8, d: u8, m: Model) -> bool
    ensures { result ≡ (eqb m.n n && sound d (view m)) }
{
    if m.n != n {
        return false;
    }
    model::sound_slices(m.n, m.count, m.radius, &m.keys, &m.coefficients, d)
}

// The number of the first model that fails test 5, or the count.
fn first_unsound_model(b: Book) -> usize
    requires { b.model_count ≤ most_models }
    ensures { result ≡ first_unsound_model b }
{
    let n = b.n;
    let d = b.d;
    let count = b.model_count;
    let mut place = count;
    'models: for k in 0..count {
        let m = b.models[k];
        if !model_sound(n, d, m) {
            place = k;
            break 'models;
        }
    }
    place
}

// The number of the first step that fails test 6, or the count.
fn first_unsound_step(b: Book) -> usize
    requires { b.step_count ≤ most_steps }
    ensures { result ≡ first_unsound_step b }
{
    let n = b.n;
    let models = b.model_count;
    let count = b.step_count;
    let mut place = count;
    'steps: for i in 0..count {
        let s = b.steps[i];
        if !sheet_book::step_sound(n, models, i, s) {
            place = i;
            break 'steps;
        }
    }
    place
}

// Tests 3, 5 and 6 in order. A refusal's place is the number of the first model or step that fails.
pub fn tested(b: Book) -> Verdict
    ensures { result ≡ book_verdict b }
{
    let models = b.model_count;
    let steps = b.step_count;
    if !sheet_book::limits_sound(b.n, b.d, models, steps) {
        return Err(Refused(Refusal::BadLimits, 0));
    }
    let model = first_unsound_model(b);
    if model < models {
        return Err(Refused(Refusal::BadModel, model));
    }
    let step = first_unsound_step(b);
    if step < steps {
        return Err(Refused(Refusal::BadStep, step));
    }
    Ok(())
}
