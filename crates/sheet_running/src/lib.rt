// The run of a book: all its steps in order, then the last result or the refusal, with the rows.
#![tactic(auto)]

ghost use Rattle.std.specs.Prelude.{◌≡◌, ◌+◌, ◌*◌, ◌^◌, ◌≤◌, ◌<◌};
ghost use Rattle.calculus.specs.Book.{most_models};
ghost use Rattle.calculus.specs.Model.{most_terms};
ghost use Rattle.format.specs.HeldBook.{view_book, HeldPasses};
ghost use Rattle.sheet_book.specs.BookStruct.{held_book};
ghost use Rattle.sheet_results.specs.Results.{results};
ghost use Rattle.sheet_run_models.specs.sheet_run_laws.Run.{Prepared};
ghost use Rattle.sheet_running.specs.Running.{ran};

use model_types::{Answer, Key, Refused, Shares};
use sheet_book::Book;
use sheet_run_models::sheet_run_laws::StepList;

// What the steps lead to: the last result, or the refusal of a step; and the rows of the steps before that one, with
// zeros after them, which a report hands on.
#[derive(Clone, Copy)]
pub struct Ran {
    pub answer: Answer,
    pub shares: [Shares; sheet_book::MOST_STEPS],
}

// The numbers of all rows.
const ALL_ROWS: usize = 4 * sheet_book::MOST_STEPS;

// The places of a book's models and results, where its steps are few, and for any book; and of their terms.
pub const FEW_STEPS: usize = 24;

const FEW_PLACES: usize = sheet_book::MOST_MODELS + FEW_STEPS;

const FEW_TERMS: usize = model_types::MOST_TERMS * FEW_PLACES;

const ALL_PLACES: usize = sheet_book::MOST_MODELS + sheet_book::MOST_STEPS;

const ALL_TERMS: usize = model_types::MOST_TERMS * ALL_PLACES;

// The last result of a book that passed the tests and whose models stand in flat slices, and the rows. The first step
// that is refused ends the run, with the refusal and its number; its row and those after it stay zeros.
pub fn run_steps(
    l: StepList,
    keys: &mut [Key],
    coefficients: &mut [i64],
    counts: &mut [usize],
    radii: &mut [u64],
) -> Ran
    requires { Prepared l (results keys.old coefficients.old counts.old radii.old) }
    ensures { (t : Prepared l
        (results keys.old coefficients.old counts.old radii.old))
        → result ≡ ran (view_book t.held) }
{
    let n = l.n;
    let count = l.count;
    let mut rows = [0u64; ALL_ROWS];
    let t = sheet_run::run(l, keys, coefficients, counts, radii, &mut rows);
    let shares = sheet_results::all_rows(&rows);
    let at = t.at;
    let v = t.verdict;
    let Err(Refused(refusal, _)) = v else {
        let place = sheet_book::MOST_MODELS + (count - 1);
        let last = sheet_results::result(n, place, keys, coefficients, counts, radii);
        let whole = sheet_step_answers::cleared(last);
        return Ran {
            answer: sheet_step_answers::accepted(whole),
            shares: shares,
        };
    };
    Ran {
        answer: model_types::refuse(refusal, at),
        shares: shares,
    }
}

// A book in arrays of its own, with so many places for models and results and so many for their terms: they are filled
// with zeros where they are declared.
fn run_in<const PLACES: usize, const TERMS: usize>(b: Book) -> Ran
    requires held_passes { HeldPasses (held_book b) }
    requires sizes { (most_models + b.step_count ≤ PLACES) × (most_terms * PLACES ≤ TERMS)
        × (PLACES < 2 ^ 16) × (TERMS < 2 ^ 16) }
    ensures { result ≡ ran (view_book (held_book b)) }
{
    let mut keys: [Key; TERMS] = [0; TERMS];
    let mut coefficients = [0i64; TERMS];
    let mut counts = [0usize; PLACES];
    let mut radii = [0u64; PLACES];
    let l = sheet_run_models::load(b, &mut keys, &mut coefficients, &mut counts, &mut radii);
    run_steps(l, &mut keys, &mut coefficients, &mut counts, &mut radii)
}

// The last result of a book that passed the tests, and the rows.
pub fn last_result(b: Book) -> Ran
    requires { HeldPasses (held_book b) }
    ensures { result ≡ ran (view_book (held_book b)) }
{
    if b.step_count <= FEW_STEPS {
        return run_in::<FEW_PLACES, FEW_TERMS>(b);
    }
    run_in::<ALL_PLACES, ALL_TERMS>(b)
}
