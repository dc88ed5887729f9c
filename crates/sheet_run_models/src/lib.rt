// The models of a book are put into flat slices, model a at place a, and what is left of the book is its list of steps.
#![tactic(auto)]

ghost use Rattle.std.specs.Prelude.{◌+◌};
ghost use Rattle.calculus.specs.Book.{most_models};
ghost use Rattle.format.specs.HeldBook.{HeldPasses};
ghost use Rattle.sheet_book.specs.BookStruct.{held_book};
ghost use Rattle.sheet_results.specs.Results.{results, Roomy};
ghost use Rattle.sheet_run_laws.specs.Run.{SameSteps, Loaded};

use model_types::Key;
use sheet_book::Book;
use sheet_run_laws::StepList;

// Handed on: crates above name these through this crate.
pub use sheet_run_laws;

// The models, one after the other; and the steps.
pub fn load(
    b: Book,
    keys: &mut [Key],
    coefficients: &mut [i64],
    counts: &mut [usize],
    radii: &mut [u64],
) -> StepList
    requires held_passes { HeldPasses (held_book b) }
    requires roomy { Roomy (most_models + b.step_count) (results keys.old coefficients.old counts.old
        radii.old) }
    ensures { SameSteps (held_book b) result
        × Loaded (held_book b)
        (results keys.new coefficients.new counts.new radii.new)
        × Roomy (most_models + result.count)
        (results keys.new coefficients.new counts.new radii.new) }
{
    let count = b.model_count;
    for k in 0..count {
        let m = b.models[k];
        sheet_results::put_model(m, k, keys, coefficients, counts, radii);
    }
    let steps = b.steps;
    StepList {
        n: b.n,
        d: b.d,
        count: b.step_count,
        steps: steps,
    }
}
