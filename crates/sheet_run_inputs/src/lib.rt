// A step that is an input.
#![tactic(auto)]

ghost use Rattle.sheet_book.specs.BookStruct.{held_step};
ghost use Rattle.sheet_results.specs.Results.{results};
ghost use Rattle.sheet_run_laws.specs.Run.{InputStep, Iterated};

use model_types::{Key, Verdict};
use sheet_book::Step;
use sheet_run_laws::sheet_steps;

// Handed on: crates above name these through this crate.
pub use sheet_run_laws;
pub use sheet_run_laws::model;

// An input: the model that it names is its result, all of its radius carried.
pub fn input_step(
    n: u8,
    keys: &mut [Key],
    coefficients: &mut [i64],
    counts: &mut [usize],
    radii: &mut [u64],
    rows: &mut [u64],
    i: usize,
    s: Step,
) -> Verdict
    requires { InputStep n i (held_step s) (results keys.old coefficients.old counts.old radii.old)
        rows.old }
    ensures { (t : InputStep n i (held_step s)
        (results keys.old coefficients.old counts.old radii.old)
        rows.old) → Iterated t.iteration.held i result
        (results keys.new coefficients.new counts.new radii.new)
        rows.new }
{
    let a = s.a as usize;
    let f = sheet_results::result(n, a, keys, coefficients, counts, radii);
    let c = sheet_steps::input_answer(f);
    sheet_results::settled(c, i, keys, coefficients, counts, radii, rows)
}
