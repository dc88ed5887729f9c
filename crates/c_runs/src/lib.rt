// Sheets that are handed over and run, and what a run answers stored into slices.
#![tactic(auto)]

ghost use Rattle.std.specs.Prelude.{◌≡◌, ◌^◌, ◌<◌, ◌≤◌, leb, length};
ghost use Rattle.calculus.specs.Model.{most_terms};
ghost use Rattle.format.specs.Format.{run_sheet};
ghost use Rattle.sheet_book.specs.SummaryStruct.{run_answer};
ghost use Rattle.model_slices.specs.HandedModels.{answer_numbers, run_ends, model_room};
ghost use Rattle.c_runs.specs.SheetCalls.{six_ends, run_state, stored_summary, called_run};

use model_types::Key;
use sheet::{Ends, Summary};
use sheet_book::Exact;

// Handed on: crates above name these through this crate.
pub use sheet;

// The ends of a run: those of the range and those of the integral, the quotient and the remainder.
pub const ENDS: usize = 6;

// Two pairs of ends, the quotient and the remainder go into a slice.
fn store_ends(range: Ends, integral: Ends, exact: Exact, ends: &mut [i64])
    requires { (run_ends ≤ length ends.old) × (exact.remainder < 2 ^ 63) }
    ensures { ends.new ≡ six_ends range integral exact ends.old }
{
    let low = range.low;
    let high = range.high;
    let least = integral.low;
    let most = integral.high;
    let quotient = exact.quotient;
    let remainder = fixed::signed(exact.remainder);
    ends[0] = low;
    ends[1] = high;
    ends[2] = least;
    ends[3] = most;
    ends[4] = quotient;
    ends[5] = remainder;
}

// What a run answers goes into the slices; the refusal's number.
pub fn store_summary(
    s: Summary,
    keys: &mut [Key],
    coefficients: &mut [i64],
    numbers: &mut [u64],
    ends: &mut [i64],
) -> u8
    requires { (most_terms ≤ length keys.old) × (most_terms ≤ length coefficients.old)
        × (answer_numbers ≤ length numbers.old) × (run_ends ≤ length ends.old) × (s.exact.remainder < 2 ^ 63) }
    ensures { run_state result keys.new coefficients.new numbers.new ends.new
        ≡ stored_summary s keys.old coefficients.old numbers.old
        ends.old }
{
    let m = s.model;
    let v = s.verdict;
    let range = s.range;
    let integral = s.integral;
    let exact = s.exact;
    model_slices::store_terms(m, keys, coefficients);
    model_slices::store_numbers(model_slices::verdict_place(v), m, numbers);
    store_ends(range, integral, exact, ends);
    model_slices::verdict_number(v)
}

// A sheet is run: the refusal's number, 0 without one, or MISUSED. The result's 64 keys and coefficients go into two
// slices, the refusal's place, n, the count and the radius into the third, the ends of the range and of the integral,
// the quotient and the remainder into the fourth.
pub fn run_sheet(
    sheet: &[u8],
    keys: &mut [Key],
    coefficients: &mut [i64],
    numbers: &mut [u64],
    ends: &mut [i64],
) -> u8
    ensures { run_state result keys.new coefficients.new numbers.new ends.new
        ≡ called_run (model_room (length keys.old) (length coefficients.old)
        (length numbers.old)) (leb run_ends (length ends.old))
        (run_answer (run_sheet sheet.now))
        keys.old coefficients.old numbers.old ends.old }
{
    if !model_slices::model_room(keys.len(), coefficients.len(), numbers.len()) {
        return c_calls::MISUSED;
    }
    if ends.len() < ENDS {
        return c_calls::MISUSED;
    }
    let s = sheet::run(sheet);
    store_summary(s, keys, coefficients, numbers, ends)
}
