// Any step but an input, a product or a quotient: the results that it names are taken out, its own is put.
#![tactic(auto)]

ghost use Rattle.std.specs.Prelude.{◌≡◌};
ghost use Rattle.sheet_book.specs.BookStruct.{held_step};
ghost use Rattle.sheet_results.specs.Results.{results};
ghost use Rattle.sheet_run_laws.specs.sheet_steps.Steps.{names_second};
ghost use Rattle.sheet_run_laws.specs.Run.{Iteration, Iterated, Served};
ghost use Rattle.sheet_run_laws.specs.Run.{input_code, multiply_code, quotient_code};

use model_types::{Key, Verdict};
use sheet_book::Step;
use sheet_run_laws::sheet_steps;

// Whether a step, a quotient apart, names a second result. (Its code is the byte that the book holds; that it is one of
// the eleven is test 6's, which is made before any step runs.)
fn names_second(code: u8) -> bool
    ensures { result ≡ names_second code }
{
    if code < sheet_steps::ADD {
        return false;
    }
    code <= sheet_steps::SUBSTITUTE
}

// Any other step: what it does not name is not copied.
pub fn other_step(
    n: u8,
    d: u8,
    s: Step,
    i: usize,
    keys: &mut [Key],
    coefficients: &mut [i64],
    counts: &mut [usize],
    radii: &mut [u64],
    rows: &mut [u64],
    slots: &mut [u16],
    places: &mut [u64],
    sums: &mut [i64],
) -> Verdict
    requires iteration { Iteration n d i (held_step s) (results keys.old coefficients.old counts.old radii.old)
        rows.old }
    requires served { Served (held_step s) counts.old slots.old places.old sums.old }
    requires fact { ((held_step s).code ≡ input_code → ⊥) × ((held_step s).code ≡ multiply_code → ⊥)
        × ((held_step s).code ≡ quotient_code → ⊥) }
    ensures { (t : Iteration n d i (held_step s)
        (results keys.old coefficients.old counts.old radii.old)
        rows.old) → Iterated t.held i result
        (results keys.new coefficients.new counts.new radii.new)
        rows.new }
{
    let code = s.code;
    let a = sheet_book::MOST_MODELS + s.a as usize;
    let b = sheet_book::MOST_MODELS + s.b as usize;
    let first = sheet_steps::NEGATE <= code;
    let second = names_second(code);
    let f = sheet_results::operand(n, first, a, keys, coefficients, counts, radii);
    let g = sheet_results::operand(n, second, b, keys, coefficients, counts, radii);
    let c = sheet_steps::step_answer(n, d, s, f, g, slots, places, sums);
    sheet_results::settled(c, i, keys, coefficients, counts, radii, rows)
}
