// Whether a table for products serves a step.
#![tactic(auto)]

ghost use Rattle.std.specs.Prelude.{◌≡◌, true, ◌≤◌, leb};
ghost use Rattle.calculus.specs.Model.{most_terms};
ghost use Rattle.sheet_run_laws.specs.model.OperationContracts.{most_entries, quotient_products};
ghost use Rattle.sheet_book.specs.BookStruct.{held_step};
ghost use Rattle.sheet_run_laws.specs.Run.{Counted, Fit};

use sheet_book::Step;

// Handed on: crates above name these through this crate.
pub use sheet_run_laws;

// Whether there is room for the products of a quotient's forms, where g, h and w have so many terms.
fn quotient_fits(g: usize, h: usize, w: usize, room: usize) -> bool
    requires { (g ≤ most_terms) × (h ≤ most_terms) × (w ≤ most_terms) }
    ensures { result ≡ leb (quotient_products g h w) room }
{
    let products = g * h;
    let others = model_types::MOST_TERMS * w;
    products <= room && others <= room
}

// Whether a table for so many products serves a step. A substitution multiplies the result that b names by models of up
// to 64 terms.
pub fn fits(s: Step, room: usize, counts: &[usize]) -> bool
    requires { Counted (held_step s) counts.now }
    ensures { (result ≡ true → Fit (held_step s) room counts.now) × (most_entries ≤ room → result ≡ true) }
{
    let code = s.code;
    match code {
        sheet_run_laws::MULTIPLY => {
            let a = sheet_book::MOST_MODELS + s.a as usize;
            let b = sheet_book::MOST_MODELS + s.b as usize;
            let x = counts[a];
            let y = counts[b];
            let products = x * y;
            products <= room
        }
        sheet_run_laws::SUBSTITUTE => {
            let b = sheet_book::MOST_MODELS + s.b as usize;
            let g = counts[b];
            let most = model_types::MOST_TERMS * g;
            most <= room
        }
        sheet_run_laws::QUOTIENT => {
            let b = sheet_book::MOST_MODELS + s.b as usize;
            let v = sheet_book::MOST_MODELS + s.v as usize;
            let z = s.value;
            let last = sheet_book::MOST_MODELS + fixed::magnitude(z) as usize;
            let g = counts[b];
            let h = counts[v];
            let w = counts[last];
            quotient_fits(g, h, w, room)
        }
        _ => true,
    }
}
