// The program's lines, made of a sheet and written into a borrowed buffer.
#![tactic(auto)]

ghost use Rattle.std.specs.Prelude.{◌≡◌, T, length};
ghost use Rattle.calculus.specs.Model.{most_degree, sound};
ghost use Rattle.calculus.specs.Refusal.{done};
ghost use Rattle.model_types.specs.ModelStruct.{view};
ghost use Rattle.format.specs.Lines.{lines, printed};
ghost use Rattle.text_decimal.specs.Put.{Put, Room};
ghost use Rattle.text.specs.Text.{laid};
ghost use Rattle.sheet_book.specs.SummaryStruct.{summary_of};

use model_types::{Refused, number};
use sheet::{Summary, run};

// Handed on: crates above name these through this crate.
pub use sheet;

// No text is longer, whatever the sheet: a buffer of this length always holds the whole of it.
pub const MOST_TEXT: usize = 4096;

// The lines of an accepted sheet.
fn put_summary(out: &mut [u8], summary: Summary) -> usize
    requires { T (sound most_degree (view summary.model)) × Room 0 (lines (done (summary_of summary))) }
    ensures { Put out.old 0 (lines (done (summary_of summary))) out.new result }
{
    let m = summary.model;
    let range = summary.range;
    let integral = summary.integral;
    let exact = summary.exact;
    let radius = text_lines::put_radius(out, m.radius);
    let terms = text_lines::put_terms(out, radius, m);
    let next = text_lines::put_ends(out, terms, b"range", range.low, range.high);
    let last = text_lines::put_ends(out, next, b"integral", integral.low, integral.high);
    text_lines::put_exact_of(out, last, m.n, exact.quotient, exact.remainder)
}

// Runs a sheet and writes its lines from the start of the buffer, as much of them as it has room for; the rest of the
// buffer stays. The answer is the length of the whole text: one above the buffer's length says that the text was cut
// off.
pub fn print(sheet: &[u8], out: &mut [u8]) -> usize
    ensures { (result ≡ length (printed sheet.now))
        × (out.new ≡ laid (printed sheet.now) out.old) }
{
    let summary = run(sheet);
    let verdict = summary.verdict;
    let Err(Refused(refusal, place)) = verdict else {
        return put_summary(out, summary);
    };
    text_lines::put_refusal(out, number(refusal), place)
}
