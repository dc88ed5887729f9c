// Sheets: read, written, stepped through record by record, and run. Each function takes anything, whatever the bytes or
// the fields hold. The run of a sheet or a book is made here: its steps in order, then the last result with its range
// and its integral, and the rows.
#![tactic(auto)]

ghost use Rattle.std.specs.Prelude.{◌≡◌, []};
ghost use Rattle.calculus.specs.Book.{run_sound};
ghost use Rattle.calculus.specs.Shares.{all_rows, rows_sound};
ghost use Rattle.format.specs.HeldBook.{view_book, HeldPasses};
ghost use Rattle.sheet_book.specs.BookStruct.{held_book};
ghost use Rattle.sheet_book.specs.SummaryStruct.{run_answer, refused_summary};
ghost use Rattle.sheet_book.specs.ReportStruct.{report};
ghost use Rattle.sheet.specs.Sheet.{Exact, ExactBook, Encloses, EnclosesBook};
ghost use Rattle.sheet.specs.Sheet.{Reports, ReportsBook};
ghost use Rattle.sheet.specs.ReadRun.{report_read, RunOf};

pub use model_types::{Model, Refusal, Refused, Shares, Verdict};
pub use sheet_book::{Book, Ends, Kind, Read, Report, Start, Step, Summary, Written};
pub use sheet_records::{Opened, Records};
use sheet_run_bytes::sheet_running;
use sheet_run_bytes::sheet_running::Ran;
use sheet_writer::sheet_book_tests;

// ---- reading, writing and stepping: made in crates of their own
// A sheet's book, or the first refusal of tests 1 to 6 in their order, with a book of zeros.
pub use sheet_reader::read;
// A book's sheet at the start of a borrowed buffer, its length answered; tests 3, 5, 6 and 11 come first, and a refused
// write changes no byte.
pub use sheet_writer::write;
// Tests 1 to 6, and the sheet at its first record: `next` hands out one record after the other, after the last none.
pub use sheet_records::open;
// The bytes of record i, counted from 0: empty where there is none.
pub use sheet_records::record;
// How many records there are: none of a refused sheet.
pub use sheet_records::record_count;
// The same as `open` and the methods of `Records`, by a place alone: for programs that cannot hold the struct.
pub use sheet_records::{bytes_from, kind_from, opened_at, place_after};

// ---- the run

// The report of what a run leads to: its last result with range and integral, or a refusal; and the rows.
fn summed_up(ran: Ran) -> Report
    requires { RunOf ran }
    ensures { (t : RunOf ran) → result ≡ report_read t.read }
{
    let answer = ran.answer;
    let shares = ran.shares;
    let v = answer.verdict;
    let Ok(()) = v else {
        return Report {
            summary: sheet_summary::refused(v),
            shares: shares,
        };
    };
    Report {
        summary: sheet_summary::summarized(answer.model),
        shares: shares,
    }
}

// The run of a book that passed the tests, with its rows: its last result with range and integral, or the refusal of a
// step.
fn run_passed(b: Book) -> Report
    requires { HeldPasses (held_book b) }
    ensures { result ≡ report (run_answer (run_sound (view_book (held_book b))))
        (all_rows (rows_sound (view_book (held_book b)))) }
{
    let ran = sheet_running::last_result(b);
    summed_up(ran)
}

// A run that a test refuses: zeros for all steps.
fn refused_report(v: Verdict) -> Report
    ensures { result ≡ report (refused_summary v) (all_rows []) }
{
    Report {
        summary: sheet_summary::refused(v),
        shares: [Shares::ZERO; sheet_book::MOST_STEPS],
    }
}

// The run of a sheet, whatever its bytes are: tests 1 to 6, then its steps, which 7, 8, 9 or 12 can end. `exact` says
// all that is answered. `encloses` says of an accepted sheet, for all functions within its models (with an
// antiderivative among the steps: for all polynomials, where no quotient feeds one): the exact outcome lies within the
// result's radius and inside its range; and on a sheet without a quotient, for polynomials, the exact integral lies
// inside the integral's ends.
pub fn run(sheet: &[u8]) -> Summary
    ensures exact { Exact sheet.now result }
    ensures encloses { Encloses sheet.now result }
{
    let r = run_reported(sheet);
    r.summary
}

// The run of a book, whatever its fields hold: tests 3, 5 and 6, then as a sheet.
pub fn run_book(b: Book) -> Summary
    ensures exact { ExactBook (held_book b) result }
    ensures encloses { EnclosesBook (held_book b) result }
{
    let r = run_book_reported(b);
    r.summary
}

// The run of a sheet, and of each step where the radius of its result came from: zeros from a refused step on, and
// where there is no step.
pub fn run_reported(sheet: &[u8]) -> Report
    ensures exact { Reports sheet.now result }
    ensures encloses { Encloses sheet.now result.summary }
{
    let ran = sheet_run_bytes::run_sheet(sheet);
    summed_up(ran)
}

// And of a book. (Two functions: a book is tested by itself, and the run of a sheet builds none.)
pub fn run_book_reported(b: Book) -> Report
    ensures exact { ReportsBook (held_book b) result }
    ensures encloses { EnclosesBook (held_book b) result.summary }
{
    let v = sheet_book_tests::tested(b);
    let Ok(()) = v else {
        return refused_report(v);
    };
    run_passed(b)
}
