// Books in memory that are handed over, run; and runs of sheets and of books with where the radius of each step came
// from.
#![tactic(auto)]

ghost use Rattle.std.specs.Prelude.{◌≡◌, ◌&&◌, leb, length, ◌^◌, ◌<◌, ◌≤◌};
ghost use Rattle.calculus.specs.Model.{most_terms};
ghost use Rattle.format.specs.Format.{run_sheet, sheet_rows};
ghost use Rattle.sheet_book.specs.BookStruct.{held_book};
ghost use Rattle.sheet_book.specs.SummaryStruct.{run_answer};
ghost use Rattle.sheet_book.specs.ReportStruct.{report};
ghost use Rattle.c_runs.specs.sheet.Sheet.{run_held, rows_held};
ghost use Rattle.model_slices.specs.HandedModels.{model_room, answer_numbers, run_ends};
ghost use Rattle.c_books.specs.HandedBooks.{step_places, handed_steps, model_places, handed_models};
ghost use Rattle.c_books.specs.HandedBooks.{handed_book};
ghost use Rattle.c_writes.specs.WriteCalls.{book_fits};
ghost use Rattle.c_runs.specs.SheetCalls.{run_state, called_run};
ghost use Rattle.c_shares.specs.HandedShares.{report_numbers, report_room};
ghost use Rattle.c_book_runs.specs.ShareCalls.{report_state, stored_report, called_report};

use c_runs::sheet;
use c_runs::sheet::Report;
use model_types::Key;

// Handed on: crates above name these through this crate.
pub use c_runs;
pub use c_writes;

// A book in memory is run: the refusal's number, 0 without one, or MISUSED. The result goes into the slices as a
// sheet's does.
pub fn run_models(
    n: u8,
    d: u8,
    modelcount: usize,
    stepcount: usize,
    ns: &[u8],
    counts: &[usize],
    radii: &[u64],
    bookkeys: &[Key],
    bookcoefficients: &[i64],
    fields: &[u8],
    values: &[i64],
    keys: &mut [Key],
    coefficients: &mut [i64],
    numbers: &mut [u64],
    ends: &mut [i64],
) -> u8
    ensures { run_state result keys.new coefficients.new numbers.new ends.new
        ≡ called_run
        (book_fits modelcount (model_places (length ns.now) (length counts.now)
        (length radii.now) (length bookkeys.now) (length bookcoefficients.now))
        stepcount (step_places (length fields.now) (length values.now))
        (length numbers.old)
        && model_room (length keys.old) (length coefficients.old)
        (length numbers.old))
        (leb run_ends (length ends.old))
        (run_answer (run_held (held_book (handed_book n d modelcount stepcount
        (handed_models ns.now counts.now radii.now bookkeys.now
        bookcoefficients.now)
        (handed_steps fields.now values.now)))))
        keys.old coefficients.old numbers.old ends.old }
{
    let models = c_books::model_places(
        ns.len(),
        counts.len(),
        radii.len(),
        bookkeys.len(),
        bookcoefficients.len(),
    );
    let steps = c_books::step_places(fields.len(), values.len());
    if !c_writes::book_fits(modelcount, models, stepcount, steps, numbers.len()) {
        return c_calls::MISUSED;
    }
    if !model_slices::model_room(keys.len(), coefficients.len(), numbers.len()) {
        return c_calls::MISUSED;
    }
    if ends.len() < c_runs::ENDS {
        return c_calls::MISUSED;
    }
    let b = c_books::handed_book(
        n,
        d,
        modelcount,
        stepcount,
        ns,
        counts,
        radii,
        bookkeys,
        bookcoefficients,
        fields,
        values,
    );
    let s = sheet::run_book(b);
    c_runs::store_summary(s, keys, coefficients, numbers, ends)
}

// What a run with its rows answers goes into the slices; the refusal's number.
fn store_report(
    r: Report,
    keys: &mut [Key],
    coefficients: &mut [i64],
    numbers: &mut [u64],
    ends: &mut [i64],
    shares: &mut [u64],
) -> u8
    requires { (most_terms ≤ length keys.old) × (most_terms ≤ length coefficients.old)
        × (answer_numbers ≤ length numbers.old) × (run_ends ≤ length ends.old)
        × (report_numbers ≤ length shares.old) × (r.summary.exact.remainder < 2 ^ 63) }
    ensures { report_state (run_state result keys.new coefficients.new numbers.new
        ends.new) shares.new
        ≡ stored_report r keys.old coefficients.old numbers.old
        ends.old shares.old }
{
    c_shares::store_rows(r, shares);
    let s = r.summary;
    c_runs::store_summary(s, keys, coefficients, numbers, ends)
}

// A sheet is run as by c_runs::run_sheet, and besides where the radius of each of 64 steps came from goes into
// the fifth slice: row i from place 4 × i on as carried, rounding, swept and slack.
pub fn shares_sheet(
    sheet: &[u8],
    keys: &mut [Key],
    coefficients: &mut [i64],
    numbers: &mut [u64],
    ends: &mut [i64],
    shares: &mut [u64],
) -> u8
    ensures { report_state (run_state result keys.new coefficients.new numbers.new
        ends.new) shares.new
        ≡ called_report
        (report_room (length keys.old) (length coefficients.old) (length numbers.old)
        (length ends.old) (length shares.old))
        (report (run_answer (run_sheet sheet.now)) (sheet_rows sheet.now))
        keys.old coefficients.old numbers.old ends.old
        shares.old }
{
    if !c_shares::report_room(
        keys.len(),
        coefficients.len(),
        numbers.len(),
        ends.len(),
        shares.len(),
    ) {
        return c_calls::MISUSED;
    }
    let r = sheet::run_reported(sheet);
    store_report(r, keys, coefficients, numbers, ends, shares)
}

// A book in memory is run as by run_models, and the rows go into the last slice as a sheet's do.
pub fn shares_models(
    n: u8,
    d: u8,
    modelcount: usize,
    stepcount: usize,
    ns: &[u8],
    counts: &[usize],
    radii: &[u64],
    bookkeys: &[Key],
    bookcoefficients: &[i64],
    fields: &[u8],
    values: &[i64],
    keys: &mut [Key],
    coefficients: &mut [i64],
    numbers: &mut [u64],
    ends: &mut [i64],
    shares: &mut [u64],
) -> u8
    ensures { report_state (run_state result keys.new coefficients.new numbers.new
        ends.new) shares.new
        ≡ called_report
        (book_fits modelcount (model_places (length ns.now) (length counts.now)
        (length radii.now) (length bookkeys.now) (length bookcoefficients.now))
        stepcount (step_places (length fields.now) (length values.now))
        (length numbers.old)
        && report_room (length keys.old) (length coefficients.old)
        (length numbers.old) (length ends.old) (length shares.old))
        (report (run_answer (run_held (held_book (handed_book n d modelcount stepcount
        (handed_models ns.now counts.now radii.now bookkeys.now
        bookcoefficients.now)
        (handed_steps fields.now values.now)))))
        (rows_held (held_book (handed_book n d modelcount stepcount
        (handed_models ns.now counts.now radii.now bookkeys.now
        bookcoefficients.now)
        (handed_steps fields.now values.now)))))
        keys.old coefficients.old numbers.old ends.old
        shares.old }
{
    let models = c_books::model_places(
        ns.len(),
        counts.len(),
        radii.len(),
        bookkeys.len(),
        bookcoefficients.len(),
    );
    let steps = c_books::step_places(fields.len(), values.len());
    if !c_writes::book_fits(modelcount, models, stepcount, steps, numbers.len()) {
        return c_calls::MISUSED;
    }
    if !c_shares::report_room(
        keys.len(),
        coefficients.len(),
        numbers.len(),
        ends.len(),
        shares.len(),
    ) {
        return c_calls::MISUSED;
    }
    let b = c_books::handed_book(
        n,
        d,
        modelcount,
        stepcount,
        ns,
        counts,
        radii,
        bookkeys,
        bookcoefficients,
        fields,
        values,
    );
    let r = sheet::run_book_reported(b);
    store_report(r, keys, coefficients, numbers, ends, shares)
}
