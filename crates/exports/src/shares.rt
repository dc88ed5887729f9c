// Sheets and books in memory, run as in runs.rt, with where the radius of each step came from.
ghost use Rattle.std.specs.Prelude.{◌≡◌, ◌&&◌, length};
ghost use Rattle.format.specs.Format.{run_sheet, sheet_rows};
ghost use Rattle.sheet_book.specs.BookStruct.{held_book};
ghost use Rattle.sheet_book.specs.SummaryStruct.{run_answer};
ghost use Rattle.sheet_book.specs.ReportStruct.{report};
ghost use Rattle.c_book_runs.specs.sheet.Sheet.{run_held, rows_held};
ghost use Rattle.c_books.specs.HandedBooks.{step_places, handed_steps, model_places, handed_models};
ghost use Rattle.c_books.specs.HandedBooks.{handed_book};
ghost use Rattle.c_shares.specs.HandedShares.{report_room};
ghost use Rattle.c_book_runs.specs.c_writes.WriteCalls.{book_fits};
ghost use Rattle.c_book_runs.specs.c_runs.SheetCalls.{run_state};
ghost use Rattle.c_book_runs.specs.ShareCalls.{report_state, called_report};

use model_types::Key;

// A sheet is run as by hechroung_raw_run_sheet, and besides where the radius of each of 64 steps came from goes into
// the fifth slice: row i from place 4 × i on as carried, rounding, swept and slack.
#[unsafe(no_mangle)]
pub extern "C" fn hechroung_raw_shares_sheet(
    sheet: &[u8],
    keys: &mut [Key],
    coefficients: &mut [i64],
    numbers: &mut [u64],
    ends: &mut [i64],
    shares: &mut [u64],
) -> u8
    ensures { report_state (run_state result keys.new coefficients.new numbers.new
        ends.new) shares.new
        ≡ called_report
        (report_room (length keys.old) (length coefficients.old) (length numbers.old)
        (length ends.old) (length shares.old))
        (report (run_answer (run_sheet sheet.now)) (sheet_rows sheet.now))
        keys.old coefficients.old numbers.old ends.old
        shares.old }
{
    c_book_runs::shares_sheet(sheet, keys, coefficients, numbers, ends, shares)
}

// A book in memory is run as by hechroung_raw_run_models, and the rows go into the last slice as a sheet's do.
#[unsafe(no_mangle)]
pub extern "C" fn hechroung_raw_shares_models(
    n: u8,
    d: u8,
    modelcount: usize,
    stepcount: usize,
    ns: &[u8],
    counts: &[usize],
    radii: &[u64],
    bookkeys: &[Key],
    bookcoefficients: &[i64],
    fields: &[u8],
    values: &[i64],
    keys: &mut [Key],
    coefficients: &mut [i64],
    numbers: &mut [u64],
    ends: &mut [i64],
    shares: &mut [u64],
) -> u8
    ensures { report_state (run_state result keys.new coefficients.new numbers.new
        ends.new) shares.new
        ≡ called_report
        (book_fits modelcount (model_places (length ns.now) (length counts.now)
        (length radii.now) (length bookkeys.now) (length bookcoefficients.now))
        stepcount (step_places (length fields.now) (length values.now))
        (length numbers.old)
        && report_room (length keys.old) (length coefficients.old)
        (length numbers.old) (length ends.old) (length shares.old))
        (report (run_answer (run_held (held_book (handed_book n d modelcount stepcount
        (handed_models ns.now counts.now radii.now bookkeys.now
        bookcoefficients.now)
        (handed_steps fields.now values.now)))))
        (rows_held (held_book (handed_book n d modelcount stepcount
        (handed_models ns.now counts.now radii.now bookkeys.now
        bookcoefficients.now)
        (handed_steps fields.now values.now)))))
        keys.old coefficients.old numbers.old ends.old
        shares.old }
{
    c_book_runs::shares_models(
        n,
        d,
        modelcount,
        stepcount,
        ns,
        counts,
        radii,
        bookkeys,
        bookcoefficients,
        fields,
        values,
        keys,
        coefficients,
        numbers,
        ends,
        shares,
    )
}
