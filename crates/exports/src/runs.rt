// Sheets and books in memory, run to a model with its range and its integral.
ghost use Rattle.std.specs.Prelude.{◌≡◌, ◌&&◌, leb, length};
ghost use Rattle.format.specs.Format.{run_sheet};
ghost use Rattle.sheet_book.specs.BookStruct.{held_book};
ghost use Rattle.sheet_book.specs.SummaryStruct.{run_answer};
ghost use Rattle.c_book_runs.specs.sheet.Sheet.{run_held};
ghost use Rattle.model_slices.specs.HandedModels.{model_room, run_ends};
ghost use Rattle.c_books.specs.HandedBooks.{step_places, handed_steps, model_places, handed_models};
ghost use Rattle.c_books.specs.HandedBooks.{handed_book};
ghost use Rattle.c_book_runs.specs.c_writes.WriteCalls.{book_fits};
ghost use Rattle.c_book_runs.specs.c_runs.SheetCalls.{run_state, called_run};

use c_book_runs::c_runs;
use model_types::Key;

// A sheet is run: the refusal's number, 0 without one, or MISUSED. The result's 64 keys and coefficients go into two
// slices, the refusal's place, n, the count and the radius into the third, the ends of the range and of the integral,
// the quotient and the remainder into the fourth.
#[unsafe(no_mangle)]
pub extern "C" fn hechroung_raw_run_sheet(
    sheet: &[u8],
    keys: &mut [Key],
    coefficients: &mut [i64],
    numbers: &mut [u64],
    ends: &mut [i64],
) -> u8
    ensures { run_state result keys.new coefficients.new numbers.new ends.new
        ≡ called_run (model_room (length keys.old) (length coefficients.old)
        (length numbers.old)) (leb run_ends (length ends.old))
        (run_answer (run_sheet sheet.now))
        keys.old coefficients.old numbers.old ends.old }
{
    c_runs::run_sheet(sheet, keys, coefficients, numbers, ends)
}

// A book in memory is run: the refusal's number, 0 without one, or MISUSED. The result goes into the slices as a
// sheet's does.
#[unsafe(no_mangle)]
pub extern "C" fn hechroung_raw_run_models(
    n: u8,
    d: u8,
    modelcount: usize,
    stepcount: usize,
    ns: &[u8],
    counts: &[usize],
    radii: &[u64],
    bookkeys: &[Key],
    bookcoefficients: &[i64],
    fields: &[u8],
    values: &[i64],
    keys: &mut [Key],
    coefficients: &mut [i64],
    numbers: &mut [u64],
    ends: &mut [i64],
) -> u8
    ensures { run_state result keys.new coefficients.new numbers.new ends.new
        ≡ called_run
        (book_fits modelcount (model_places (length ns.now) (length counts.now)
        (length radii.now) (length bookkeys.now) (length bookcoefficients.now))
        stepcount (step_places (length fields.now) (length values.now))
        (length numbers.old)
        && model_room (length keys.old) (length coefficients.old)
        (length numbers.old))
        (leb run_ends (length ends.old))
        (run_answer (run_held (held_book (handed_book n d modelcount stepcount
        (handed_models ns.now counts.now radii.now bookkeys.now
        bookcoefficients.now)
        (handed_steps fields.now values.now)))))
        keys.old coefficients.old numbers.old ends.old }
{
    c_book_runs::run_models(
        n,
        d,
        modelcount,
        stepcount,
        ns,
        counts,
        radii,
        bookkeys,
        bookcoefficients,
        fields,
        values,
        keys,
        coefficients,
        numbers,
        ends,
    )
}
