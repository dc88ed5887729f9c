// Books written as sheets, and sheets written back.
ghost use Rattle.std.specs.Prelude.{◌≡◌, leb, length};
ghost use Rattle.format.specs.Format.{read};
ghost use Rattle.sheet_book.specs.BookStruct.{held_book, read_answer};
ghost use Rattle.c_books.specs.HandedBooks.{step_places, handed_steps, model_places, handed_models};
ghost use Rattle.c_books.specs.HandedBooks.{handed_book};
ghost use Rattle.c_book_runs.specs.c_writes.WriteCalls.{book_fits};
ghost use Rattle.c_book_runs.specs.c_writes.WriteCalls.{write_state, called_write, called_rewrite};

use c_book_runs::c_writes;
use model_types::Key;

// A book is written as a sheet into the buffer: the refusal's number, 0 without one, or MISUSED. The refusal's place
// and the length go into the numbers.
#[unsafe(no_mangle)]
pub extern "C" fn hechroung_raw_write_sheet(
    n: u8,
    d: u8,
    modelcount: usize,
    stepcount: usize,
    ns: &[u8],
    counts: &[usize],
    radii: &[u64],
    keys: &[Key],
    coefficients: &[i64],
    fields: &[u8],
    values: &[i64],
    buffer: &mut [u8],
    numbers: &mut [u64],
) -> u8
    ensures { write_state result buffer.new numbers.new
        ≡ called_write
        (book_fits modelcount (model_places (length ns.now) (length counts.now)
        (length radii.now) (length keys.now) (length coefficients.now))
        stepcount (step_places (length fields.now) (length values.now))
        (length numbers.old))
        (held_book (handed_book n d modelcount stepcount
        (handed_models ns.now counts.now radii.now keys.now
        coefficients.now)
        (handed_steps fields.now values.now)))
        buffer.old numbers.old }
{
    c_writes::write_book(
        n,
        d,
        modelcount,
        stepcount,
        ns,
        counts,
        radii,
        keys,
        coefficients,
        fields,
        values,
        buffer,
        numbers,
    )
}

// A sheet is read, and what was read is written into the buffer: the refusal's number, 0 without one, or MISUSED. The
// refusal's place and the length go into the numbers.
#[unsafe(no_mangle)]
pub extern "C" fn hechroung_raw_rewrite(sheet: &[u8], buffer: &mut [u8], numbers: &mut [u64]) -> u8
    ensures { write_state result buffer.new numbers.new
        ≡ called_rewrite (leb 2 (length numbers.old)) (read_answer (read sheet.now))
        buffer.old numbers.old }
{
    c_writes::rewrite_sheet(sheet, buffer, numbers)
}
