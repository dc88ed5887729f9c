// Books that are handed over and written as sheets, and sheets written back.
#![tactic(auto)]

ghost use Rattle.std.specs.Prelude.{◌≡◌, ◌≤◌, leb, length};
ghost use Rattle.format.specs.Format.{read};
ghost use Rattle.sheet_book.specs.BookStruct.{held_book, read_answer};
ghost use Rattle.c_books.specs.HandedBooks.{step_places, handed_steps, model_places, handed_models};
ghost use Rattle.c_books.specs.HandedBooks.{handed_book};
ghost use Rattle.c_writes.specs.WriteCalls.{book_fits, written_state, stored_written};
ghost use Rattle.c_writes.specs.WriteCalls.{write_state, called_write, called_rewrite};

use model_types::Key;
use sheet_book::Written;

// The numbers of a write's answer: the refusal's place and the length.
const NUMBERS: usize = 2;

// Whether there are as many models and steps as the counts name, and room for the numbers.
pub fn book_fits(
    model_count: usize,
    models: usize,
    step_count: usize,
    steps: usize,
    numbers: usize,
) -> bool
    ensures { result ≡ book_fits model_count models step_count steps numbers }
{
    model_slices::least(model_count, sheet_book::MOST_MODELS) <= models
        && model_slices::least(step_count, sheet_book::MOST_STEPS) <= steps
        && NUMBERS <= numbers
}

// The place of a refused write and the length go into a slice; the refusal's number.
fn store_written(w: Written, numbers: &mut [u64]) -> u8
    requires { 2 ≤ length numbers.old }
    ensures { written_state result numbers.new ≡ stored_written w numbers.old }
{
    let v = w.verdict;
    numbers[0] = model_slices::verdict_place(v) as u64;
    numbers[1] = w.length as u64;
    model_slices::verdict_number(v)
}

// A book is written as a sheet into the buffer: the refusal's number, 0 without one, or MISUSED. The refusal's place
// and the length go into the numbers.
pub fn write_book(
    n: u8,
    d: u8,
    modelcount: usize,
    stepcount: usize,
    ns: &[u8],
    counts: &[usize],
    radii: &[u64],
    keys: &[Key],
    coefficients: &[i64],
    fields: &[u8],
    values: &[i64],
    buffer: &mut [u8],
    numbers: &mut [u64],
) -> u8
    ensures { write_state result buffer.new numbers.new
        ≡ called_write
        (book_fits modelcount (model_places (length ns.now) (length counts.now)
        (length radii.now) (length keys.now) (length coefficients.now))
        stepcount (step_places (length fields.now) (length values.now))
        (length numbers.old))
        (held_book (handed_book n d modelcount stepcount
        (handed_models ns.now counts.now radii.now keys.now
        coefficients.now)
        (handed_steps fields.now values.now)))
        buffer.old numbers.old }
{
    let models = c_books::model_places(
        ns.len(),
        counts.len(),
        radii.len(),
        keys.len(),
        coefficients.len(),
    );
    let steps = c_books::step_places(fields.len(), values.len());
    if !book_fits(modelcount, models, stepcount, steps, numbers.len()) {
        return c_calls::MISUSED;
    }
    let b = c_books::handed_book(
        n,
        d,
        modelcount,
        stepcount,
        ns,
        counts,
        radii,
        keys,
        coefficients,
        fields,
        values,
    );
    let w = sheet::write(b, buffer);
    store_written(w, numbers)
}

// A sheet is read, and what was read is written into the buffer: the refusal's number, 0 without one, or MISUSED. The
// refusal's place and the length go into the numbers.
pub fn rewrite_sheet(sheet: &[u8], buffer: &mut [u8], numbers: &mut [u64]) -> u8
    ensures { write_state result buffer.new numbers.new
        ≡ called_rewrite (leb 2 (length numbers.old)) (read_answer (read sheet.now))
        buffer.old numbers.old }
{
    if numbers.len() < NUMBERS {
        return c_calls::MISUSED;
    }
    let answer = sheet::read(sheet);
    let v = answer.verdict;
    let Ok(()) = v else {
        let none = Written {
            length: 0,
            verdict: v,
        };
        return store_written(none, numbers);
    };
    let b = answer.book;
    let w = sheet::write(b, buffer);
    store_written(w, numbers)
}
