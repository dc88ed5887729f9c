// Sheets: run to the program's lines, taken apart record by record, by their numbers and one after the other.
ghost use Rattle.std.specs.Prelude.{◌≡◌, leb, length};
ghost use Rattle.format.specs.Lines.{printed};
ghost use Rattle.c_book_runs.specs.sheet.Stepping.{record_bytes, start_answer, kind_at, bytes_at, next_at};
ghost use Rattle.c_sheets.specs.text.Text.{laid};
ghost use Rattle.c_sheets.specs.StepCalls.{open_state, called_open};
ghost use Rattle.c_sheets.specs.StepCalls.{next_state, called_next};

// A sheet is run to the program's lines: their length. As much of them as the slice has room for stands at its start.
#[unsafe(no_mangle)]
pub extern "C" fn hechroung_raw_print(sheet: &[u8], lines: &mut [u8]) -> usize
    ensures { (result ≡ length (printed sheet.now))
        × (lines.new ≡ laid (printed sheet.now) lines.old) }
{
    c_sheets::print_lines(sheet, lines)
}

// Record i of a sheet, from 0: its length, or 0 where there is none. As much of it as the slice has room for stands at
// its start. A sheet that tests 1 to 6 refuse has none.
#[unsafe(no_mangle)]
pub extern "C" fn hechroung_raw_record(sheet: &[u8], i: usize, bytes: &mut [u8]) -> usize
    ensures { (result ≡ length (record_bytes sheet.now i))
        × (bytes.new ≡ laid (record_bytes sheet.now i) bytes.old) }
{
    c_sheets::copy_record(sheet, i, bytes)
}

// ---- stepping
// A sheet is opened for stepping: the number of the refusal, 0 without one, or MISUSED. The refusal's place and the
// place of the first record go into the numbers; beside a refusal that is the sheet's length, where there is no record.
#[unsafe(no_mangle)]
pub extern "C" fn hechroung_raw_open(sheet: &[u8], numbers: &mut [u64]) -> u8
    ensures { open_state result numbers.new
        ≡ called_open (leb 2 (length numbers.old)) (start_answer sheet.now)
        numbers.old }
{
    c_sheets::open_sheet(sheet, numbers)
}

// The record at a place of a sheet: 1 for a model, 2 for a step, 0 where there is none, or MISUSED. Its length and the
// place of the next go into the numbers, and as much of it as the slice has room for to the start of `bytes`.
#[unsafe(no_mangle)]
pub extern "C" fn hechroung_raw_next(
    sheet: &[u8],
    at: usize,
    bytes: &mut [u8],
    numbers: &mut [u64],
) -> u8
    ensures { next_state result bytes.new numbers.new
        ≡ called_next (leb 2 (length numbers.old)) (kind_at sheet.now at)
        (bytes_at sheet.now at) (next_at sheet.now at)
        bytes.old numbers.old }
{
    c_sheets::next_record(sheet, at, bytes, numbers)
}
