// Sheets that are handed over: run to the program's lines, and taken apart record by record.
#![tactic(auto)]

ghost use Rattle.std.specs.Prelude.{◌≡◌, leb, length};
ghost use Rattle.format.specs.Lines.{printed};
ghost use Rattle.text.specs.sheet.Stepping.{record_bytes, start_answer, kind_at, bytes_at, next_at};
ghost use Rattle.text.specs.Text.{laid};
ghost use Rattle.c_sheets.specs.StepCalls.{kind_number, open_state, called_open};
ghost use Rattle.c_sheets.specs.StepCalls.{next_state, called_next};

use text::sheet;
use text::sheet::Kind;

// A sheet is run to the program's lines: their length. As much of them as the slice has room for stands at its start.
pub fn print_lines(sheet: &[u8], lines: &mut [u8]) -> usize
    ensures { (result ≡ length (printed sheet.now))
        × (lines.new ≡ laid (printed sheet.now) lines.old) }
{
    let length = text::print(sheet, lines);
    length
}

// Bytes are copied to the start of a slice, as many as it has room for.
fn copy(bytes: &[u8], out: &mut [u8])
    ensures { out.new ≡ laid bytes.now out.old }
{
    let places = model_slices::least(bytes.len(), out.len());
    // No copy_from_slice: it asks for memmove, which the library does not ask of a program.
    for i in 0..places {
        out[i] = bytes[i];
    }
}

// Record i of a sheet, from 0: its length, or 0 where there is none. As much of it as the slice has room for stands at
// its start. A sheet that tests 1 to 6 refuse has none.
pub fn copy_record(sheet: &[u8], i: usize, bytes: &mut [u8]) -> usize
    ensures { (result ≡ length (record_bytes sheet.now i))
        × (bytes.new ≡ laid (record_bytes sheet.now i) bytes.old) }
{
    let found = sheet::record(sheet, i);
    copy(found, bytes);
    found.len()
}

// The numbers of an opening, and those of a step: two each.
const STEP_NUMBERS: usize = 2;

// A sheet is opened for stepping: the number of the refusal, 0 without one, or MISUSED. The refusal's place and the
// place of the first record go into the numbers; beside a refusal that is the sheet's length, where there is no record.
pub fn open_sheet(sheet: &[u8], numbers: &mut [u64]) -> u8
    ensures { open_state result numbers.new
        ≡ called_open (leb 2 (length numbers.old)) (start_answer sheet.now)
        numbers.old }
{
    if numbers.len() < STEP_NUMBERS {
        return c_calls::MISUSED;
    }
    let start = sheet::opened_at(sheet);
    let v = start.verdict;
    numbers[0] = model_slices::verdict_place(v) as u64;
    numbers[1] = start.at as u64;
    model_slices::verdict_number(v)
}

// What a record is, as a number.
fn kind_number(kind: Kind) -> u8
    ensures { result ≡ kind_number kind }
{
    match kind {
        Kind::Model => 1,
        Kind::Step => 2,
        Kind::End => 0,
    }
}

// The record at a place of a sheet: 1 for a model, 2 for a step, 0 where there is none, or MISUSED. Its length and the
// place of the next go into the numbers, and as much of it as the slice has room for to the start of `bytes`.
pub fn next_record(sheet: &[u8], at: usize, bytes: &mut [u8], numbers: &mut [u64]) -> u8
    ensures { next_state result bytes.new numbers.new
        ≡ called_next (leb 2 (length numbers.old)) (kind_at sheet.now at)
        (bytes_at sheet.now at) (next_at sheet.now at)
        bytes.old numbers.old }
{
    if numbers.len() < STEP_NUMBERS {
        return c_calls::MISUSED;
    }
    let kind = sheet::kind_from(sheet, at);
    let found = sheet::bytes_from(sheet, at);
    let next = sheet::place_after(sheet, at);
    copy(found, bytes);
    numbers[0] = found.len() as u64;
    numbers[1] = next as u64;
    kind_number(kind)
}
