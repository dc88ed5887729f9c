// Opening a sheet for stepping through it, and its records by their numbers.
#![tactic(auto)]

ghost use Rattle.std.specs.Prelude.{◌≡◌, length};
ghost use Rattle.format.specs.Format.{returned_records};
ghost use Rattle.sheet_opening.specs.Opening.{start_answer, record_bytes};

use model_types::Refused;
use sheet_book::Start;

// Tests 1 to 6: stepping begins at 0, or where they refuse the sheet at its end, so that none is handed out.
pub fn open_at(sheet: &[u8]) -> Start
    ensures { result ≡ start_answer sheet.now }
{
    let verdict = sheet_tests::tested(sheet);
    let end = sheet.len();
    match verdict {
        Ok(()) => Start { at: 0, verdict },
        Err(Refused(_, _)) => Start { at: end, verdict },
    }
}

// How many records there are: none of a refused sheet.
pub fn record_count(sheet: &[u8]) -> usize
    ensures { result ≡ length (returned_records sheet.now).value }
{
    let verdict = sheet_tests::tested(sheet);
    match verdict {
        Ok(()) => {
            let end = sheet.len() - format::TRAILER_BYTES;
            let t = sheet_decode::trailer_at(sheet, end);
            let models = t.models as usize;
            let steps = t.steps as usize;
            models + steps
        }
        Err(Refused(_, _)) => 0,
    }
}

// Record i, counted from 0: empty where there is none.
pub fn record(sheet: &[u8], i: usize) -> &[u8]
    ensures { result.now ≡ record_bytes sheet.now i }
{
    let count = record_count(sheet);
    if count <= i {
        return &sheet[0..0];
    }
    let mut at = 0;
    for _k in 0..i {
        at = sheet_record_places::next_at(sheet, at);
    }
    sheet_record_places::bytes_at(sheet, at)
}
