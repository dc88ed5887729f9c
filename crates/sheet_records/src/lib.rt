// Stepping through a sheet record by record without copying it.
#![tactic(auto)]

ghost use Rattle.std.specs.Prelude.{◌≡◌};
ghost use Rattle.sheet_record_places.specs.Places.{kind_at, bytes_at, next_at};
ghost use Rattle.sheet_opening.specs.Opening.{start_answer};
ghost use Rattle.sheet_records.specs.Records.{opening, advanced, at_hand};

use model_types::Verdict;
pub use sheet_book::{Kind, Start};

// ---- records by their numbers
pub use sheet_opening::{record, record_count};

// ---- one after the other
// A sheet, and the place of the record at hand.
#[derive(Clone, Copy)]
pub struct Records<'a> {
    pub sheet: &'a [u8],
    pub at: usize,
}

// A sheet at its first record, or beside a refusal at its end, as the definition `opening` has it: a struct and no
// Result, since a program may go on asking after a refusal, and is handed out none.
#[derive(Clone, Copy)]
pub struct Opened<'a> {
    pub records: Records<'a>,
    pub verdict: Verdict,
}

// Opening makes tests 1 to 6: the number and place of a refusal stand in the verdict.
pub fn open<'a>(sheet: &'a [u8]) -> Opened<'a>
    ensures { result ≡ opening sheet.entry }
{
    let start = sheet_opening::open_at(sheet);
    Opened {
        records: Records {
            sheet,
            at: start.at,
        },
        verdict: start.verdict,
    }
}

impl<'a> Records<'a> {
    // The bytes at hand: empty where there is no record.
    pub fn bytes(self) -> &'a [u8]
        ensures { result.now ≡ at_hand self.entry }
    {
        sheet_record_places::bytes_at(self.sheet, self.at)
    }

    // Whether a model or a step is at hand.
    pub fn kind(self) -> Kind
        ensures { result ≡ kind_at self.entry.sheet.now self.entry.at }
    {
        sheet_record_places::kind_at(self.sheet, self.at)
    }

    // Hands out the bytes at hand, and goes one record on: after the last it hands out none, as often as it is asked.
    pub fn next(&mut self) -> &'a [u8]
        ensures { (result.now ≡ at_hand self.old) × (self.new ≡ advanced self.old) }
    {
        let sheet = self.sheet;
        let at = self.at;
        self.at = sheet_record_places::next_at(sheet, at);
        sheet_record_places::bytes_at(sheet, at)
    }
}

// ---- the same by a place alone, for programs that cannot hold the struct
// Where opening begins, beside its verdict.
pub fn opened_at(sheet: &[u8]) -> Start
    ensures { result ≡ start_answer sheet.now }
{
    let opened = open(sheet);
    Start {
        at: opened.records.at,
        verdict: opened.verdict,
    }
}

// Whether the record at a place is a model or a step.
pub fn kind_from(sheet: &[u8], at: usize) -> Kind
    ensures { result ≡ kind_at sheet.now at }
{
    let records = Records { sheet, at };
    records.kind()
}

// Its bytes.
pub fn bytes_from(sheet: &[u8], at: usize) -> &[u8]
    ensures { result.now ≡ bytes_at sheet.now at }
{
    let records = Records { sheet, at };
    records.bytes()
}

// The place of the next.
pub fn place_after(sheet: &[u8], at: usize) -> usize
    ensures { result ≡ next_at sheet.now at }
{
    let mut records = Records { sheet, at };
    let _bytes = records.next();
    records.at
}
