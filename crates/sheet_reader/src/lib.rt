// Reading a sheet: tests 1 to 6 in order, over the whole sheet, and its book.
#![tactic(auto)]

ghost use Rattle.std.specs.Prelude.{◌≡◌, ◌+◌, ◌*◌, T, length};
ghost use Rattle.calculus.specs.Refusal.{stopped};
ghost use Rattle.model_types.specs.ModelStruct.{cause};
ghost use Rattle.format.specs.HeldBook.{zero_book};
ghost use Rattle.format.specs.Format.{step_length, trailer_length, trailer_sound, read_records, read};
ghost use Rattle.sheet_book.specs.BookStruct.{stored_book, read_answer};
ghost use Rattle.sheet_decode.specs.Trailer.{held_trailer};

use model_types::{Refusal, Refused};
use sheet_book::{Book, Read};
use sheet_decode::Trailer;

// The book of zeros. Walks over no records give its arrays: a literal of all their places would be compiled again for
// every refusal, which took most of the compiler's time.
fn zero_book() -> Book
    ensures { result ≡ stored_book zero_book }
{
    let w = sheet_read_walk::read_models(b"", 1, 0, 0);
    let v = sheet_read_walk::read_steps(b"", 0, 1, 0, 0);
    let models = w.models;
    let steps = v.steps;
    Book {
        n: 0,
        d: 0,
        model_count: 0,
        step_count: 0,
        models: models,
        steps: steps,
    }
}

// The answer of a refused read: the book of zeros beside the refusal.
fn refuse(refusal: Refusal, place: usize) -> Read
    ensures { result ≡ read_answer (stopped (cause refusal) place) }
{
    let book = zero_book();
    Read {
        book: book,
        verdict: Err(Refused(refusal, place)),
    }
}

// Tests 5 and 6, and the book, for a sheet that passes the others.
fn read_records(sheet: &[u8], t: Trailer) -> Read
    requires t { T (trailer_sound (held_trailer t)) }
    requires trailer_length_value { t.offset + step_length * t.steps + trailer_length ≡ length sheet.now }
    ensures { result ≡ read_answer (read_records sheet.now (held_trailer t)) }
{
    let n = t.n;
    let d = t.d;
    let count = t.models as usize;
    let total = t.steps as usize;
    let offset = t.offset as usize;
    let w = sheet_read_walk::read_models(&sheet[..offset], n, d, count);
    let place = w.place;
    if place < count {
        return refuse(Refusal::BadModel, place);
    }
    // bytes are left after the last model
    if w.end < offset {
        return refuse(Refusal::BadModel, count);
    }
    let v = sheet_read_walk::read_steps(sheet, offset, n, count, total);
    let fault = v.place;
    if fault < total {
        return refuse(Refusal::BadStep, fault);
    }
    let models = w.models;
    let steps = v.steps;
    Read {
        book: Book {
            n: n,
            d: d,
            model_count: count,
            step_count: total,
            models: models,
            steps: steps,
        },
        verdict: Ok(()),
    }
}

// A sheet's book, or the first refusal in the order of the tests.
pub fn read(sheet: &[u8]) -> Read
    ensures { result ≡ read_answer (read sheet.now) }
{
    let v = sheet_tests::head_tested(sheet);
    match v {
        Ok(()) => {
            let t = sheet_decode::trailer_at(sheet, sheet.len() - format::TRAILER_BYTES);
            read_records(sheet, t)
        }
        Err(Refused(refusal, place)) => refuse(refusal, place),
    }
}
