// Writing a book into a borrowed buffer as a sheet: tests 3, 5, 6 and 11 come first, so a refused write changes no
// byte.
#![tactic(auto)]

ghost use Rattle.std.specs.Prelude.{◌≡◌};
ghost use Rattle.format.specs.Format.{write, written};
ghost use Rattle.sheet_book.specs.BookStruct.{held_book, write_answer};

use model_types::{Refusal, Refused};
use sheet_book::{Book, Written};

// Handed on: crates above name these through this crate.
pub use sheet_book_tests;

// The sheet of a book, its length answered; bytes beyond that length stay. A refused write answers the length 0, and
// all bytes stay.
pub fn write(book: Book, buffer: &mut [u8]) -> Written
    ensures answers { result ≡ write_answer (write (held_book book) buffer.old) }
    ensures leaves { buffer.new ≡ (written (held_book book) buffer.old).value.buffer }
{
    let v = sheet_book_tests::tested(book);
    let Ok(()) = v else {
        return Written {
            length: 0,
            verdict: v,
        };
    };
    let offset = sheet_encode::models_size(book);
    let end = offset + format::STEP_BYTES * book.step_count;
    let size = end + format::TRAILER_BYTES;
    if buffer.len() < size {
        return Written {
            length: 0,
            verdict: Err(Refused(Refusal::ShortBuffer, 0)),
        };
    }
    sheet_encode::put_models(buffer, book);
    sheet_encode::put_steps(buffer, offset, book);
    sheet_encode::put_trailer(buffer, end, book, offset);
    Written {
        length: size,
        verdict: Ok(()),
    }
}
