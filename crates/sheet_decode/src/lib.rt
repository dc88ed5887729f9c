// The fields of a sheet's records at a place of its bytes: terms, steps and the trailer.
#![tactic(auto)]

ghost use Rattle.std.specs.Prelude.{◌≡◌, ◌+◌, ◌≤◌, length, drop};
ghost use Rattle.format.specs.Format.{term_length, step_length, trailer_length};
ghost use Rattle.format.specs.Format.{read_term, read_step, read_trailer};
ghost use Rattle.sheet_book.specs.BookStruct.{stored_term, stored_step};
ghost use Rattle.sheet_decode.specs.Trailer.{stored_trailer};

use model_types::Term;
use sheet_book::Step;

// What a trailer says: n, d, the counts, the offset of the first step, whether one of the marks stands, and its last
// byte.
#[derive(Clone, Copy)]
pub struct Trailer {
    pub n: u8,
    pub d: u8,
    pub models: u8,
    pub steps: u8,
    pub offset: u16,
    pub marked: bool,
    pub mark: u8,
}

// A term of n variables: key and coefficient.
pub fn term_at(s: &[u8], at: usize, n: u8) -> Term
    requires { at + term_length n ≤ length s.now }
    ensures { result ≡ stored_term (read_term n (drop at s.now)) }
{
    if n <= format::MOST_SHORT {
        return Term {
            key: model_bytes::u16_at(s, at) as u32 * format::SHORT_KEY,
            coefficient: model_bytes::signed_at(s, at + 2),
        };
    }
    Term {
        key: model_bytes::u32_at(s, at),
        coefficient: model_bytes::signed_at(s, at + 4),
    }
}

// A step: code, a, b, v and value.
pub fn step_at(s: &[u8], at: usize) -> Step
    requires { at + step_length ≤ length s.now }
    ensures { result ≡ stored_step (read_step (drop at s.now)) }
{
    Step {
        code: model_bytes::byte_at(s, at),
        a: model_bytes::byte_at(s, at + 1),
        b: model_bytes::byte_at(s, at + 2),
        v: model_bytes::byte_at(s, at + 3),
        value: model_bytes::signed_at(s, at + 4),
    }
}

// Whether one of the marks stands in the last two bytes of a trailer.
fn marked_at(s: &[u8], at: usize) -> bool
    requires { at + trailer_length ≤ length s.now }
    ensures { result ≡ (read_trailer (drop at s.now)).marked }
{
    let last = model_bytes::byte_at(s, at + 7);
    model_bytes::byte_at(s, at + 6) == format::FIRST_MARK
        && (last == format::SHORT_MARK || last == format::LONG_MARK)
}

// A trailer.
pub fn trailer_at(s: &[u8], at: usize) -> Trailer
    requires { at + trailer_length ≤ length s.now }
    ensures { result ≡ stored_trailer (read_trailer (drop at s.now)) }
{
    Trailer {
        n: model_bytes::byte_at(s, at),
        d: model_bytes::byte_at(s, at + 1),
        models: model_bytes::byte_at(s, at + 2),
        steps: model_bytes::byte_at(s, at + 3),
        offset: model_bytes::u16_at(s, at + 4),
        marked: marked_at(s, at),
        mark: model_bytes::byte_at(s, at + 7),
    }
}
