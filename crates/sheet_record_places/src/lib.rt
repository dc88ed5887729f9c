// The record at a place of a sheet: what it is, how long it is, its bytes without copying them, and where the next one
// stands.
#![tactic(auto)]

ghost use Rattle.std.specs.Prelude.{◌≡◌, ◌+◌, ◌≤◌, ◌<◌, length};
ghost use Rattle.format.specs.Format.{trailer_length};
ghost use Rattle.sheet_record_places.specs.Places.{first_step, vars_of, record_size, length_at};
ghost use Rattle.sheet_record_places.specs.Places.{next_at};
ghost use Rattle.sheet_record_places.specs.Places.{bytes_at, kind_at};

use sheet_book::Kind;

// Where the first step stands, by the trailer.
pub fn first_step(s: &[u8]) -> usize
    requires { trailer_length ≤ length s.now }
    ensures { result ≡ first_step s.now }
{
    let end = s.len() - format::TRAILER_BYTES;
    let t = sheet_decode::trailer_at(s, end);
    t.offset as usize
}

// How many variables there are, by the trailer.
fn vars_of(s: &[u8]) -> u8
    requires { trailer_length ≤ length s.now }
    ensures { result ≡ vars_of s.now }
{
    let end = s.len() - format::TRAILER_BYTES;
    let t = sheet_decode::trailer_at(s, end);
    t.n
}

// How long the record at a place should be: a model's by its term count.
fn size_at(s: &[u8], at: usize) -> usize
    requires { at + trailer_length < length s.now }
    ensures { result ≡ record_size s.now at }
{
    let first = first_step(s);
    if at < first {
        let size = sheet_book::term_bytes(vars_of(s));
        let count = s[at + format::COUNT_AT] as usize;
        return format::MODEL_BYTES + size * count;
    }
    format::STEP_BYTES
}

// How long it is: 0 where there is none.
pub fn length_at(s: &[u8], at: usize) -> usize
    ensures { result ≡ length_at s.now at }
{
    let length = s.len();
    if length < format::TRAILER_BYTES {
        return 0;
    }
    let end = length - format::TRAILER_BYTES;
    if end <= at {
        return 0;
    }
    size_at(s, at).min(end - at)
}

// Where the record after it stands: the place itself where there is none.
pub fn next_at(s: &[u8], at: usize) -> usize
    ensures { result ≡ next_at s.now at }
{
    let length = length_at(s, at);
    at + length
}

// Its bytes: empty where there is none.
pub fn bytes_at(s: &[u8], at: usize) -> &[u8]
    ensures { result.now ≡ bytes_at s.now at }
{
    let length = length_at(s, at);
    if length == 0 {
        return &s[0..0];
    }
    let next = at + length;
    &s[at..next]
}

// Whether it is a model or a step; from the trailer on there is none.
pub fn kind_at(s: &[u8], at: usize) -> Kind
    ensures { result ≡ kind_at s.now at }
{
    let length = s.len();
    if length < format::TRAILER_BYTES {
        return Kind::End;
    }
    let trailer = length - format::TRAILER_BYTES;
    if trailer <= at {
        return Kind::End;
    }
    let first = first_step(s);
    if first <= at {
        return Kind::Step;
    }
    Kind::Model
}
