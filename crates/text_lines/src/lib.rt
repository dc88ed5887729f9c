// The program's lines, put into a borrowed buffer one by one.
#![tactic(auto)]

ghost use Rattle.std.specs.Prelude.{map, T};
ghost use Rattle.calculus.specs.Key.{monomial_of};
ghost use Rattle.calculus.specs.Model.{most_degree, sound};
ghost use Rattle.model_types.specs.ModelStruct.{view};
ghost use Rattle.format.specs.Bytes.{join};
ghost use Rattle.format.specs.Lines.{term_line, ends_line, exact_line, exact_lines, radius_line};
ghost use Rattle.format.specs.Lines.{refusal_line};
ghost use Rattle.text_decimal.specs.Put.{Put, Room, natural};
ghost use Rattle.text_lines.specs.LineParts.{ends, mixed, KeyIn, key_line};

use model_types::{Key, Model};

// Up to so many variables there is an exact integral.
const MOST_EXACT: u8 = 4;

// Every function below puts its bytes where the buffer has room for them and answers the place after them, also where
// that is past the buffer's end.

// The n exponents of a key.
fn put_exponents(out: &mut [u8], at: usize, n: u8, key: Key) -> usize
    requires key_in { KeyIn n key }
    requires room { Room at (join (map natural (monomial_of n key))) }
    ensures { Put out.old at (join (map natural (monomial_of n key))) out.new result }
{
    let mut next = at;
    for i in 0..n {
        next = text_decimal::put_natural(out, next, model::exponent_of(key, i + 1) as u64);
    }
    next
}

// The line of a term.
fn put_term(out: &mut [u8], at: usize, n: u8, key: Key, coefficient: i64) -> usize
    requires key_in { KeyIn n key }
    requires room { Room at (key_line n key coefficient) }
    ensures { Put out.old at (key_line n key coefficient) out.new result }
{
    let word = text_decimal::put_bytes(out, at, b"term");
    let exponents = put_exponents(out, word, n, key);
    let value = text_decimal::put_integer(out, exponents, coefficient);
    text_decimal::put_byte(out, value, b'\n')
}

// The lines of a model's terms.
pub fn put_terms(out: &mut [u8], at: usize, m: Model) -> usize
    requires { T (sound most_degree (view m)) × Room at (join (map term_line (view m).terms)) }
    ensures { Put out.old at (join (map term_line (view m).terms)) out.new result }
{
    let n = m.n;
    let count = m.count;
    let mut next = at;
    for i in 0..count {
        let key = m.keys[i];
        let c = m.coefficients[i];
        next = put_term(out, next, n, key, c);
    }
    next
}

// The line of a range or an integral.
pub fn put_ends(out: &mut [u8], at: usize, word: &[u8], low: i64, high: i64) -> usize
    requires { Room at (ends_line word.now (ends low high)) }
    ensures { Put out.old at (ends_line word.now (ends low high)) out.new result }
{
    let first = text_decimal::put_bytes(out, at, word);
    let second = text_decimal::put_integer(out, first, low);
    let next = text_decimal::put_integer(out, second, high);
    text_decimal::put_byte(out, next, b'\n')
}

// The line of an exact integral.
fn put_exact(out: &mut [u8], at: usize, quotient: i64, remainder: u64) -> usize
    requires { Room at (exact_line (mixed quotient remainder)) }
    ensures { Put out.old at (exact_line (mixed quotient remainder)) out.new result }
{
    let word = text_decimal::put_bytes(out, at, b"exact");
    let first = text_decimal::put_integer(out, word, quotient);
    let next = text_decimal::put_natural(out, first, remainder);
    text_decimal::put_byte(out, next, b'\n')
}

// That line where there is an exact integral, of up to four variables, and none above. (Two functions, since each
// answers one definition: `exact_line`, and `exact_lines` of any n.)
pub fn put_exact_of(out: &mut [u8], at: usize, n: u8, quotient: i64, remainder: u64) -> usize
    requires { Room at (exact_lines n (mixed quotient remainder)) }
    ensures { Put out.old at (exact_lines n (mixed quotient remainder)) out.new result }
{
    if MOST_EXACT < n {
        return at;
    }
    put_exact(out, at, quotient, remainder)
}

// The line of a refusal.
pub fn put_refusal(out: &mut [u8], number: u8, place: usize) -> usize
    requires { Room 0 (refusal_line number place) }
    ensures { Put out.old 0 (refusal_line number place) out.new result }
{
    let first = text_decimal::put_bytes(out, 0, b"refused");
    let second = text_decimal::put_natural(out, first, number as u64);
    let next = text_decimal::put_natural(out, second, place as u64);
    text_decimal::put_byte(out, next, b'\n')
}

// The line of a radius.
pub fn put_radius(out: &mut [u8], radius: u64) -> usize
    requires { Room 0 (radius_line radius) }
    ensures { Put out.old 0 (radius_line radius) out.new result }
{
    let word = text_decimal::put_bytes(out, 0, b"radius");
    let next = text_decimal::put_natural(out, word, radius);
    text_decimal::put_byte(out, next, b'\n')
}
