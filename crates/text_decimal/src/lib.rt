// Bytes and decimal numbers, put into a borrowed buffer.
#![tactic(auto)]

ghost use Rattle.std.specs.Prelude.{◌≡◌, ◌∷◌, [], ◌+◌, ◌<◌};
ghost use Rattle.format.specs.Lines.{decimal};
ghost use Rattle.text_decimal.specs.Put.{Put, Room, natural, integer};

// Every function below puts its bytes where the buffer has room for them and answers the place after them, also where
// that is past the buffer's end.

// One byte.
pub fn put_byte(out: &mut [u8], at: usize, byte: u8) -> usize
    requires { Room at (byte ∷ []) }
    ensures { Put out.old at (byte ∷ []) out.new result }
{
    let after = at + 1;
    if at < out.len() {
        out[at] = byte;
        return after;
    }
    after
}

// Bytes that stand somewhere else.
pub fn put_bytes(out: &mut [u8], at: usize, bytes: &[u8]) -> usize
    requires { Room at bytes.now }
    ensures { Put out.old at bytes.now out.new result }
{
    let mut next = at;
    for byte in bytes {
        next = put_byte(out, next, *byte);
    }
    next
}

// The digit of a number below 10.
fn digit(d: u64) -> u8
    requires { d < 10 }
    ensures { result ≡ 48 + d }
{
    48 + d as u8
}

// A natural number.
pub fn put_decimal(out: &mut [u8], at: usize, x: u64) -> usize
    requires { Room at (decimal x) }
    ensures { Put out.old at (decimal x) out.new result }
{
    let mut digits = [0u8; 20];
    let mut first = 20;
    let mut rest = x;
    // No range counts this loop: it ends with the last digit.
    while 10 <= rest {
        first -= 1;
        digits[first] = digit(rest % 10);
        rest /= 10;
    }
    first -= 1;
    digits[first] = digit(rest);
    put_bytes(out, at, &digits[first..])
}

// A space and a natural number.
pub fn put_natural(out: &mut [u8], at: usize, x: u64) -> usize
    requires { Room at (natural x) }
    ensures { Put out.old at (natural x) out.new result }
{
    let next = put_byte(out, at, b' ');
    put_decimal(out, next, x)
}

// A space and an integer.
pub fn put_integer(out: &mut [u8], at: usize, z: i64) -> usize
    requires { Room at (integer z) }
    ensures { Put out.old at (integer z) out.new result }
{
    let size = fixed::magnitude(z);
    if z < 0 {
        let next = put_bytes(out, at, b" -");
        return put_decimal(out, next, size);
    }
    put_natural(out, at, size)
}
