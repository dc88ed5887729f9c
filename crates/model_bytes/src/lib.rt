// Numbers of 2 and 4 bytes at a place of a slice, little-endian: read, and put.
#![tactic(auto)]

ghost use Rattle.std.specs.Prelude.{◌≡◌, ◌+◌, ◌^◌, ◌<◌, ◌≤◌, nat_abs, length, drop};
ghost use Rattle.std.proofs.lemmas.List.Edits.{sets};
ghost use Rattle.format.specs.Bytes.{byte, u16, u32, signed, u16_bytes, u32_bytes, bits};

// The least number of 32 bits that stands for a negative one, and how many there are.
const SIGN_BIT: u64 = 1 << 31;

const WORDS: u64 = 1 << 32;

// ---- read

// A byte.
pub fn byte_at(s: &[u8], at: usize) -> u8
    requires { at < length s.now }
    ensures { result ≡ byte at s.now }
{
    s[at]
}

// 2 bytes without a sign.
pub fn u16_at(s: &[u8], at: usize) -> u16
    requires { at + 2 ≤ length s.now }
    ensures { result ≡ u16 (drop at s.now) }
{
    let low = byte_at(s, at) as u16;
    let high = byte_at(s, at + 1) as u16;
    low + 256 * high
}

// 4 bytes without a sign.
pub fn u32_at(s: &[u8], at: usize) -> u32
    requires { at + 4 ≤ length s.now }
    ensures { result ≡ u32 (drop at s.now) }
{
    let first = byte_at(s, at) as u32;
    let second = byte_at(s, at + 1) as u32;
    let third = byte_at(s, at + 2) as u32;
    let fourth = byte_at(s, at + 3) as u32;
    first + 256 * (second + 256 * (third + 256 * fourth))
}

// The integer of 32 bits, two's complement: moved up by the sign bit and around, they stand in order. There is no
// branch in it, so that the compiler reads four bytes and their sign by one instruction.
fn signed_of(bits: u32) -> i64
    ensures { result ≡ signed bits }
{
    let moved = (bits as u64 + SIGN_BIT) % WORDS;
    moved as i64 - SIGN_BIT as i64
}

// 4 bytes, two's complement.
pub fn signed_at(s: &[u8], at: usize) -> i64
    requires { at + 4 ≤ length s.now }
    ensures { result ≡ signed (u32 (drop at s.now)) }
{
    signed_of(u32_at(s, at))
}

// ---- put; the rest of the buffer stays

// Two bytes.
pub fn put_u16(buffer: &mut [u8], at: usize, x: u16)
    requires { at + 2 ≤ length buffer.old }
    ensures { buffer.new ≡ sets buffer.old at (u16_bytes x) }
{
    buffer[at] = (x % 256) as u8;
    buffer[at + 1] = (x / 256 % 256) as u8;
}

// Four bytes.
pub fn put_u32(buffer: &mut [u8], at: usize, u: u32)
    requires { at + 4 ≤ length buffer.old }
    ensures { buffer.new ≡ sets buffer.old at (u32_bytes u) }
{
    buffer[at] = (u % 256) as u8;
    buffer[at + 1] = (u / 256 % 256) as u8;
    buffer[at + 2] = (u / 256 / 256 % 256) as u8;
    buffer[at + 3] = (u / 256 / 256 / 256 % 256) as u8;
}

// Two's complement in 32 bits.
fn bits_of(z: i64) -> u32
    requires { nat_abs z < 2 ^ 31 }
    ensures { result ≡ bits z }
{
    if z < 0 {
        (z + format::WORD) as u32
    } else {
        z as u32
    }
}

// Four bytes with a sign.
pub fn put_i32(buffer: &mut [u8], at: usize, z: i64)
    requires z_bound { nat_abs z < 2 ^ 31 }
    requires at_in_bounds { at + 4 ≤ length buffer.old }
    ensures { buffer.new ≡ sets buffer.old at (u32_bytes (bits z)) }
{
    let u = bits_of(z);
    put_u32(buffer, at, u);
}
