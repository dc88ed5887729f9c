// Keys of monomials: all arithmetic of their digits. A key holds the exponents of a monomial as the digits of one
// number, that of variable 1 the highest, four bits each; a wide key has seven bits for each, and the degree.
#![tactic(auto)]

ghost use Rattle.std.specs.Prelude.{◌≡◌, [], ◌∷◌, ℕ, ◌+◌, ◌-◌, ◌*◌, ◌/◌, ◌%◌, ◌≤◌, ◌<◌};
ghost use Rattle.polynomial.specs.Polynomial.{exponent};
ghost use Rattle.calculus.specs.Key.{key, monomial_of, key_width, key_fits, key_degree, Below};
ghost use Rattle.model_keys.specs.Keys.{Slot, key_exponent, key_without, Raisable, key_raised};
ghost use Rattle.model_keys.specs.Keys.{key_even, key_divisor};
ghost use Rattle.model_keys.specs.KeyHalvesLaws.{half_divisor, half_wide};
ghost use Rattle.model_keys.specs.Keys.{widened, wide_exponents, wide_degree, narrowed};

// A key as it is stored: eight exponents of four bits, that of variable 1 the highest.
pub type Key = u32;

// ---- one exponent
// How many bits stand after the exponent of variable i.
fn bits_after(i: u8) -> u32
    requires { i ≤ key_width }
    ensures { result ≡ 4 * (key_width - i) }
{
    32 - 4 * i as u32
}

// The exponent of variable i.
pub fn exponent_of(key: Key, i: u8) -> u32
    requires { Slot i }
    ensures { result ≡ key_exponent i key }
{
    let bits = bits_after(i);
    (key >> bits) % 16
}

// The key with the exponent of variable i made 0.
pub fn without(key: Key, i: u8) -> Key
    requires { Slot i }
    ensures { result ≡ key_without i key }
{
    let bits = bits_after(i);
    let exponent = (key >> bits) % 16;
    key - (exponent << bits)
}

// The key with the exponent of variable i one higher. Of the key 0 it makes the key of the variable.
pub fn raised(key: Key, i: u8) -> Key
    requires { Raisable i key }
    ensures { result ≡ key_raised i key }
{
    let bits = bits_after(i);
    let one = 1 << bits;
    key + one
}

// ---- powers of variable 1
// What one more in its exponent counts.
const FIRST_POWER: Key = 1 << 28;

// The key of its k-th power.
pub fn power_key(k: usize) -> Key
    requires { k < 16 }
    ensures { result ≡ key key_width (k ∷ []) }
{
    let exponent = k as u32;
    exponent * FIRST_POWER
}

// Its exponent in a key of any number of variables.
pub fn first_exponent(key: Key) -> usize
    ensures below { result < 16 }
    ensures exact { (n : ℕ) → 1 ≤ n → exponent 0 (monomial_of n key) ≡ result }
{
    let exponent = key / FIRST_POWER;
    exponent as usize
}

// ---- all exponents
// Whether the exponents of variables above n are 0. Of eight variables no bit comes after, and nothing is asked: a
// question here would be asked of every term.
pub fn key_fits(n: u8, key: Key) -> bool
    requires { Slot n }
    ensures { result ≡ key_fits key_width n key }
{
    let bits = bits_after(n);
    let others = (1 << bits) - 1;
    key & others == 0
}

// The lower and the higher exponents of all bytes.
const LOWER_DIGITS: Key = 0x0F0F0F0F;

const HIGHER_DIGITS: Key = 0xF0F0F0F0;

// Times this word, the first of a word's four bytes is the sum of all, where that is below 256.
const EACH_BYTE: u64 = 0x01010101;

const FIRST_BYTE: u64 = 1 << 24;

// The total degree: the two exponents of each byte are added, all bytes at once, and then the bytes, by one
// multiplication.
pub fn degree(key: Key) -> u32
    ensures { result ≡ key_degree key }
{
    let lower = key & LOWER_DIGITS;
    let higher = key & HIGHER_DIGITS;
    let sums = (lower + higher / 16) as u64;
    (sums * EACH_BYTE / FIRST_BYTE % LAST_BYTE) as u32
}

// The lowest bits of all exponents.
const LOWEST_BITS: Key = 0x11111111;

// Whether all exponents are even.
pub fn all_even(key: Key) -> bool
    ensures { result ≡ key_even key }
{
    key & LOWEST_BITS == 0
}

// ---- the two halves of a key, four exponents each, and what one of the first three of them counts
const HALF: u32 = 1 << 16;

const FIRST: u32 = 1 << 12;

const SECOND: u32 = 1 << 8;

const THIRD: u32 = 1 << 4;

// The product of (exponent + 1) over one half.
fn half_divisor(half: u32) -> u64
    requires { half < 65536 }
    ensures { result ≡ half_divisor half }
{
    let low = half % FIRST;
    let lower = low % SECOND;
    let first = (half / FIRST) as u64;
    let second = (low / SECOND) as u64;
    let third = (lower / THIRD) as u64;
    let fourth = (lower % THIRD) as u64;
    (first + 1) * ((second + 1) * ((third + 1) * (fourth + 1)))
}

// The product of (exponent + 1). Up to four variables the lower half is 0.
pub fn divisor(key: Key) -> u64
    ensures { result ≡ key_divisor key }
{
    let high = half_divisor(key / HALF);
    let lower = key % HALF;
    if lower == 0 {
        return high;
    }
    high * half_divisor(lower)
}

// ---- wide keys: seven bits an exponent, variable 1 the highest, and a last byte for the degree, since in a product
// exponents and degrees add up. Exponents are moved apart, and together, many at once: the two halves of a key, then
// the two bytes of each half, then the two exponents of each byte, by masks for the higher and the lower of all pairs
const LAST_BYTE: u64 = 1 << 8;

const HALF_BITS: u64 = 1 << 16;

const WIDE_HALF: u64 = 1 << 28;

// The bytes of both halves, which are then 14 bits apart: six more.
const HIGHER_BYTES: u64 = 0xFF00000FF00;

const LOWER_BYTES: u64 = 0xFF00000FF;

const BYTE_GAP: u64 = 1 << 6;

// The exponents of all bytes, which are then seven bits apart: three more.
const HIGHER_OF_BYTES: u64 = 0x3C00F003C00F0;

const LOWER_OF_BYTES: u64 = 0x3C00F003C00F;

const DIGIT_GAP: u64 = 1 << 3;

// The exponents of a key, each with seven bits.
fn spread(key: Key) -> u64
    ensures { result ≡ half_wide (key / 65536) * 268435456 + half_wide (key % 65536) }
{
    let word = key as u64;
    let halves = word / HALF_BITS * WIDE_HALF + word % HALF_BITS;
    let bytes = (halves & HIGHER_BYTES) * BYTE_GAP + (halves & LOWER_BYTES);
    (bytes & HIGHER_OF_BYTES) * DIGIT_GAP + (bytes & LOWER_OF_BYTES)
}

// The wide key of a key.
pub fn wide_key(key: Key) -> u64
    ensures { result ≡ widened key }
{
    let exponents = spread(key);
    let total = degree(key) as u64;
    exponents * LAST_BYTE + total
}

// The degree in a wide key: that of a pair is the sum of its terms' own.
pub fn wide_degree(wide: u64) -> u64
    ensures { result ≡ wide_degree wide }
{
    wide % LAST_BYTE
}

// The same masks where the exponents are seven bits apart, and the bytes 14.
const HIGHER_OF_WIDE: u64 = 0x1E007801E00780;

const HIGHER_WIDE_BYTES: u64 = 0x3FC00003FC000;

// The key of a wide key. Its exponents have to fit four bits each; its degree is not looked at.
pub fn narrow_key(wide: u64) -> Key
    requires { Below 16 (wide_exponents wide) }
    ensures { result ≡ narrowed wide }
{
    let exponents = wide / LAST_BYTE;
    let bytes = (exponents & HIGHER_OF_WIDE) / DIGIT_GAP + (exponents & LOWER_OF_BYTES);
    let halves = (bytes & HIGHER_WIDE_BYTES) / BYTE_GAP + (bytes & LOWER_BYTES);
    (halves / WIDE_HALF * HALF_BITS + halves % WIDE_HALF) as Key
}
