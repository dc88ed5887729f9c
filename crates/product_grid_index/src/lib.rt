// Products in a grid: where the exponents of two factors are small beside the number of their terms, each monomial of
// the product has a place of its own, the sum of two numbers that are found once for each term.
#![tactic(auto)]

ghost use Rattle.std.specs.Prelude.{◌≡◌, ℕ, ◌/◌, ◌%◌, ◌^◌, ◌<◌, ◌≤◌, length, get_or};
ghost use Rattle.product_grid_index.specs.Grid.{others_of};
ghost use Rattle.product_grid_index.specs.Grid.{Low};
ghost use Rattle.product_grid_index.specs.Grid.{raised_by, extents};
ghost use Rattle.product_grid_index.specs.Grid.{sides_for, Narrow, place_by, word_by};
ghost use Rattle.product_grid_index.specs.Degrees.{TopDegree};

// ---- the exponents of a wide key: seven bits each, above 36 others
const FIRST: u64 = 1 << 57;

const SECOND: u64 = 1 << 50;

const THIRD: u64 = 1 << 43;

const FOURTH: u64 = 1 << 36;

const DIGIT: u64 = 1 << 7;

// What stands after the first four exponents begins with the degree, a byte.
const DEGREE: u64 = 1 << 8;

// Where there are other exponents, a grid counts as having so many places more, which is too many.
const TOO_MANY: usize = 1 << 24;

// The exponent that counts UNIT in a wide key.
fn exponent<const UNIT: u64>(key: u64) -> u8
    requires { 0 < UNIT }
    ensures { result ≡ key / UNIT % 2 ^ 7 }
{
    (key / UNIT % DIGIT) as u8
}

// The exponents of the other variables, as one number.
fn others_of(key: u64) -> usize
    ensures { result ≡ others_of key }
{
    (key % FOURTH / DEGREE) as usize
}

// What a place counts in a word that has a degree in its last byte.
pub const LAST_BYTE: usize = 1 << 8;

// ---- the grid
// The largest exponent of each of the first four variables, as bytes, of which the compiler compares many at once; and
// the bits of all exponents of the others, 0 only where there are none.
#[derive(Clone, Copy)]
pub struct Extents {
    pub first: u8,
    pub second: u8,
    pub third: u8,
    pub fourth: u8,
    pub others: usize,
}

// How many exponents of each variable there can be in a product, and how many monomials.
#[derive(Clone, Copy)]
pub struct Sides {
    pub first: usize,
    pub second: usize,
    pub third: usize,
    pub fourth: usize,
    pub size: usize,
}

// The larger of the exponents so far and those of one more key.
fn raised(e: Extents, key: u64) -> Extents
    ensures { result ≡ raised_by e key }
{
    Extents {
        first: e.first.max(exponent::<FIRST>(key)),
        second: e.second.max(exponent::<SECOND>(key)),
        third: e.third.max(exponent::<THIRD>(key)),
        fourth: e.fourth.max(exponent::<FOURTH>(key)),
        others: e.others | others_of(key),
    }
}

// The largest exponents of the first count keys.
pub fn extents_of(keys: &[u64], count: usize) -> Extents
    requires { count ≤ length keys.now }
    ensures { result ≡ extents count keys.now }
{
    let mut e = Extents {
        first: 0,
        second: 0,
        third: 0,
        fourth: 0,
        others: 0,
    };
    for key in &keys[..count] {
        e = raised(e, *key);
    }
    e
}

// The grid for the products of terms with such exponents.
pub fn sides_of(e: Extents, h: Extents) -> Sides
    requires low { Low e }
    requires low_2 { Low h }
    ensures { result ≡ sides_for e h }
{
    let first = e.first as usize + h.first as usize + 1;
    let second = e.second as usize + h.second as usize + 1;
    let third = e.third as usize + h.third as usize + 1;
    let fourth = e.fourth as usize + h.fourth as usize + 1;
    let plane = first * second;
    let cube = plane * third;
    let others = (e.others + h.others) * TOO_MANY;
    Sides {
        first: first,
        second: second,
        third: third,
        fourth: fourth,
        size: cube * fourth + others,
    }
}

// The place of a key in a grid with such sides.
fn place_of(key: u64, second: usize, third: usize, fourth: usize) -> usize
    requires { Narrow second third fourth }
    ensures { result ≡ place_by second third fourth key }
{
    let a = exponent::<FIRST>(key) as usize;
    let b = exponent::<SECOND>(key) as usize;
    let c = exponent::<THIRD>(key) as usize;
    let d = exponent::<FOURTH>(key) as usize;
    let line = a * second + b;
    let plane = line * third + c;
    plane * fourth + d
}

// That place, and in a last byte the key's own degree: the sum of two such words has the place and the degree of their
// product.
fn word_of(key: u64, second: usize, third: usize, fourth: usize) -> usize
    requires { Narrow second third fourth }
    ensures { result ≡ word_by second third fourth key }
{
    let place = place_of(key, second, third, fourth);
    let degree = model_keys::wide_degree(key);
    place * LAST_BYTE + degree as usize
}

// The words of the first count keys.
pub fn word_all(
    keys: &[u64],
    count: usize,
    second: usize,
    third: usize,
    fourth: usize,
    words: &mut [usize],
)
    requires narrow { Narrow second third fourth }
    requires count_in_bounds { (count ≤ length keys.now) × (count ≤ length words.old) }
    ensures { (i : ℕ) → i < count
        → get_or words.new i 0 ≡ word_by second third fourth (get_or keys.now i 0) }
{
    for i in 0..count {
        words[i] = word_of(keys[i], second, third, fourth);
    }
}

// ---- degrees
// The largest degree of the first count keys, 0 if there is none.
pub fn degree_of(keys: &[u64], count: usize) -> usize
    requires { count ≤ length keys.now }
    ensures { TopDegree keys.now count result }
{
    let mut most = 0;
    for key in &keys[..count] {
        let degree = model_keys::wide_degree(*key);
        most = most.max(degree as u8);
    }
    most as usize
}
