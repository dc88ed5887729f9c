// An index of slots that lead to entries by their keys: where a search begins, how it goes on, and emptying.
#![tactic(auto)]

ghost use Rattle.std.specs.Prelude.{◌≡◌, ℕ, ◌<◌, ◌≤◌, get_or};
ghost use Rattle.product_hash_slots.specs.Slots.{home_slots, home_slot, Told, path, Searchable, Missed};
ghost use Rattle.product_hash_slots.specs.Slots.{Found};

// Two odd factors found by trial: the sums of two wide keys of up to four variables then seldom begin at the same slot,
// and those of eight variables no more often than numbers at random.
const LOW_FACTOR: u64 = 3247425551;

const HIGH_FACTOR: u64 = 1555934479;

const HALF_WORD: u64 = 1 << 32;

// Above the lowest byte, the degree, stand the exponents of variables 6 to 8 and a part of the fifth's.
const DEGREES: u64 = 1 << 8;

// ---- the way of a key: its upper 28 bits, the exponents of variables 1 to 4, then the lower ones, and a 1 above all.
// The lower ones also count in the first 28 steps, times a factor of that length: keys that differ in variables 5 to 8
// alone part early. Up to four variables only the degree stands there, which makes 0
const LOWER_BITS: u64 = 1 << 36;

const ABOVE_UPPER: u64 = 1 << 28;

const ABOVE_ALL: u64 = 1 << 63;

const WAY_FACTOR: u64 = 0x9E3779B;

// Where the search for a key begins, of so many slots: its lower half times a factor, and the upper half, are added
// modulo 2^32, and the sum is multiplied by a second factor, which the last variables add to. So the number of a sum of
// two keys is not the sum of their numbers, but where only variables 1 to 4 occur; else terms with small numbers would
// have all their products begin at a few slots. As the number is to 2^32 so is the slot to the number of slots: a
// remainder by that would cost a division.
fn home_slot(homes: usize, key: u64) -> usize
    requires { (0 < homes) × (homes ≤ home_slots) }
    ensures { (result ≡ home_slot homes key) × (result < homes) }
{
    let low = key % HALF_WORD;
    let joined = low * LOW_FACTOR + key / HALF_WORD;
    let factor = low / DEGREES * 2 + HIGH_FACTOR;
    let mixed = joined % HALF_WORD * factor;
    let scaled = mixed % HALF_WORD * homes as u64;
    (scaled / HALF_WORD) as usize
}

// The entry that a slot leads to: the same number in a wider type.
pub fn entry_number(x: u16) -> usize
    ensures { result ≡ x }
{
    x as usize
}

// The way of a key as a number, whose bits say left or right, the lowest first.
fn way(key: u64) -> usize
    requires { Told key }
    ensures { result ≡ path key }
{
    let lower = key % LOWER_BITS;
    let first = (key / LOWER_BITS + lower * WAY_FACTOR / LOWER_BITS) % ABOVE_UPPER;
    (first + lower * ABOVE_UPPER + ABOVE_ALL) as usize
}

// The first slot on the key's way that leads to the key, where the home slot leads to another entry. The way goes on
// below each entry that it passes, to the left or the right by one bit after the other. Two keys on one way agree in
// all bits that it has used, so that it passes 63 entries at the most: `path` halves with each, and is never 0.
fn find_below(slots: &[u16], keys: &[u64], homes: usize, key: u64, entry: usize) -> usize
    requires searchable { Searchable homes slots.now keys.now key }
    requires missed { Missed homes slots.now keys.now key entry }
    ensures { Found homes slots.now keys.now key result }
{
    let whole = way(key);
    let mut h = homes + 2 * entry + whole % 2;
    let mut path = whole / 2;
    // No range counts this loop: it ends where the key is found.
    loop {
        let x = entry_number(slots[h]);
        if keys[x] == key {
            return h;
        }
        h = homes + 2 * x + path % 2;
        path = path / 2;
    }
}

// The first slot on the key's way that leads to the key. Most searches end at the home slot: no way is made for these.
pub fn find(slots: &[u16], keys: &[u64], homes: usize, key: u64) -> usize
    requires { Searchable homes slots.now keys.now key }
    ensures { Found homes slots.now keys.now key result }
{
    let h = home_slot(homes, key);
    let x = entry_number(slots[h]);
    if keys[x] == key {
        return h;
    }
    find_below(slots, keys, homes, key, x)
}

// Every slot is emptied.
pub fn clear(slots: &mut [u16])
    ensures { (s : ℕ) → get_or slots.new s 0 ≡ 0 }
{
    slots.fill(0);
}
