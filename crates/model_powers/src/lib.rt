// A model by the powers of one of its variables: the largest exponent, and what multiplies each power.
#![tactic(auto)]

ghost use Rattle.std.specs.Prelude.{◌≡◌, ◌<◌};
ghost use Rattle.calculus.specs.Operations.{largest_exponent, part};
ghost use Rattle.model_types.specs.ModelStruct.{view, pack};
ghost use Rattle.model_slices.specs.HeldModels.{held, Room};
ghost use Rattle.model_powers.specs.Powers.{KeysOf, PartOf, exponents, Chained};

use model_types::Key;

// The exponents that a key has room for.
pub const EXPONENTS: usize = 16;

// The terms of a model by their exponents of variable i, as chains of places: the first term of each power, and after
// each term the next one of the same power, or the number of terms where there is none.
#[derive(Clone, Copy)]
pub struct Powers {
    pub largest: u32,
    pub first: [u8; EXPONENTS],
    pub next: [u8; model_types::MOST_TERMS],
}

// Where the terms of each power of variable i stand, and the largest exponent. (From the last term down, so that each
// place found so far is the next one of its power.)
pub fn by_powers(i: u8, count: usize, keys: &[Key]) -> Powers
    requires { KeysOf i count keys.now }
    ensures chained { Chained i count keys.now result }
    ensures largest { (w : KeysOf i count keys.now)
        → result.largest ≡ largest_exponent i
        (view (held w.vars count w.radius keys.now w.coefficients)).terms }
{
    let none = count as u8;
    let mut largest: u32 = 0;
    let mut first = [none; EXPONENTS];
    let mut next = [0u8; model_types::MOST_TERMS];
    for j in (0..count).rev() {
        let k = keys[j];
        let exponent = model_keys::exponent_of(k, i);
        let e = exponent as usize;
        let after = first[e];
        next[j] = after;
        first[e] = j as u8;
        largest = largest.max(exponent);
    }
    Powers {
        largest,
        first,
        next,
    }
}

// What multiplies the k-th power of variable i goes into two slices; the number of its terms. The model's
// slices have one lifetime, so that a struct can lend its two arrays.
pub fn part<'a>(
    i: u8,
    k: u32,
    p: Powers,
    total: usize,
    keys: &'a [Key],
    coefficients: &'a [i64],
    stored: &mut [Key],
    out: &mut [i64],
) -> usize
    requires part_of { PartOf i total keys.now coefficients.now }
    requires k_lt_exponents { (k < exponents) × Chained i total keys.now p }
    requires room { Room stored.old out.old }
    ensures { (w : PartOf i total keys.now coefficients.now)
        → held w.vars result 0 stored.new out.new
        ≡ pack (part i k (view (held w.vars total w.radius keys.now coefficients.now))) }
{
    let mut count = 0;
    let mut j = p.first[k as usize] as usize;
    // No range counts this loop: each term of a part names the next.
    while j < total {
        let key = keys[j];
        let c = coefficients[j];
        stored[count] = model_keys::without(key, i);
        out[count] = c;
        count += 1;
        j = p.next[j] as usize;
    }
    count
}
