// What an order keeps of sums whose keys rise: each is rounded and put after the others, or swept. So are the products
// of one term with others: no two of them meet, and they rise as those do.
#![tactic(auto)]

ghost use Rattle.std.specs.Prelude.{◌≡◌, [], ◌∷◌};
ghost use Rattle.model_keys.specs.Keys.{wide_degree};
ghost use Rattle.product_sums.specs.TermArrays.{at_key};
ghost use Rattle.product_sums.specs.ProductSums.{ProductGathered};
ghost use Rattle.product_rising.specs.Rising.{Room, OneReady, Part};

use product_sums::Gathered;

// Handed on: crates above name these through this crate.
pub use model_types;

// The sum z of one monomial, by its key and the degree in it: rounded and put after the n that are kept, or swept. A
// sum of 0 is rounded to 0 and leaves nothing, so nobody asks for it. Once there are too many, no more is put anywhere.
pub fn push(
    keys: &mut [u64],
    coefficients: &mut [i64],
    n: usize,
    key: u64,
    degree: u64,
    z: i64,
    d: u64,
) -> Gathered
    requires room { Room n keys.old coefficients.old }
    requires degree_value { degree ≡ wide_degree key }
    ensures { Part d (at_key key z ∷ []) n keys.old coefficients.old
        keys.new coefficients.new result }
{
    if d < degree {
        return Gathered {
            count: n,
            rounding: 0,
            swept: fixed::magnitude(z),
        };
    }
    let rounded = fixed::round(z);
    let c = rounded.coefficient;
    let residual = rounded.residual;
    if c == 0 {
        return Gathered {
            count: n,
            rounding: residual,
            swept: 0,
        };
    }
    if model_types::MOST_TERMS < n {
        return Gathered {
            count: n,
            rounding: residual,
            swept: 0,
        };
    }
    keys[n] = key;
    coefficients[n] = c;
    let next = n + 1;
    Gathered {
        count: next,
        rounding: residual,
        swept: 0,
    }
}

// The terms that order d keeps of the products of one term, the first of a list, with each of the first nb terms of
// another, with the two shares of what it loses.
pub fn one_times(
    d: u64,
    ka: &[u64],
    ca: &[i64],
    kb: &[u64],
    cb: &[i64],
    nb: usize,
    kept: &mut [u64],
    coefficients: &mut [i64],
) -> Gathered
    requires one_ready { OneReady ka.now ca.now kb.now cb.now nb }
    requires room { Room 0 kept.old coefficients.old }
    ensures { ProductGathered d 1 ka.now ca.now
        nb kb.now cb.now kept.new coefficients.new result }
{
    let key = ka[0];
    let c = ca[0];
    let mut count = 0;
    let mut rounding = 0;
    let mut swept = 0;
    for i in 0..nb {
        let k = kb[i];
        let y = cb[i];
        let z = fixed::product(c, y);
        let sum = key + k;
        let degree = model_keys::wide_degree(sum);
        let pushed = push(kept, coefficients, count, sum, degree, z, d);
        count = pushed.count;
        rounding += pushed.rounding;
        swept += pushed.swept;
    }
    Gathered {
        count: count,
        rounding: rounding,
        swept: swept,
    }
}
