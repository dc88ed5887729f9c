// The products of two lists of terms, each added at its place in a grid, which is told the pair's degree: no search,
// and no key is looked at. What the grid and the keys are stands in what is asked.
#![tactic(auto)]

ghost use Rattle.std.specs.Prelude.{◌≡◌, ℕ, ◌<◌, ◌≤◌, pos, length, get_or};
ghost use Rattle.algebra.specs.IntegerRing.{ℤR};
ghost use Rattle.polynomial.specs.Polynomial.{times, product};
ghost use Rattle.product_sums.specs.TermArrays.{at_key, terms};
ghost use Rattle.product_grid_fill.specs.Filling.{Filled, RowFits, AllFit, SummedUp};

// The first size sums are made 0.
pub fn empty(sums: &mut [i64], size: usize)
    requires { size ≤ length sums.old }
    ensures { (i : ℕ) → i < size → get_or sums.new i (pos 0) ≡ pos 0 }
{
    sums[..size].fill(0);
}

// The products of one term with the first count terms of the second factor are added, each at its place, and the
// place is told the pair's degree: one sum of two words has both.
fn row(
    sums: &mut [i64],
    degrees: &mut [u8],
    at: usize,
    c: i64,
    cb: &[i64],
    ib: &[usize],
    count: usize,
)
    requires { RowFits sums.old degrees.old at c cb.now ib.now count }
    ensures { (w : RowFits sums.old degrees.old at c cb.now
        ib.now count)
        → Filled w.sides sums.old (times ℤR (at_key w.key c) (terms count w.kb cb.now))
        sums.new degrees.new }
{
    for j in 0..count {
        let y = cb[j];
        let word = at + ib[j];
        let place = word / product_grid_index::LAST_BYTE;
        let degree = word % product_grid_index::LAST_BYTE;
        let z = fixed::product(c, y);
        let old = sums[place];
        let sum = fixed::sum(z, old);
        sums[place] = sum;
        degrees[place] = degree as u8;
    }
}

// The products of each of the first na terms with each of the first nb, each at its place in a grid of zeros, with
// their degrees.
pub fn fill(
    sums: &mut [i64],
    degrees: &mut [u8],
    ca: &[i64],
    ia: &[usize],
    na: usize,
    cb: &[i64],
    ib: &[usize],
    nb: usize,
)
    requires { AllFit sums.old degrees.old ca.now ia.now na cb.now ib.now nb }
    ensures { (w : AllFit sums.old degrees.old ca.now ia.now na
        cb.now ib.now nb)
        → SummedUp w.sides
        (product ℤR (terms na w.ka ca.now) (terms nb w.kb cb.now))
        sums.new degrees.new }
{
    for i in 0..na {
        let c = ca[i];
        row(sums, degrees, ia[i], c, cb, ib, nb);
    }
}
