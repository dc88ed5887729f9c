// What an order keeps of all products of two lists of terms, by way of a grid.
#![tactic(auto)]

ghost use Rattle.polynomial.specs.Polynomial.{product};
ghost use Rattle.product_sums.specs.TermArrays.{terms};
ghost use Rattle.product_sums.specs.ProductSums.{ProductGathered};
ghost use Rattle.product_grid.specs.GridContracts.{GridReady, Zeros};

use product_grid_index::Sides;
use product_grid_scan::model_types;
use product_sums::Gathered;

// The terms that order d keeps of the products of each of the first na terms with each of the first nb, rising, with
// the two shares of what it loses, in a grid of zeros. The places of two terms add up to that of their product, and
// their degrees to its degree, which stands beside its sum; no product's degree is above the sum of the two largest.
// What stands beside a sum of 0 counts nothing.
pub fn gathered_empty(
    s: Sides,
    d: u64,
    ka: &[u64],
    ca: &[i64],
    na: usize,
    kb: &[u64],
    cb: &[i64],
    nb: usize,
    sums: &mut [i64],
    kept: &mut [u64],
    coefficients: &mut [i64],
) -> Gathered
    requires grid_ready { GridReady s ka.now ca.now na kb.now cb.now nb sums.old kept.old coefficients.old }
    requires zeros { Zeros s.size sums.old }
    ensures { ProductGathered d na ka.now ca.now
        nb kb.now cb.now kept.new coefficients.new result }
{
    let mut ia = [0usize; model_types::MOST_TERMS];
    let mut ib = [0usize; model_types::MOST_TERMS];
    product_grid_index::word_all(ka, na, s.second, s.third, s.fourth, &mut ia);
    product_grid_index::word_all(kb, nb, s.second, s.third, s.fourth, &mut ib);
    let mut degrees = [0u8; product_sums::PLACES];
    product_grid_fill::fill(sums, &mut degrees, ca, &ia, na, cb, &ib, nb);
    let a = product_grid_index::degree_of(ka, na);
    let b = product_grid_index::degree_of(kb, nb);
    let most = a + b;
    product_grid_scan::scan(
        sums,
        &degrees,
        s.first,
        s.second,
        s.third,
        s.fourth,
        most,
        d,
        kept,
        coefficients,
    )
}

// The same in a scratch grid, whatever is in it.
pub fn gathered(
    s: Sides,
    d: u64,
    ka: &[u64],
    ca: &[i64],
    na: usize,
    kb: &[u64],
    cb: &[i64],
    nb: usize,
    sums: &mut [i64],
    kept: &mut [u64],
    coefficients: &mut [i64],
) -> Gathered
    requires { GridReady s ka.now ca.now na kb.now cb.now nb sums.old kept.old coefficients.old }
    ensures { ProductGathered d na ka.now ca.now
        nb kb.now cb.now kept.new coefficients.new result }
{
    product_grid_fill::empty(sums, s.size);
    gathered_empty(s, d, ka, ca, na, kb, cb, nb, sums, kept, coefficients)
}
