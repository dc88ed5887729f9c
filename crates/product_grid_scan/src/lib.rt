// What an order keeps of the sums in a grid: rounded, without zeros, in the order of their keys, and what it loses. A
// place tells its exponents, and beside each sum stands the degree that its pairs of terms brought: that one keeps or
// sweeps. No place is looked at whose degree no product has.
#![tactic(auto)]

ghost use Rattle.std.specs.Prelude.{◌≡◌};
ghost use Rattle.product_rising.specs.Rising.{Room, Part, Scanned};
ghost use Rattle.product_grid_scan.specs.GridTerms.{steps_within, row_terms, line_terms, plane_terms};
ghost use Rattle.product_grid_scan.specs.GridTerms.{RowReady, LineReady, PlaneReady};
ghost use Rattle.product_grid_scan.specs.GridTerms.{ScanReady, grid_terms};

use product_sums::Gathered;

// Handed on: crates above name these through this crate.
pub use product_rising::model_types;

// The count that says that a product has more terms than a model can hold.
const TOO_MANY: usize = model_types::MOST_TERMS + 1;

// ---- what one more exponent of each variable adds to a wide key without its degree
const FIRST: u64 = 1 << 57;

const SECOND: u64 = 1 << 50;

const THIRD: u64 = 1 << 43;

const FOURTH: u64 = 1 << 36;

// ---- the places of a grid, variable by variable: each walk begins with the key of the exponents so far, and with how
// many rows, lines or places stand before it; left is how much of the largest degree these exponents leave
// How many exponents of a variable there are on such a side that leave the degree at most that much.
fn steps(side: usize, left: usize) -> usize
    ensures { result ≡ steps_within side left }
{
    if left < side { left + 1 } else { side }
}

// The sums of n exponents of variable 4.
fn row(
    sums: &[i64],
    degrees: &[u8],
    at: usize,
    n: usize,
    key: u64,
    d: u64,
    kept: &mut [u64],
    coefficients: &mut [i64],
    from: usize,
) -> Gathered
    requires row_ready { RowReady sums.now degrees.now at n key }
    requires room { Room from kept.old coefficients.old }
    ensures { Part d (row_terms sums.now degrees.now at n key) from
        kept.old coefficients.old kept.new coefficients.new result }
{
    let mut count = from;
    let mut rounding = 0;
    let mut swept = 0;
    for i in 0..n {
        let place = at + i;
        let z = sums[place];
        let more = FOURTH * i as u64;
        let degree = degrees[place] as u64;
        let bare = key + more;
        let p = product_rising::push(kept, coefficients, count, bare + degree, degree, z, d);
        count = p.count;
        rounding += p.rounding;
        swept += p.swept;
    }
    Gathered {
        count: count,
        rounding: rounding,
        swept: swept,
    }
}

// The rows of n exponents of variable 3.
fn line(
    sums: &[i64],
    degrees: &[u8],
    fourth: usize,
    at: usize,
    n: usize,
    key: u64,
    left: usize,
    d: u64,
    kept: &mut [u64],
    coefficients: &mut [i64],
    from: usize,
) -> Gathered
    requires line_ready { LineReady sums.now degrees.now fourth at n key left }
    requires room { Room from kept.old coefficients.old }
    ensures { Part d (line_terms sums.now degrees.now fourth at n key left) from
        kept.old coefficients.old kept.new coefficients.new result }
{
    let mut count = from;
    let mut rounding = 0;
    let mut swept = 0;
    for i in 0..n {
        let rest = left - i;
        let m = steps(fourth, rest);
        let place = (at + i) * fourth;
        let more = THIRD * i as u64;
        let p = row(
            sums,
            degrees,
            place,
            m,
            key + more,
            d,
            kept,
            coefficients,
            count,
        );
        count = p.count;
        rounding += p.rounding;
        swept += p.swept;
    }
    Gathered {
        count: count,
        rounding: rounding,
        swept: swept,
    }
}

// The lines of n exponents of variable 2.
fn plane(
    sums: &[i64],
    degrees: &[u8],
    third: usize,
    fourth: usize,
    at: usize,
    n: usize,
    key: u64,
    left: usize,
    d: u64,
    kept: &mut [u64],
    coefficients: &mut [i64],
    from: usize,
) -> Gathered
    requires plane_ready { PlaneReady sums.now degrees.now third fourth at n key left }
    requires room { Room from kept.old coefficients.old }
    ensures { Part d (plane_terms sums.now degrees.now third fourth at n key left) from
        kept.old coefficients.old kept.new coefficients.new result }
{
    let mut count = from;
    let mut rounding = 0;
    let mut swept = 0;
    for i in 0..n {
        let rest = left - i;
        let m = steps(third, rest);
        let place = (at + i) * third;
        let more = SECOND * i as u64;
        let p = line(
            sums,
            degrees,
            fourth,
            place,
            m,
            key + more,
            rest,
            d,
            kept,
            coefficients,
            count,
        );
        count = p.count;
        rounding += p.rounding;
        swept += p.swept;
    }
    Gathered {
        count: count,
        rounding: rounding,
        swept: swept,
    }
}

// The terms that order d keeps of the sums in a grid whose monomials have at most a degree, rising, with the two shares
// of what it loses.
pub fn scan(
    sums: &[i64],
    degrees: &[u8],
    first: usize,
    second: usize,
    third: usize,
    fourth: usize,
    most: usize,
    d: u64,
    kept: &mut [u64],
    coefficients: &mut [i64],
) -> Gathered
    requires scan_ready { ScanReady sums.now degrees.now first second third fourth most }
    requires room { Room 0 kept.old coefficients.old }
    ensures { Scanned d (grid_terms sums.now degrees.now first second third fourth most)
        kept.new coefficients.new result }
{
    let n = steps(first, most);
    let mut count = 0;
    let mut rounding = 0;
    let mut swept = 0;
    for i in 0..n {
        let rest = most - i;
        let m = steps(second, rest);
        let place = i * second;
        let key = FIRST * i as u64;
        let p = plane(
            sums,
            degrees,
            third,
            fourth,
            place,
            m,
            key,
            rest,
            d,
            kept,
            coefficients,
            count,
        );
        count = p.count;
        rounding += p.rounding;
        swept += p.swept;
    }
    if model_types::MOST_TERMS < count {
        return Gathered {
            count: TOO_MANY,
            rounding: 0,
            swept: 0,
        };
    }
    Gathered {
        count: count,
        rounding: rounding,
        swept: swept,
    }
}
