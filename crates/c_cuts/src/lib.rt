// The range of a cut box on a model that is handed over: the test of its slices, the call, and its answer stored.
#![tactic(auto)]

ghost use Rattle.std.specs.Prelude.{◌≡◌, ◌≤◌, length};
ghost use Rattle.model_types.specs.ModelStruct.{bounds};
ghost use Rattle.c_cuts.specs.CutCalls.{handed_cut, cut_fits, cut_state, stored_cut};
ghost use Rattle.c_cuts.specs.CutCalls.{called_cut};

use model_types::{Bounds, Key};

// The two ends of an answer.
const ENDS: usize = 2;

// Its one number: the refusal's place.
const NUMBERS: usize = 1;

// Whether slices of these lengths have every place that the count names, and room for the answer.
pub fn cut_fits(count: usize, keys: usize, coefficients: usize, ends: usize, numbers: usize) -> bool
    ensures { result ≡ cut_fits count keys coefficients ends numbers }
{
    model_slices::borrowed(count, keys, coefficients) && ENDS <= ends && NUMBERS <= numbers
}

// The call on the model that is handed over.
pub fn handed_cut(
    d: u8,
    i: u8,
    k: u8,
    n: u8,
    count: usize,
    radius: u64,
    keys: &[Key],
    coefficients: &[i64],
) -> Bounds
    ensures { result ≡ bounds (handed_cut d i k n count radius keys.now coefficients.now) }
{
    let f = model_slices::taken(n, count, radius, keys, coefficients);
    model_cuts::range(d, i, k, f)
}

// Two ends go into one slice, the refusal's place into the other; its number.
pub fn store_cut(b: Bounds, ends: &mut [i64], numbers: &mut [u64]) -> u8
    requires { (2 ≤ length ends.old) × (1 ≤ length numbers.old) }
    ensures { cut_state result ends.new numbers.new
        ≡ stored_cut b ends.old numbers.old }
{
    let low = b.low;
    let high = b.high;
    let v = b.verdict;
    ends[0] = low;
    ends[1] = high;
    numbers[0] = model_slices::verdict_place(v) as u64;
    model_slices::verdict_number(v)
}

// The range of a model, variable i cut into 2^k pieces, with order d: the refusal's number, 0 without one, or MISUSED.
// The two ends go into one slice, the refusal's place into the other.
pub fn range_cut(
    d: u8,
    i: u8,
    k: u8,
    n: u8,
    count: usize,
    radius: u64,
    keys: &[Key],
    coefficients: &[i64],
    ends: &mut [i64],
    numbers: &mut [u64],
) -> u8
    ensures { cut_state result ends.new numbers.new
        ≡ called_cut
        (cut_fits count (length keys.now) (length coefficients.now)
        (length ends.old) (length numbers.old))
        (handed_cut d i k n count radius keys.now coefficients.now)
        ends.old numbers.old }
{
    let long = keys.len();
    if !cut_fits(count, long, coefficients.len(), ends.len(), numbers.len()) {
        return c_calls::MISUSED;
    }
    let b = handed_cut(d, i, k, n, count, radius, keys, coefficients);
    store_cut(b, ends, numbers)
}
