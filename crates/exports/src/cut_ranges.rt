// The range of a cut box.
ghost use Rattle.std.specs.Prelude.{◌≡◌, length};
ghost use Rattle.c_cuts.specs.CutCalls.{handed_cut, cut_fits, cut_state, called_cut};

use model_types::Key;

// The range of a model, variable i cut into 2^k pieces, with order d: the refusal's number, 0 without one, or MISUSED.
// The two ends go into one slice, the refusal's place into the other.
#[unsafe(no_mangle)]
pub extern "C" fn hechroung_raw_range_cut(
    d: u8,
    i: u8,
    k: u8,
    n: u8,
    count: usize,
    radius: u64,
    keys: &[Key],
    coefficients: &[i64],
    ends: &mut [i64],
    numbers: &mut [u64],
) -> u8
    ensures { cut_state result ends.new numbers.new
        ≡ called_cut
        (cut_fits count (length keys.now) (length coefficients.now)
        (length ends.old) (length numbers.old))
        (handed_cut d i k n count radius keys.now coefficients.now)
        ends.old numbers.old }
{
    c_cuts::range_cut(d, i, k, n, count, radius, keys, coefficients, ends, numbers)
}
