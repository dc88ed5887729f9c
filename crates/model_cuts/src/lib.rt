// The range of a model, narrower by cutting the box: one variable is cut into 2^k equal pieces. The call takes
// anything, makes the tests in order, and answers two ends or the refusal with its place.
#![tactic(auto)]

ghost use Rattle.std.specs.Prelude.{◌≡◌};
ghost use Rattle.product_room.specs.ProductTerms.{ScratchRoom};
ghost use Rattle.model_types.specs.ModelStruct.{view, bounds};
ghost use Rattle.model_cut_pieces.specs.Cutting.{Cutting, piece_products};
ghost use Rattle.cuts.specs.Cuts.{cut_range, call_cut_range};

use model_cut_pieces::PIECE_PRODUCTS;
use model_types::{Bounds, Model, Refusal, Refused};

// The largest depth.
const MOST_DEPTH: u8 = 6;

// The overlap of the undivided range with what the ranges of the pieces cover. The table is scratch for all pieces.
fn cut(
    d: u8,
    i: u8,
    k: u8,
    f: Model,
    slots: &mut [u16],
    keys: &mut [u64],
    sums: &mut [i64],
) -> Bounds
    requires cutting { Cutting d i k f }
    requires scratch_room { ScratchRoom piece_products slots.old keys.old sums.old }
    ensures { result ≡ bounds (cut_range d i k (view f)) }
{
    let whole = model_range::range_of(f);
    let first = model_cut_pieces::piece_range(d, i, k, 0, f, slots, keys, sums);
    let u = first.verdict;
    let Ok(()) = u else {
        return first;
    };
    let pieces = model_cut_pieces::pieces(k);
    let mut low = first.low;
    let mut high = first.high;
    for j in 1..pieces {
        let next = model_cut_pieces::piece_range(d, i, k, j, f, slots, keys, sums);
        let w = next.verdict;
        let Ok(()) = w else {
            return next;
        };
        low = low.min(next.low);
        high = high.max(next.high);
    }
    let from = whole.low.max(low);
    let to = whole.high.min(high);
    Bounds {
        low: from,
        high: to,
        verdict: Ok(()),
    }
}

// The range of f over the box, in units, variable i cut into 2^k pieces, with order d: every function within the model
// stays inside, and the answer lies inside the range of `model::range`. 3, 5, 6, 14, then the first 8 or 7 of the
// pieces, with the piece's number, from 0, as place.
pub fn range(d: u8, i: u8, k: u8, f: Model) -> Bounds
    ensures { result ≡ bounds (call_cut_range d i k (view f)) }
{
    let v = model_call_tests::integrating(d, i, f);
    match v {
        Ok(()) => {
            if MOST_DEPTH < k {
                return model_types::refuse_bounds(Refusal::CutTooDeep, 0);
            }
            let mut slots = [0u16; product_hash_table::SLOTS_EACH * PIECE_PRODUCTS + 1];
            let mut keys = [0u64; PIECE_PRODUCTS + 1];
            let mut sums = [0i64; PIECE_PRODUCTS + 1];
            cut(d, i, k, f, &mut slots, &mut keys, &mut sums)
        }
        Err(Refused(refusal, place)) => model_types::refuse_bounds(refusal, place),
    }
}
