// The pieces of a variable that is cut: what is put in for it, and the range of a model over one piece.
#![tactic(auto)]

ghost use Rattle.std.specs.Prelude.{◌≡◌, ◌*◌, ◌^◌, ◌≤◌, ◌<◌};
ghost use Rattle.calculus.specs.Key.{key_width};
ghost use Rattle.calculus.specs.Refusal.{at_place};
ghost use Rattle.product_room.specs.ProductTerms.{ScratchRoom};
ghost use Rattle.model_types.specs.ModelStruct.{view, pack, bounds};
ghost use Rattle.cuts.specs.Cuts.{most_depth, half_width, piece_middle, piece, piece_range};
ghost use Rattle.model_cut_pieces.specs.Cutting.{Cutting, piece_products};

use model_types::{Bounds, Key, Model, Refused};

// The products of a model and a piece, which has two terms at the most.
pub const PIECE_PRODUCTS: usize = model_types::MOST_TERMS * 2;

// The number of pieces at depth k.
pub fn pieces(k: u8) -> u64
    requires { k ≤ most_depth }
    ensures { result ≡ 2 ^ k }
{
    1 << k
}

// Half the width of a piece.
fn half_width(k: u8) -> u64
    requires { k ≤ most_depth }
    ensures { result ≡ half_width k }
{
    let unit = fixed::unit();
    let size = fixed::magnitude(unit);
    let count = pieces(k);
    size / count
}

// The middle of piece j.
fn piece_middle(k: u8, j: u64) -> i64
    requires k_le_most_depth { k ≤ most_depth }
    requires j_bound { j < 2 ^ k }
    ensures { result ≡ piece_middle k j }
{
    let width = half_width(k);
    let unit = fixed::unit();
    let left = fixed::negated(unit);
    let odd = 2 * j + 1;
    let right = fixed::signed(odd * width);
    fixed::sum(left, right)
}

// What is put in for variable i of n: the middle of piece j, and half its width times the variable.
fn piece(n: u8, i: u8, k: u8, j: u64) -> Model
    requires le_i { (1 ≤ i) × (i ≤ n) × (n ≤ key_width) }
    requires k_le_most_depth { k ≤ most_depth }
    requires j_bound { j < 2 ^ k }
    ensures { result ≡ pack (piece n i k j) }
{
    let middle = piece_middle(k, j);
    let width = fixed::signed(half_width(k));
    let key = model_keys::raised(0, i);
    let mut keys: [Key; model_types::MOST_TERMS] = [0; model_types::MOST_TERMS];
    let mut coefficients = [0i64; model_types::MOST_TERMS];
    if middle == 0 {
        keys[0] = key;
        coefficients[0] = width;
        return Model {
            n: n,
            count: 1,
            radius: 0,
            keys: keys,
            coefficients: coefficients,
        };
    }
    coefficients[0] = middle;
    keys[1] = key;
    coefficients[1] = width;
    Model {
        n: n,
        count: 2,
        radius: 0,
        keys: keys,
        coefficients: coefficients,
    }
}

// The range of f over piece j of variable i, with order d; a refusal has j as its place. The table is scratch.
pub fn piece_range(
    d: u8,
    i: u8,
    k: u8,
    j: u64,
    f: Model,
    slots: &mut [u16],
    keys: &mut [u64],
    sums: &mut [i64],
) -> Bounds
    requires cutting { Cutting d i k f }
    requires j_bound { j < 2 ^ k }
    requires scratch_room { ScratchRoom piece_products slots.old keys.old sums.old }
    ensures { result ≡ bounds (at_place j (piece_range d i k (view f) j)) }
{
    let g = piece(f.n, i, k, j);
    let a = model_substitution::substituted(d, i, f, g, slots, keys, sums);
    let m = a.model;
    let w = a.verdict;
    match w {
        Ok(()) => model_range::range_of(m),
        Err(Refused(refusal, _place)) => model_types::refuse_bounds(refusal, j as usize),
    }
}
