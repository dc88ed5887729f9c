// The second form that checks a proposal h, w for the quotient f / g: 1 - w × g. The models lie in slices, each a count
// and two slices that may be longer than it; w has no radius.
#![tactic(auto)]

ghost use Rattle.std.specs.Prelude.{◌*◌, ◌≤◌, length};
ghost use Rattle.calculus.specs.Refusal.{at_place};
ghost use Rattle.calculus.specs.Operations.{deviation};
ghost use Rattle.model_types.specs.ModelStruct.{view, answer};
ghost use Rattle.model_slices.specs.HandedModels.{handed};
ghost use Rattle.model_slices.specs.HeldModels.{Room};
ghost use Rattle.model_limits.specs.Limits.{LeftIn};
ghost use Rattle.model_slice_results.specs.product_room.ProductTerms.{ScratchRoom};
ghost use Rattle.product_answer.specs.ProductFactors.{Factors};

use model_limits::Left;
use model_types::{Key, MOST_TERMS};

// Handed on: crates above name these through this crate.
pub use model_slice_results;

// 1 - w × g, where w is the first and g the second in slices: its terms are left in the last two. The table is scratch
// for the product. The model of 1 has one term, of key 0.
pub fn deviation(
    d: u8,
    n: u8,
    na: usize,
    ka: &[Key],
    ca: &[i64],
    nb: usize,
    eb: u64,
    kb: &[Key],
    cb: &[i64],
    slots: &mut [u16],
    keys: &mut [u64],
    sums: &mut [i64],
    keysz: &mut [Key],
    z: &mut [i64],
) -> Left
    requires factors { Factors d (handed n na 0 ka.now ca.now)
        (handed n nb eb kb.now cb.now) }
    requires na_in_bounds { (na ≤ length ka.now) × (na ≤ length ca.now) }
    requires nb_in_bounds { (nb ≤ length kb.now) × (nb ≤ length cb.now) }
    requires scratch_room { ScratchRoom (na * nb) slots.old keys.old sums.old }
    requires room { Room keysz.old z.old }
    ensures { LeftIn n result keysz.new z.new (answer (at_place 0 (deviation d
        (view (handed n nb eb kb.now cb.now))
        (view (handed n na 0 ka.now ca.now))))) }
{
    let mut keysp: [Key; MOST_TERMS] = [0; MOST_TERMS];
    let mut p = [0i64; MOST_TERMS];
    let k = model_slice_results::product(
        d, n, na, 0, ka, ca, nb, eb, kb, cb, slots, keys, sums, &mut keysp, &mut p,
    );
    let v = k.verdict;
    let Ok(()) = v else {
        return k;
    };
    let constant: [Key; 1] = [0; 1];
    let unit = [fixed::unit(); 1];
    model_slice_results::difference(
        n, 1, 0, &constant, &unit, k.count, k.radius, &keysp, &p, keysz, z,
    )
}
