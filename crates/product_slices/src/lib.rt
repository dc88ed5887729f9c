// The product of two models that lie in slices, without a struct of either: their terms are unpacked by wide keys, and
// what is kept of the products stays in two arrays until it is stored.
#![tactic(auto)]

ghost use Rattle.std.specs.Prelude.{◌≡◌, ℕ, ◌*◌, ◌≤◌, pos, length};
ghost use Rattle.calculus.specs.Model.{most_terms};
ghost use Rattle.calculus.specs.Operations.{multiply};
ghost use Rattle.calculus.specs.Shares.{product_shares};
ghost use Rattle.model_types.specs.ModelStruct.{view};
ghost use Rattle.model_types.specs.SharesStruct.{accounted};
ghost use Rattle.model_slices.specs.HandedModels.{handed, stored_keys, stored_coefficients};
ghost use Rattle.product_terms.specs.product_room.ProductTerms.{ScratchRoom, KeptRoom};
ghost use Rattle.product_answer.specs.ProductFactors.{Factors, Unpacked};
ghost use Rattle.product_slices.specs.HandedTerms.{Handed};
ghost use Rattle.product_answer.specs.KeptProduct.{kept_model, kept_accounted, KeptReady};
ghost use Rattle.product_answer.specs.KeptProduct.{kept_count};
ghost use Rattle.product_slices.specs.KeptPlaces.{zeroed};

use model_keys::Key;
pub use model_slices::Kept;
use model_types::{Accounted, Verdict};
use product_terms::product_strategy;

// ---- the factors
// The terms of a model go into an array by their wide keys; the sum of their |c|. The coefficients stay where they are.
fn unpack(count: usize, keys: &[Key], coefficients: &[i64], wide: &mut [u64]) -> u64
    requires handed { Handed count keys.now coefficients.now }
    requires count_in_bounds { count ≤ length wide.old }
    ensures { (w : Handed count keys.now coefficients.now)
        → Unpacked (handed w.vars count w.radius keys.now coefficients.now)
        wide.new coefficients.now result }
{
    let mut total = 0;
    for i in 0..count {
        let c = coefficients[i];
        wide[i] = model_keys::wide_key(keys[i]);
        total += fixed::magnitude(c);
    }
    total
}

// ---- the product
// The product of two sound models in n variables at order d, each in slices that may be longer than its count. The
// scratch memory serves as a grid or as a table, whatever is in it, and the terms that are kept go into the last two
// arrays.
pub fn multiplied_slices(
    d: u8,
    n: u8,
    count1: usize,
    radius1: u64,
    keys1: &[Key],
    coefficients1: &[i64],
    count2: usize,
    radius2: u64,
    keys2: &[Key],
    coefficients2: &[i64],
    slots: &mut [u16],
    keys: &mut [u64],
    sums: &mut [i64],
    kept: &mut [u64],
    coefficients: &mut [i64],
) -> Kept
    requires factors { Factors d (handed n count1 radius1 keys1.now coefficients1.now)
        (handed n count2 radius2 keys2.now coefficients2.now) }
    requires count1_in_bounds { (count1 ≤ length keys1.now) × (count1 ≤ length coefficients1.now) }
    requires count2_in_bounds { (count2 ≤ length keys2.now) × (count2 ≤ length coefficients2.now) }
    requires scratch_room { ScratchRoom (count1 * count2) slots.old keys.old sums.old }
    requires kept_room { KeptRoom kept.old coefficients.old }
    ensures exact { kept_accounted n result kept.new coefficients.new
        ≡ accounted (multiply d
        (view (handed n count1 radius1 keys1.now coefficients1.now))
        (view (handed n count2 radius2 keys2.now coefficients2.now)))
        (λ m. product_shares d
        (view (handed n count1 radius1 keys1.now coefficients1.now))
        (view (handed n count2 radius2 keys2.now coefficients2.now))) }
    ensures ready { KeptReady result kept.new coefficients.new }
{
    let mut ka = [0u64; model_types::MOST_TERMS];
    let mut kb = [0u64; model_types::MOST_TERMS];
    let a = unpack(count1, keys1, coefficients1, &mut ka);
    let b = unpack(count2, keys2, coefficients2, &mut kb);
    let r = product_strategy::kept_in_scratch(
        d as u64,
        &ka,
        coefficients1,
        count1,
        &kb,
        coefficients2,
        count2,
        slots,
        keys,
        sums,
        kept,
        coefficients,
    );
    product_answer::kept_answer(n, a, radius1, b, radius2, r, kept, coefficients)
}

// The same without scratch memory for the products.
pub fn multiplied_slices_alone(
    d: u8,
    n: u8,
    count1: usize,
    radius1: u64,
    keys1: &[Key],
    coefficients1: &[i64],
    count2: usize,
    radius2: u64,
    keys2: &[Key],
    coefficients2: &[i64],
    kept: &mut [u64],
    coefficients: &mut [i64],
) -> Kept
    requires factors { Factors d (handed n count1 radius1 keys1.now coefficients1.now)
        (handed n count2 radius2 keys2.now coefficients2.now) }
    requires count1_in_bounds { (count1 ≤ length keys1.now) × (count1 ≤ length coefficients1.now) }
    requires count2_in_bounds { (count2 ≤ length keys2.now) × (count2 ≤ length coefficients2.now) }
    requires kept_room { KeptRoom kept.old coefficients.old }
    ensures exact { kept_accounted n result kept.new coefficients.new
        ≡ accounted (multiply d
        (view (handed n count1 radius1 keys1.now coefficients1.now))
        (view (handed n count2 radius2 keys2.now coefficients2.now)))
        (λ m. product_shares d
        (view (handed n count1 radius1 keys1.now coefficients1.now))
        (view (handed n count2 radius2 keys2.now coefficients2.now))) }
    ensures ready { KeptReady result kept.new coefficients.new }
{
    let mut ka = [0u64; model_types::MOST_TERMS];
    let mut kb = [0u64; model_types::MOST_TERMS];
    let a = unpack(count1, keys1, coefficients1, &mut ka);
    let b = unpack(count2, keys2, coefficients2, &mut kb);
    let r = product_terms::kept_alone(
        d as u64,
        &ka,
        coefficients1,
        count1,
        &kb,
        coefficients2,
        count2,
        kept,
        coefficients,
    );
    product_answer::kept_answer(n, a, radius1, b, radius2, r, kept, coefficients)
}

// The product of two sound models in slices as a struct, with the shares of its radius. The scratch memory serves as a
// grid or as a table, whatever is in it.
pub fn multiplied_slices_accounted(
    d: u8,
    n: u8,
    count1: usize,
    radius1: u64,
    keys1: &[Key],
    coefficients1: &[i64],
    count2: usize,
    radius2: u64,
    keys2: &[Key],
    coefficients2: &[i64],
    slots: &mut [u16],
    keys: &mut [u64],
    sums: &mut [i64],
) -> Accounted
    requires factors { Factors d (handed n count1 radius1 keys1.now coefficients1.now)
        (handed n count2 radius2 keys2.now coefficients2.now) }
    requires count1_in_bounds { (count1 ≤ length keys1.now) × (count1 ≤ length coefficients1.now) }
    requires count2_in_bounds { (count2 ≤ length keys2.now) × (count2 ≤ length coefficients2.now) }
    requires scratch_room { ScratchRoom (count1 * count2) slots.old keys.old sums.old }
    ensures { result ≡ accounted (multiply d
        (view (handed n count1 radius1 keys1.now coefficients1.now))
        (view (handed n count2 radius2 keys2.now coefficients2.now)))
        (λ m. product_shares d
        (view (handed n count1 radius1 keys1.now coefficients1.now))
        (view (handed n count2 radius2 keys2.now coefficients2.now))) }
{
    let mut kept = [0u64; model_types::MOST_TERMS + 1];
    let mut coefficients = [0i64; model_types::MOST_TERMS + 1];
    let k = multiplied_slices(
        d,
        n,
        count1,
        radius1,
        keys1,
        coefficients1,
        count2,
        radius2,
        keys2,
        coefficients2,
        slots,
        keys,
        sums,
        &mut kept,
        &mut coefficients,
    );
    product_answer::packed_kept(n, k, &kept, &coefficients)
}

// ---- stored
// How many terms of an answer are stored: none beside a refusal.
fn kept_count(v: Verdict, count: usize) -> usize
    ensures { result ≡ kept_count v count }
{
    let Ok(()) = v else {
        return 0;
    };
    count
}

// Zeros go into the other places of a model.
fn store_zeros(from: usize, keys: &mut [Key], coefficients: &mut [i64])
    requires from_le_most_terms { from ≤ most_terms }
    requires most_terms_in_bounds { (most_terms ≤ length keys.old) × (most_terms ≤ length coefficients.old) }
    ensures { (keys.new ≡ zeroed 0 from most_terms keys.old)
        × (coefficients.new ≡ zeroed (pos 0) from most_terms coefficients.old) }
{
    for i in from..model_types::MOST_TERMS {
        keys[i] = 0;
        coefficients[i] = 0;
    }
}

// All 64 places of an answer's model go into two slices: zeros stand after its terms, and beside a refusal.
pub fn store_kept(
    k: Kept,
    kept: &[u64],
    rounded: &[i64],
    keys: &mut [Key],
    coefficients: &mut [i64],
)
    requires kept_ready { KeptReady k kept.now rounded.now }
    requires most_terms_in_bounds { (most_terms ≤ length keys.old) × (most_terms ≤ length coefficients.old) }
    ensures { (n : ℕ) → (keys.new
        ≡ stored_keys (kept_model n k kept.now rounded.now) keys.old)
        × (coefficients.new
        ≡ stored_coefficients (kept_model n k kept.now rounded.now)
        coefficients.old) }
{
    let v = k.verdict;
    let count = kept_count(v, k.count);
    product_answer::store_first(count, kept, rounded, keys, coefficients);
    store_zeros(count, keys, coefficients);
}
