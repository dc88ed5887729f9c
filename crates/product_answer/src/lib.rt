// The answer of a product of models: its radius, and the terms that are kept, within the limits, in two arrays or as a
// struct.
#![tactic(auto)]

ghost use Rattle.std.specs.Prelude.{◌≡◌, List, ℕ, ◌+◌, ◌*◌, ◌^◌, ◌<◌, ◌≤◌, leb, length};
ghost use Rattle.numbers.specs.Fixed.{round_up, span_limit};
ghost use Rattle.calculus.specs.Terms.{size};
ghost use Rattle.calculus.specs.Operations.{multiply};
ghost use Rattle.calculus.specs.Shares.{product_shares};
ghost use Rattle.model_types.specs.SharesStruct.{stored_shares, accounted};
ghost use Rattle.product_sums.specs.TermArrays.{terms};
ghost use Rattle.model_slices.specs.HandedModels.{over};
ghost use Rattle.product_answer.specs.PackedTerms.{PackReady, narrow_keys, narrow_coefficients, packed};
ghost use Rattle.product_answer.specs.CollectedProduct.{Product};
ghost use Rattle.product_answer.specs.ErrorShares.{error_shares};
ghost use Rattle.product_answer.specs.KeptProduct.{kept_accounted, KeptReady, kept_refused};

use model_slices::Kept;
use model_types::{Accounted, Answer, Key, Model, Refusal, Refused, Shares};
use product_sums::Gathered;

// ---- the error E
// Its share of the factors' radii e1 and e2, where the sums of |c| are a and b.
fn carried(a: u64, e1: u64, b: u64, e2: u64) -> u64
    requires { a * e2 + b * e1 + e1 * e2 < 2 ^ 63 }
    ensures { result ≡ a * e2 + b * e1 + e1 * e2 }
{
    a * e2 + b * e1 + e1 * e2
}

// E / U rounded up. E is at most the product of the factors' spans, so that no sum wraps.
fn radius(carried: u64, rounding: u64, swept: u64) -> u64
    requires { carried + rounding + swept < 2 ^ 63 }
    ensures { result ≡ round_up (carried + rounding + swept) }
{
    fixed::round_up(carried + rounding + swept)
}

// The shares of E, and what rounding up added to it.
fn shares(carried: u64, rounding: u64, swept: u64) -> Shares
    requires { carried + rounding + swept < 2 ^ 63 }
    ensures { result ≡ stored_shares (error_shares carried rounding swept) }
{
    let paid = model_types::times_unit(radius(carried, rounding, swept));
    let error = carried + rounding + swept;
    let slack = paid - error;
    Shares {
        carried: carried,
        rounding: rounding,
        swept: swept,
        slack: slack,
    }
}

// ---- the answer
// Whether the span of the first count terms with such a radius is within the limit, whichever keys they have. It is
// summed without wrapping.
fn within(radius: u64, count: usize, coefficients: &[i64]) -> bool
    requires { count ≤ length coefficients.now }
    ensures { (keys : List ℕ) → count ≤ length keys
        → result ≡ leb (size (terms count keys coefficients.now) + radius) span_limit }
{
    let mut span = radius;
    for c in &coefficients[..count] {
        span = fixed::capped_sum(span, fixed::magnitude(*c));
    }
    fixed::within_span(span)
}

// The answer of a refused product: no terms, and no shares.
fn refused(refusal: Refusal) -> Kept
    ensures { result ≡ kept_refused refusal }
{
    Kept {
        count: 0,
        radius: 0,
        shares: Shares::ZERO,
        verdict: Err(Refused(refusal, 0)),
    }
}

// From what is gathered of the products, for factors in n variables with the sums of |c| a and b and the radii e1 and
// e2. It answers for whichever two models were multiplied.
pub fn kept_answer(
    n: u8,
    a: u64,
    e1: u64,
    b: u64,
    e2: u64,
    r: Gathered,
    keys: &[u64],
    coefficients: &[i64],
) -> Kept
    requires { Product n a e1 b e2 r keys.now coefficients.now }
    ensures exact { (w : Product n a e1 b e2 r keys.now coefficients.now)
        → kept_accounted n result keys.now coefficients.now
        ≡ accounted (multiply w.order w.first w.second)
        (λ m. product_shares w.order w.first w.second) }
    ensures ready { KeptReady result keys.now coefficients.now }
{
    if model_types::MOST_TERMS < r.count {
        return refused(Refusal::TooManyTerms);
    }
    let old = carried(a, e1, b, e2);
    let e = radius(old, r.rounding, r.swept);
    if !within(e, r.count, coefficients) {
        return refused(Refusal::OverSpan);
    }
    let all = shares(old, r.rounding, r.swept);
    Kept {
        count: r.count,
        radius: e,
        shares: all,
        verdict: Ok(()),
    }
}

// ---- packed
// The first count terms go into two slices, by keys.
pub fn store_first(
    count: usize,
    kept: &[u64],
    rounded: &[i64],
    keys: &mut [Key],
    coefficients: &mut [i64],
)
    requires pack_ready { PackReady count kept.now rounded.now }
    requires count_in_bounds { (count ≤ length keys.old) × (count ≤ length coefficients.old) }
    ensures { (keys.new
        ≡ over (narrow_keys (terms count kept.now rounded.now)) keys.old)
        × (coefficients.new
        ≡ over (narrow_coefficients (terms count kept.now rounded.now))
        coefficients.old) }
{
    for i in 0..count {
        let c = rounded[i];
        keys[i] = model_keys::narrow_key(kept[i]);
        coefficients[i] = c;
    }
}

// The model of the first count terms.
fn pack(n: u8, radius: u64, count: usize, kept: &[u64], rounded: &[i64]) -> Model
    requires { PackReady count kept.now rounded.now }
    ensures { result ≡ packed n radius (terms count kept.now rounded.now) }
{
    let mut keys: [Key; model_types::MOST_TERMS] = [0; model_types::MOST_TERMS];
    let mut coefficients = [0i64; model_types::MOST_TERMS];
    store_first(count, kept, rounded, &mut keys, &mut coefficients);
    Model {
        n: n,
        count: count,
        radius: radius,
        keys: keys,
        coefficients: coefficients,
    }
}

// The answer's model beside its verdict: its terms packed, or the zero model beside a refusal.
fn packed_answer(n: u8, k: Kept, keys: &[u64], coefficients: &[i64]) -> Answer
    requires { KeptReady k keys.now coefficients.now }
    ensures { result ≡ (kept_accounted n k keys.now coefficients.now).answer }
{
    let v = k.verdict;
    match v {
        Ok(()) => Answer {
            model: pack(n, k.radius, k.count, keys, coefficients),
            verdict: Ok(()),
        },
        Err(Refused(refusal, place)) => model_types::refuse(refusal, place),
    }
}

// The same with the shares of its radius. (Only one place builds it: with a second one, for a refusal, the compiler
// copies it field by field.)
pub fn packed_kept(n: u8, k: Kept, keys: &[u64], coefficients: &[i64]) -> Accounted
    requires { KeptReady k keys.now coefficients.now }
    ensures { result ≡ kept_accounted n k keys.now coefficients.now }
{
    let answer = packed_answer(n, k, keys, coefficients);
    let shares = k.shares;
    Accounted {
        answer: answer,
        shares: shares,
    }
}
