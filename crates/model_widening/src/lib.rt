// A model in slices with a radius added to its own, and its shares: the end of a substitution.
#![tactic(auto)]

ghost use Rattle.std.specs.Prelude.{◌≡◌, List, ℕ, ◌^◌, ◌≤◌, ◌<◌, length};
ghost use Rattle.numbers.specs.Fixed.{span_limit};
ghost use Rattle.calculus.specs.Operations.{widen};
ghost use Rattle.calculus.specs.Shares as S;
ghost use Rattle.calculus.specs.Shares.{carrying};
ghost use Rattle.model_types.specs.ModelStruct.{view};
ghost use Rattle.model_types.specs.SharesStruct.{stored_shares, accounted};
ghost use Rattle.model_slices.specs.HeldModels.{model_places, held, Room};
ghost use Rattle.model_limits.specs.Limits.{Packed};
ghost use Rattle.model_horner_iteration.specs.HornerIteration.{KeptIn};

use model_limits::Left;
use model_slices::Kept;
use model_types::Shares;

// Handed on: crates above name these through this crate.
pub use model_horner_iteration;

// U × e more under carried.
fn carrying(e: u64, s: Shares) -> Shares
    requires carried_bound { s.carried < 2 ^ 63 }
    requires e_le_span_limit { e ≤ span_limit }
    ensures { (t : S.Shares) → s ≡ stored_shares t → result ≡ stored_shares (carrying e t) }
{
    let carried = s.carried + model_types::times_unit(e);
    Shares {
        carried: carried,
        rounding: s.rounding,
        swept: s.swept,
        slack: s.slack,
    }
}

// The model in slices whose radius is e, with another radius added, and its shares with that radius under carried. The
// terms stay where they are.
pub fn widened(count: usize, e: u64, radius: u64, coefficients: &[i64], s: Shares) -> Kept
    requires count_le_model_places { (count ≤ model_places) × (length coefficients.now ≡ model_places) }
    requires carried_bound { (s.carried < 2 ^ 63) × (radius ≤ span_limit) }
    ensures { (n : ℕ) (ks : List ℕ) → Room ks coefficients.now
        → Packed (held n count e ks coefficients.now) → (t : S.Shares) → s ≡ stored_shares t
        → KeptIn n result ks coefficients.now
        (accounted (widen radius (view (held n count e ks coefficients.now))) (λ m. carrying radius t)) }
{
    let all = carrying(radius, s);
    let left: Left = model_limits::limited_slices(
        count,
        fixed::capped_sum(e, radius),
        coefficients,
    );
    let w = left.verdict;
    let shares = model_types::unless_refused(w, all);
    Kept {
        count: left.count,
        radius: left.radius,
        shares: shares,
        verdict: w,
    }
}
