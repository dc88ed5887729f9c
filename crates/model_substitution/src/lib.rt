// Substitution: two models lend their arrays, and the answer is packed as a struct.
#![tactic(auto)]

ghost use Rattle.std.specs.Prelude.{Ok, ◌≡◌, ◌*◌, ◌≤◌};
ghost use Rattle.calculus.specs.Model.{most_terms};
ghost use Rattle.calculus.specs.Refusal.{at_place};
ghost use Rattle.calculus.specs.Operations.{substitute};
ghost use Rattle.calculus.specs.Shares.{substitute_shares};
ghost use Rattle.model_types.specs.ModelStruct.{view, answer};
ghost use Rattle.model_types.specs.SharesStruct.{accounted};
ghost use Rattle.product_room.specs.ProductTerms.{ScratchRoom};
ghost use Rattle.model_slices.specs.HeldModels.{model_places, held, Room};
ghost use Rattle.product_answer.specs.KeptProduct.{model_unless};
ghost use Rattle.model_substitution.specs.Substitute.{Substitution};

use model_slices::Kept;
use model_types::{Accounted, Answer, Key, Model, Refusal, Refused, Shares};

// The model that slices hold: zeros stand after its terms.
fn packed(n: u8, count: usize, radius: u64, keys: &[Key], coefficients: &[i64]) -> Model
    requires { (count ≤ model_places) × Room keys.now coefficients.now }
    ensures { result ≡ held n count radius keys.now coefficients.now }
{
    let mut out_keys: [Key; model_types::MOST_TERMS] = [0; model_types::MOST_TERMS];
    let mut out = [0i64; model_types::MOST_TERMS];
    model_slices::copy_keys(count, keys, &mut out_keys);
    model_slices::copy_coefficients(count, coefficients, &mut out);
    Model {
        n,
        count,
        radius,
        keys: out_keys,
        coefficients: out,
    }
}

// The same beside its verdict, or the zero model beside a refusal.
fn packed_answer(n: u8, k: Kept, keys: &[Key], coefficients: &[i64]) -> Answer
    requires { (k.verdict ≡ Ok tt → k.count ≤ model_places) × Room keys.now coefficients.now }
    ensures { result ≡ (record {
      model = model_unless k.verdict
          (held n k.count k.radius keys.now coefficients.now);
      verdict = k.verdict;
    }) }
{
    let v = k.verdict;
    match v {
        Ok(()) => Answer {
            model: packed(n, k.count, k.radius, keys, coefficients),
            verdict: Ok(()),
        },
        Err(Refused(refusal, place)) => model_types::refuse(refusal, place),
    }
}

// g in the place of variable i of f, with order d, with the shares of its last product and the radius of f. Both lend
// their arrays.
pub fn substituted_accounted(
    d: u8,
    i: u8,
    f: Model,
    g: Model,
    slots: &mut [u16],
    keys: &mut [u64],
    sums: &mut [i64],
) -> Accounted
    requires substitution { Substitution d i f g }
    requires scratch_room { ScratchRoom (most_terms * g.count) slots.old keys.old sums.old }
    ensures { result ≡ accounted (substitute d i (view f) (view g))
        (λ m. substitute_shares d i (view f) (view g)) }
{
    if !model_range::in_box(g) {
        let refused = model_types::refuse(Refusal::LeavesBox, 0);
        return Accounted {
            answer: refused,
            shares: Shares::ZERO,
        };
    }
    let mut remaining: [Key; model_types::MOST_TERMS] = [0; model_types::MOST_TERMS];
    let mut rest = [0i64; model_types::MOST_TERMS];
    let mut others: [Key; model_types::MOST_TERMS] = [0; model_types::MOST_TERMS];
    let mut added = [0i64; model_types::MOST_TERMS];
    let mut spare: [Key; model_types::MOST_TERMS] = [0; model_types::MOST_TERMS];
    let mut products = [0i64; model_types::MOST_TERMS];
    let k: Kept = model_substitution_slices::put_in(
        d,
        i,
        f.n,
        f.count,
        f.radius,
        &f.keys,
        &f.coefficients,
        g.count,
        g.radius,
        &g.keys,
        &g.coefficients,
        slots,
        keys,
        sums,
        &mut remaining,
        &mut rest,
        &mut others,
        &mut added,
        &mut spare,
        &mut products,
    );
    let shares = k.shares;
    let answer = packed_answer(f.n, k, &remaining, &rest);
    Accounted { answer, shares }
}

// g in the place of variable i of f, with order d. The table is scratch for all products.
pub fn substituted(
    d: u8,
    i: u8,
    f: Model,
    g: Model,
    slots: &mut [u16],
    keys: &mut [u64],
    sums: &mut [i64],
) -> Answer
    requires substitution { Substitution d i f g }
    requires scratch_room { ScratchRoom (most_terms * g.count) slots.old keys.old sums.old }
    ensures { result ≡ answer (at_place 0 (substitute d i (view f) (view g))) }
{
    let all = substituted_accounted(d, i, f, g, slots, keys, sums);
    all.answer
}
