// The value of a model at a point: its coordinates put in for the variables, then the range of what is left. A
// coordinate is a constant, so that each product of Horner's rule is one pass over the terms, without a table. They lie
// in slices, so that no step copies a model.
#![tactic(auto)]

ghost use Rattle.std.specs.Prelude.{◌≡◌, take};
ghost use Rattle.calculus.specs.Refusal.{at_place};
ghost use Rattle.calculus.specs.Operations as Op;
ghost use Rattle.calculus.specs.Calls.{call_evaluate};
ghost use Rattle.model_types.specs.ModelStruct.{view, bounds};
ghost use Rattle.model_slices.specs.HeldModels.{Room};
ghost use Rattle.model_evaluation.specs.Evaluate.{Evaluation, IterationOf, IteratedIn, PutOf, PutIn};

use model_horner::Passed;
use model_limits::Left;
use model_powers::Powers;
use model_types::{Bounds, Key, Model, Refusal, Refused};

// One iteration of Horner's rule: h times x, then q added. The product goes into the last two slices, the sum into the
// first two, in which h lay.
fn put_iteration<'a>(
    x: i64,
    c: usize,
    radius: u64,
    keys: &mut [Key],
    coefficients: &mut [i64],
    d: usize,
    others: &'a [Key],
    added: &'a [i64],
    spare: &mut [Key],
    products: &mut [i64],
) -> Left
    requires iteration_of { IterationOf x c radius keys.old coefficients.old d others.now added.now }
    requires room { Room spare.old products.old }
    ensures { IteratedIn x c radius keys.old coefficients.old d others.now
        added.now result keys.new coefficients.new }
{
    let p: Passed = model_horner::scaled(x, c, radius, keys, coefficients, spare, products);
    let product = model_limits::limited_slices(p.count, fixed::round_up(p.error), products);
    let v = product.verdict;
    let Ok(()) = v else {
        return product;
    };
    let e = product.radius;
    let total = model_addition::merged(
        product.count,
        spare,
        products,
        d,
        others,
        added,
        keys,
        coefficients,
    );
    if model_types::MOST_TERMS < total {
        return Left {
            count: 0,
            radius: 0,
            verdict: Err(Refused(Refusal::TooManyTerms, 0)),
        };
    }
    model_limits::limited_slices(total, e, coefficients)
}

// x in the place of variable i of a model: Horner's rule from the highest power down. What is left goes into the slices
// after the model's; the others are at hand for each power's terms and for products.
fn put_constant<'a>(
    i: u8,
    x: i64,
    count: usize,
    radius: u64,
    keys: &'a [Key],
    coefficients: &'a [i64],
    stored: &mut [Key],
    out: &mut [i64],
    others: &mut [Key],
    added: &mut [i64],
    spare: &mut [Key],
    products: &mut [i64],
) -> Left
    requires put_of { PutOf i x count radius keys.now coefficients.now }
    requires room { Room stored.old out.old }
    requires room_2 { Room others.old added.old }
    requires room_3 { Room spare.old products.old }
    ensures { PutIn i x count radius keys.now coefficients.now result
        stored.new out.new }
{
    let p: Powers = model_powers::by_powers(i, count, keys);
    let top = p.largest;
    let mut c = model_powers::part(i, top, p, count, keys, coefficients, stored, out);
    let mut e = 0;
    for k in (0..top).rev() {
        let d = model_powers::part(i, k, p, count, keys, coefficients, others, added);
        let iteration = put_iteration(x, c, e, stored, out, d, others, added, spare, products);
        let v = iteration.verdict;
        let Ok(()) = v else {
            return iteration;
        };
        c = iteration.count;
        e = iteration.radius;
    }
    model_limits::limited_slices(c, fixed::capped_sum(e, radius), out)
}

// The range of what is left of m after the coordinates are put in for its variables, one after the other.
fn evaluated(m: Model, xs: [i64; model_types::MOST_VARS as usize]) -> Bounds
    requires { Evaluation m xs }
    ensures { result ≡ bounds (at_place 0 (Op.evaluate (take m.n xs) (view m))) }
{
    let n = m.n;
    let mut count = m.count;
    let mut radius = m.radius;
    let mut keys = m.keys;
    let mut coefficients = m.coefficients;
    let mut stored = [0u32; model_types::MOST_TERMS];
    let mut out = [0i64; model_types::MOST_TERMS];
    let mut others = [0u32; model_types::MOST_TERMS];
    let mut added = [0i64; model_types::MOST_TERMS];
    let mut spare = [0u32; model_types::MOST_TERMS];
    let mut products = [0i64; model_types::MOST_TERMS];
    // `for i in 1..=n` was tried: the proof of what stands after the loop did not close.
    let mut i = 1;
    while i <= n {
        let x = xs[(i - 1) as usize];
        let a = put_constant(
            i,
            x,
            count,
            radius,
            &keys,
            &coefficients,
            &mut stored,
            &mut out,
            &mut others,
            &mut added,
            &mut spare,
            &mut products,
        );
        let v = a.verdict;
        let Ok(()) = v else {
            return Bounds {
                low: 0,
                high: 0,
                verdict: v,
            };
        };
        count = a.count;
        radius = a.radius;
        model_horner::copied(count, &stored, &out, &mut keys, &mut coefficients);
        i += 1;
    }
    model_range::range_of(Model {
        n,
        count,
        radius,
        keys,
        coefficients,
    })
}

// Two ends around the value at the point X_1/U, .., X_n/U: for every function within the model its value there, times
// U, lies between them. 5, 6 for a coordinate above n that is not 0, 9 for one of the others outside -U to U, then 7.
pub fn evaluate(m: Model, xs: [i64; model_types::MOST_VARS as usize]) -> Bounds
    ensures { result ≡ bounds (call_evaluate xs (view m)) }
{
    let v = model_call_tests::at_point(m, xs);
    match v {
        Ok(()) => evaluated(m, xs),
        Err(Refused(refusal, place)) => model_types::refuse_bounds(refusal, place),
    }
}
