// Readings of the bench held against a model: which of them contradicts it first. One thin function walks over the
// borrowed slice; what it does at each iteration stands in the functions before it.
#![tactic(auto)]

ghost use Rattle.std.specs.Prelude.{◌≡◌, map, min, max};
ghost use Rattle.std.proofs.Math.Option.{none, some};
ghost use Rattle.calculus.specs.Key.{key_width};
ghost use Rattle.calculus.specs.Refusal.{Result, done, stopped};
ghost use Rattle.calculus.specs.Operations.{Ends};
ghost use Rattle.calculus.specs.Calls.{call_evaluate};
ghost use Rattle.readings.specs.Readings.{call_readings};
ghost use Rattle.model_types.specs.ModelStruct.{view, cause, bounds};
ghost use Rattle.model_readings.specs.ReadingStruct.{view_reading, finding};
ghost use Rattle.model_readings.specs.RowIterations.{check_order, check_unused, check_within, judged};
ghost use Rattle.model_readings.specs.RowIterations.{phase_of, found_in};
ghost use Rattle.model_readings.specs.RowIterations.{undecided, begun_of, iteration_of, next_iteration};

use model_types::{Bounds, Finding, Model, Reading, Refusal, Refused};

// The longest row.
const MOST_READINGS: usize = 256;

// What is asked of every reading of a row before the next is asked of any: the tests for 15, for 6 and for 9, then the
// evaluation.
#[derive(Clone, Copy, Debug, PartialEq, Eq)]
enum Phase {
    Order,
    Unused,
    Within,
    Evaluation,
}

// Nothing is found yet.
fn nothing() -> Finding
    ensures { result ≡ finding (done none) }
{
    Finding {
        contradiction: None,
        verdict: Ok(()),
    }
}

// The first reading that contradicts.
fn contradicted_at(place: usize) -> Finding
    ensures { result ≡ finding (done (some place)) }
{
    Finding {
        contradiction: Some(place),
        verdict: Ok(()),
    }
}

// A refusal at a place.
fn refused_at(refusal: Refusal, place: usize) -> Finding
    ensures { result ≡ finding (stopped (cause refusal) place) }
{
    Finding {
        contradiction: None,
        verdict: Err(Refused(refusal, place)),
    }
}

// Before the first iteration: 15 for a row of more than 256 readings, then 5.
pub fn begun(m: Model, n: usize) -> Finding
    ensures { result ≡ begun_of m n }
{
    if MOST_READINGS < n {
        return refused_at(Refusal::BadReading, 0);
    }
    if !model_soundness::sound(m, model_types::MOST_DEGREE) {
        return refused_at(Refusal::BadModel, 0);
    }
    nothing()
}

// n, or 1.
fn at_least_one(n: usize) -> usize
    ensures { result ≡ max n 1 }
{
    n.max(1)
}

// The variables of a model that have a coordinate.
fn coordinates(n: u8) -> u8
    ensures { result ≡ min n key_width }
{
    n.min(model_types::MOST_VARS)
}

// 15 for a low value above its high one.
fn in_order(i: usize, r: Reading) -> Finding
    ensures { result ≡ finding (check_order i (view_reading r)) }
{
    let low = r.low;
    let high = r.high;
    if low <= high {
        return nothing();
    }
    refused_at(Refusal::BadReading, i)
}

// 6 for a coordinate above n that is not 0.
fn unused_at(n: u8, i: usize, r: Reading) -> Finding
    ensures { result ≡ finding (check_unused n i (view_reading r)) }
{
    let xs = r.x;
    if model_call_tests::unused_zero(coordinates(n), xs) {
        return nothing();
    }
    refused_at(Refusal::BadStep, i)
}

// 9 for one of the others outside -U to U.
fn within_at(n: u8, i: usize, r: Reading) -> Finding
    ensures { result ≡ finding (check_within n i (view_reading r)) }
{
    let xs = r.x;
    if model_call_tests::used_within(coordinates(n), xs) {
        return nothing();
    }
    refused_at(Refusal::LeavesBox, i)
}

// The evaluation against the reading's band.
fn judged(b: Bounds, i: usize, r: Reading) -> Finding
    ensures { (e : Result Ends) → b ≡ bounds e → result ≡ finding (judged i (view_reading r) e) }
{
    let v = b.verdict;
    match v {
        Ok(()) => {
            let low = r.low;
            let high = r.high;
            let from = b.low;
            let to = b.high;
            if high < from {
                return contradicted_at(i);
            }
            if to < low {
                return contradicted_at(i);
            }
            nothing()
        }
        Err(Refused(refusal, place)) => refused_at(refusal, i),
    }
}

// The phase that an iteration belongs to, by how many rows of iterations stand before it.
fn phase_of(rows: usize) -> Phase
    ensures { result ≡ phase_of rows }
{
    match rows {
        0 => Phase::Order,
        1 => Phase::Unused,
        2 => Phase::Within,
        _ => Phase::Evaluation,
    }
}

// What a phase finds of reading i. The model is lent: only the last phase copies it.
fn checked(m: &Model, phase: Phase, i: usize, r: Reading) -> Finding
    ensures { result ≡ finding (found_in phase i (view m.now) (view_reading r)) }
{
    match phase {
        Phase::Order => in_order(i, r),
        Phase::Unused => unused_at(m.n, i, r),
        Phase::Within => within_at(m.n, i, r),
        Phase::Evaluation => {
            let xs = r.x;
            judged(model_evaluation::evaluate(*m, xs), i, r)
        }
    }
}

// Whether neither a contradiction nor a refusal is found yet.
fn undecided(s: Finding) -> bool
    ensures { result ≡ undecided s }
{
    let c = s.contradiction;
    let None = c else {
        return false;
    };
    let v = s.verdict;
    let Ok(()) = v else {
        return false;
    };
    true
}

// Iteration k over a row of n readings, at reading r. There are four for each: all readings are tested for 15, then all
// for 6, then all for 9, then all are evaluated.
pub fn iteration(m: Model, s: Finding, k: usize, n: usize, r: Reading) -> Finding
    ensures { result ≡ iteration_of m s k n r }
{
    if !undecided(s) {
        return s;
    }
    let d = at_least_one(n);
    checked(&m, phase_of(k / d), k % d, r)
}

// The iteration after iteration k: with something found there is none.
pub fn following(s: Finding, k: usize, end: usize) -> usize
    ensures { result ≡ next_iteration s k end }
{
    if !undecided(s) {
        return end;
    }
    if k < end {
        return k + 1;
    }
    end
}

// The readings of a row, up to 256, held against a model in order: the number of the first whose band has no number in
// common with the evaluation at its point, or that there is none. No function within the model passes through that one;
// of the others nothing is promised. 15 at place 0 for a longer row, 5, then all readings for 15 (a low value above its
// high one), all for 6, all for 9, then 7 of the first that is refused, each with the reading as place.
pub fn held_against(rows: &[Reading], m: Model) -> Finding
    ensures { result ≡ finding (call_readings (view m) (map view_reading rows.now)) }
{
    let n = rows.len();
    // A row that is too long is refused before its first iteration: any few iterations do.
    let few = n % 257;
    let end = few * 4;
    let mut s = begun(m, n);
    let mut k = 0usize;
    // No range counts this loop: once something is found it leaves out the rest.
    while k < end {
        s = iteration(m, s, k, n, rows[k % n]);
        k = following(s, k, end);
    }
    s
}
