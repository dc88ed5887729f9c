// One step of a run: an input, a product, a quotient, or any other.
#![tactic(auto)]

ghost use Rattle.std.specs.Prelude.{◌≡◌, ◌+◌, ◌*◌, get_or};
ghost use Rattle.calculus.specs.Operations.{multiply};
ghost use Rattle.calculus.specs.Shares.{product_shares};
ghost use Rattle.model_types.specs.ModelStruct.{view, answer};
ghost use Rattle.model_types.specs.SharesStruct.{accounted};
ghost use Rattle.sheet_run_inputs.specs.model.OperationContracts.{Factors, ScratchRoom, quotient_products};
ghost use Rattle.sheet_book.specs.BookStruct.{held_step};
ghost use Rattle.sheet_results.specs.Results.{results, Roomy, held_result};
ghost use Rattle.sheet_run_inputs.specs.sheet_run_laws.Run.{Iteration, Iterated, Served, Proposed, quotient_at};
ghost use Rattle.sheet_run_inputs.specs.sheet_run_laws.Run.{multiply_code, quotient_code};

use model_types::{Accounted, Answer, Key, Verdict};
use sheet_book::Step;
use sheet_run_inputs::sheet_run_laws;

// Handed on: crates above name these through this crate.
pub use sheet_run_inputs::model;

// The product of two results.
fn product(
    n: u8,
    d: u8,
    a: usize,
    b: usize,
    keys: &[Key],
    coefficients: &[i64],
    counts: &[usize],
    radii: &[u64],
    slots: &mut [u16],
    places: &mut [u64],
    sums: &mut [i64],
) -> Accounted
    requires roomy { Roomy (a + 1) (results keys.now coefficients.now counts.now radii.now)
        × Roomy (b + 1) (results keys.now coefficients.now counts.now radii.now) }
    requires factors { Factors d (held_result n (results keys.now coefficients.now counts.now radii.now) a)
        (held_result n (results keys.now coefficients.now counts.now radii.now) b) }
    requires scratch_room { ScratchRoom (get_or counts.now a 0 * get_or counts.now b 0) slots.old places.old sums.old }
    ensures { result ≡ accounted (multiply d
        (view (held_result n (results keys.now coefficients.now counts.now
        radii.now) a))
        (view (held_result n (results keys.now coefficients.now counts.now
        radii.now) b)))
        (λ k. product_shares d
        (view (held_result n (results keys.now coefficients.now counts.now
        radii.now) a))
        (view (held_result n (results keys.now coefficients.now counts.now
        radii.now) b))) }
{
    let from1 = model_types::MOST_TERMS * a;
    let from2 = model_types::MOST_TERMS * b;
    let count1 = counts[a];
    let count2 = counts[b];
    let radius1 = radii[a];
    let radius2 = radii[b];
    model::multiplied_slices_accounted(
        d,
        n,
        count1,
        radius1,
        &keys[from1..],
        &coefficients[from1..],
        count2,
        radius2,
        &keys[from2..],
        &coefficients[from2..],
        slots,
        places,
        sums,
    )
}

// A product: straight from the slices that the results stand in.
fn product_step(
    n: u8,
    d: u8,
    s: Step,
    i: usize,
    keys: &mut [Key],
    coefficients: &mut [i64],
    counts: &mut [usize],
    radii: &mut [u64],
    rows: &mut [u64],
    slots: &mut [u16],
    places: &mut [u64],
    sums: &mut [i64],
) -> Verdict
    requires iteration { Iteration n d i (held_step s) (results keys.old coefficients.old counts.old radii.old)
        rows.old }
    requires served { Served (held_step s) counts.old slots.old places.old sums.old }
    requires s_value { (held_step s).code ≡ multiply_code }
    ensures { ((t : Iteration n d i (held_step s)
        (results keys.old coefficients.old counts.old radii.old)
        rows.old) → Iterated t.held i result
        (results keys.new coefficients.new counts.new radii.new)
        rows.new) }
{
    let a = sheet_book::MOST_MODELS + s.a as usize;
    let b = sheet_book::MOST_MODELS + s.b as usize;
    let c = product(
        n,
        d,
        a,
        b,
        keys,
        coefficients,
        counts,
        radii,
        slots,
        places,
        sums,
    );
    sheet_results::settled(c, i, keys, coefficients, counts, radii, rows)
}

// The quotient of four results, straight from the slices that they stand in.
fn quotient(
    n: u8,
    d: u8,
    a: usize,
    b: usize,
    v: usize,
    last: usize,
    slots: &mut [u16],
    places: &mut [u64],
    sums: &mut [i64],
    keys: &[Key],
    coefficients: &[i64],
    counts: &[usize],
    radii: &[u64],
) -> Answer
    requires proposed { Proposed n d a b v last (results keys.now coefficients.now counts.now radii.now) }
    requires scratch_room { ScratchRoom (quotient_products (get_or counts.now b 0) (get_or counts.now v 0)
        (get_or counts.now last 0)) slots.old places.old sums.old }
    ensures { result ≡ answer (quotient_at n d a b v last (results keys.now
        coefficients.now counts.now radii.now)) }
{
    let fromf = model_types::MOST_TERMS * a;
    let fromg = model_types::MOST_TERMS * b;
    let fromh = model_types::MOST_TERMS * v;
    let fromw = model_types::MOST_TERMS * last;
    let countf = counts[a];
    let countg = counts[b];
    let counth = counts[v];
    let countw = counts[last];
    let radiusf = radii[a];
    let radiusg = radii[b];
    model::divided_slices(
        d,
        n,
        countf,
        radiusf,
        &keys[fromf..],
        &coefficients[fromf..],
        countg,
        radiusg,
        &keys[fromg..],
        &coefficients[fromg..],
        counth,
        &keys[fromh..],
        &coefficients[fromh..],
        countw,
        &keys[fromw..],
        &coefficients[fromw..],
        slots,
        places,
        sums,
    )
}

// A quotient: all of its radius is carried.
fn quotient_step(
    n: u8,
    d: u8,
    s: Step,
    i: usize,
    keys: &mut [Key],
    coefficients: &mut [i64],
    counts: &mut [usize],
    radii: &mut [u64],
    rows: &mut [u64],
    slots: &mut [u16],
    places: &mut [u64],
    sums: &mut [i64],
) -> Verdict
    requires iteration { Iteration n d i (held_step s) (results keys.old coefficients.old counts.old radii.old)
        rows.old }
    requires served { Served (held_step s) counts.old slots.old places.old sums.old }
    requires s_value { (held_step s).code ≡ quotient_code }
    ensures { ((t : Iteration n d i (held_step s)
        (results keys.old coefficients.old counts.old radii.old)
        rows.old) → Iterated t.held i result
        (results keys.new coefficients.new counts.new radii.new)
        rows.new) }
{
    let a = sheet_book::MOST_MODELS + s.a as usize;
    let b = sheet_book::MOST_MODELS + s.b as usize;
    let v = sheet_book::MOST_MODELS + s.v as usize;
    let z = s.value;
    let last = sheet_book::MOST_MODELS + fixed::magnitude(z) as usize;
    let q = quotient(
        n,
        d,
        a,
        b,
        v,
        last,
        slots,
        places,
        sums,
        keys,
        coefficients,
        counts,
        radii,
    );
    let c = model::all_carried(q);
    sheet_results::settled(c, i, keys, coefficients, counts, radii, rows)
}

// Any step: its verdict. Unless it is refused its result is put after those of the steps before it, and so is its row.
pub fn step(
    n: u8,
    d: u8,
    s: Step,
    i: usize,
    keys: &mut [Key],
    coefficients: &mut [i64],
    counts: &mut [usize],
    radii: &mut [u64],
    rows: &mut [u64],
    slots: &mut [u16],
    places: &mut [u64],
    sums: &mut [i64],
) -> Verdict
    requires iteration { Iteration n d i (held_step s) (results keys.old coefficients.old counts.old radii.old)
        rows.old }
    requires served { Served (held_step s) counts.old slots.old places.old sums.old }
    ensures { ((t : Iteration n d i (held_step s)
        (results keys.old coefficients.old counts.old radii.old)
        rows.old) → Iterated t.held i result
        (results keys.new coefficients.new counts.new radii.new)
        rows.new) }
{
    let code = s.code;
    match code {
        sheet_run_laws::INPUT => sheet_run_inputs::input_step(
            n,
            keys,
            coefficients,
            counts,
            radii,
            rows,
            i,
            s,
        ),
        sheet_run_laws::MULTIPLY => product_step(
            n,
            d,
            s,
            i,
            keys,
            coefficients,
            counts,
            radii,
            rows,
            slots,
            places,
            sums,
        ),
        sheet_run_laws::QUOTIENT => quotient_step(
            n,
            d,
            s,
            i,
            keys,
            coefficients,
            counts,
            radii,
            rows,
            slots,
            places,
            sums,
        ),
        _ => sheet_run_others::other_step(
            n,
            d,
            s,
            i,
            keys,
            coefficients,
            counts,
            radii,
            rows,
            slots,
            places,
            sums,
        ),
    }
}
