// Quotients, checked from a proposal: its two forms bound how far the proposed quotient is off. All models lie in
// slices, each a count and two slices that may be longer than it; a struct lends its arrays. Of the forms, whose ranges
// alone are asked for, only the terms are stored.
#![tactic(auto)]

ghost use Rattle.std.specs.Prelude.{◌≡◌, ◌≤◌, length};
ghost use Rattle.calculus.specs.Refusal.{at_place};
ghost use Rattle.calculus.specs.Operations.{defect, quotient};
ghost use Rattle.model_types.specs.ModelStruct.{view, answer};
ghost use Rattle.model_slices.specs.HandedModels.{handed};
ghost use Rattle.model_slices.specs.HeldModels.{Room};
ghost use Rattle.model_limits.specs.Limits.{LeftIn};
ghost use Rattle.product_room.specs.ProductTerms.{ScratchRoom};
ghost use Rattle.model_proposal.specs.Proposal.{Proposal, quotient_products};
ghost use Rattle.model_quotient.specs.Refusing.{Refuses};

use model_limits::Left;
use model_proposal::model_slice_results;
use model_types::{Answer, Key, MOST_TERMS, Model, Refusal, Refused, Verdict};

// Handed on: crates above name these through this crate.
pub use model_multiplication;

// The first form, w × (g × h - f): its terms are left in the last two slices. The table is scratch for both products.
fn defect(
    d: u8,
    n: u8,
    nf: usize,
    ef: u64,
    kf: &[Key],
    cf: &[i64],
    ng: usize,
    eg: u64,
    kg: &[Key],
    cg: &[i64],
    nh: usize,
    kh: &[Key],
    ch: &[i64],
    nw: usize,
    kw: &[Key],
    cw: &[i64],
    slots: &mut [u16],
    keys: &mut [u64],
    sums: &mut [i64],
    keysy: &mut [Key],
    y: &mut [i64],
) -> Left
    requires proposal { Proposal d (handed n nf ef kf.now cf.now)
        (handed n ng eg kg.now cg.now)
        (handed n nh 0 kh.now ch.now)
        (handed n nw 0 kw.now cw.now) }
    requires nf_in_bounds { (nf ≤ length kf.now) × (nf ≤ length cf.now) }
    requires ng_in_bounds { (ng ≤ length kg.now) × (ng ≤ length cg.now) }
    requires nh_in_bounds { (nh ≤ length kh.now) × (nh ≤ length ch.now) }
    requires nw_in_bounds { (nw ≤ length kw.now) × (nw ≤ length cw.now) }
    requires scratch_room { ScratchRoom (quotient_products ng nh nw) slots.old keys.old sums.old }
    requires room { Room keysy.old y.old }
    ensures { LeftIn n result keysy.new y.new (answer (at_place 0 (defect d
        (view (handed n nf ef kf.now cf.now))
        (view (handed n ng eg kg.now cg.now))
        (view (handed n nh 0 kh.now ch.now))
        (view (handed n nw 0 kw.now cw.now))))) }
{
    let mut rest: [Key; MOST_TERMS] = [0; MOST_TERMS];
    let mut differences = [0i64; MOST_TERMS];
    let k = model_slice_results::product(
        d, n, ng, eg, kg, cg, nh, 0, kh, ch, slots, keys, sums, keysy, y,
    );
    let v = k.verdict;
    let Ok(()) = v else {
        return k;
    };
    let l = model_slice_results::difference(
        n,
        k.count,
        k.radius,
        keysy,
        y,
        nf,
        ef,
        kf,
        cf,
        &mut rest,
        &mut differences,
    );
    let u = l.verdict;
    let Ok(()) = u else {
        return l;
    };
    model_slice_results::product(
        d,
        n,
        nw,
        0,
        kw,
        cw,
        l.count,
        l.radius,
        &rest,
        &differences,
        slots,
        keys,
        sums,
        keysy,
        y,
    )
}

// The answer of a form that is refused. (An accepted verdict does not come here.)
fn refused(v: Verdict) -> Answer
    ensures { Refuses v result }
{
    match v {
        Ok(()) => model_types::refuse(Refusal::Uncertified, 0),
        Err(Refused(refusal, place)) => model_types::refuse(refusal, place),
    }
}

// f / g at order d, checked from the proposal h, w: the polynomial of h with the radius that the two forms certify. The
// table is scratch for all products, and need not be larger than for the most that one of them has.
pub fn divided_slices(
    d: u8,
    n: u8,
    countf: usize,
    radiusf: u64,
    keysf: &[Key],
    coefficientsf: &[i64],
    countg: usize,
    radiusg: u64,
    keysg: &[Key],
    coefficientsg: &[i64],
    counth: usize,
    keysh: &[Key],
    coefficientsh: &[i64],
    countw: usize,
    keysw: &[Key],
    coefficientsw: &[i64],
    slots: &mut [u16],
    keys: &mut [u64],
    sums: &mut [i64],
) -> Answer
    requires proposal { Proposal d (handed n countf radiusf keysf.now coefficientsf.now)
        (handed n countg radiusg keysg.now coefficientsg.now)
        (handed n counth 0 keysh.now coefficientsh.now)
        (handed n countw 0 keysw.now coefficientsw.now) }
    requires countf_in_bounds { (countf ≤ length keysf.now) × (countf ≤ length coefficientsf.now) }
    requires countg_in_bounds { (countg ≤ length keysg.now) × (countg ≤ length coefficientsg.now) }
    requires counth_in_bounds { (counth ≤ length keysh.now) × (counth ≤ length coefficientsh.now) }
    requires countw_in_bounds { (countw ≤ length keysw.now) × (countw ≤ length coefficientsw.now) }
    requires scratch_room { ScratchRoom (quotient_products countg counth countw) slots.old keys.old sums.old }
    ensures { result ≡ answer (at_place 0 (quotient d
        (view (handed n countf radiusf keysf.now coefficientsf.now))
        (view (handed n countg radiusg keysg.now coefficientsg.now))
        (view (handed n counth 0 keysh.now coefficientsh.now))
        (view (handed n countw 0 keysw.now coefficientsw.now)))) }
{
    let mut keysy: [Key; MOST_TERMS] = [0; MOST_TERMS];
    let mut y = [0i64; MOST_TERMS];
    let first = defect(
        d,
        n,
        countf,
        radiusf,
        keysf,
        coefficientsf,
        countg,
        radiusg,
        keysg,
        coefficientsg,
        counth,
        keysh,
        coefficientsh,
        countw,
        keysw,
        coefficientsw,
        slots,
        keys,
        sums,
        &mut keysy,
        &mut y,
    );
    let v = first.verdict;
    let Ok(()) = v else {
        return refused(v);
    };
    let mut keysz: [Key; MOST_TERMS] = [0; MOST_TERMS];
    let mut z = [0i64; MOST_TERMS];
    let second = model_proposal::deviation(
        d,
        n,
        countw,
        keysw,
        coefficientsw,
        countg,
        radiusg,
        keysg,
        coefficientsg,
        slots,
        keys,
        sums,
        &mut keysz,
        &mut z,
    );
    let u = second.verdict;
    let Ok(()) = u else {
        return refused(u);
    };
    model_certificate::judged(
        n,
        counth,
        keysh,
        coefficientsh,
        first.count,
        first.radius,
        &keysy,
        &y,
        second.count,
        second.radius,
        &keysz,
        &z,
    )
}

// The same of structs, which lend their arrays.
pub fn divided(
    d: u8,
    f: Model,
    g: Model,
    h: Model,
    w: Model,
    slots: &mut [u16],
    keys: &mut [u64],
    sums: &mut [i64],
) -> Answer
    requires proposal { Proposal d f g h w }
    requires scratch_room { ScratchRoom (quotient_products g.count h.count w.count) slots.old keys.old
        sums.old }
    ensures { result ≡ answer (at_place 0 (quotient d (view f) (view g) (view h) (view w))) }
{
    divided_slices(
        d,
        f.n,
        f.count,
        f.radius,
        &f.keys,
        &f.coefficients,
        g.count,
        g.radius,
        &g.keys,
        &g.coefficients,
        h.count,
        &h.keys,
        &h.coefficients,
        w.count,
        &w.keys,
        &w.coefficients,
        slots,
        keys,
        sums,
    )
}
