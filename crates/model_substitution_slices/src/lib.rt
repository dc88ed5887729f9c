// Substitution of models in slices, by Horner's rule.
#![tactic(auto)]

ghost use Rattle.std.specs.Prelude.{◌*◌};
ghost use Rattle.calculus.specs.Model.{most_terms};
ghost use Rattle.calculus.specs.Operations.{substitute};
ghost use Rattle.calculus.specs.Shares.{substitute_shares};
ghost use Rattle.model_types.specs.ModelStruct.{view};
ghost use Rattle.model_types.specs.SharesStruct.{accounted};
ghost use Rattle.product_room.specs.ProductTerms.{ScratchRoom};
ghost use Rattle.model_slices.specs.HeldModels.{held, Room};
ghost use Rattle.model_widening.specs.model_horner_iteration.HornerIteration.{KeptIn};
ghost use Rattle.model_substitution_slices.specs.Substituting.{SubstitutionOf};

use model_powers::Powers;
use model_slices::Kept;
use model_types::{Key, Shares};
use model_widening::model_horner_iteration;

// g in the place of variable i of f, with order d: Horner's rule from the highest power down, with the shares of its
// last product and the radius of f. What is left goes into the slices after the table; the others are at hand for each
// power's terms and for products. The table is scratch for all products, in each of which g is multiplied by a model of
// no more terms than any has.
pub fn put_in<'a>(
    d: u8,
    i: u8,
    n: u8,
    count: usize,
    radius: u64,
    keys: &'a [Key],
    coefficients: &'a [i64],
    count2: usize,
    radius2: u64,
    keys2: &[Key],
    coefficients2: &[i64],
    slots: &mut [u16],
    table: &mut [u64],
    sums: &mut [i64],
    remaining: &mut [Key],
    rest: &mut [i64],
    others: &mut [Key],
    added: &mut [i64],
    spare: &mut [Key],
    products: &mut [i64],
) -> Kept
    requires substitution_of { SubstitutionOf d i n count radius keys.now coefficients.now
        count2 radius2 keys2.now coefficients2.now }
    requires scratch_room { ScratchRoom (most_terms * count2) slots.old table.old sums.old }
    requires room { Room remaining.old rest.old }
    requires room_2 { Room others.old added.old }
    requires room_3 { Room spare.old products.old }
    ensures { KeptIn n result remaining.new rest.new (accounted (substitute d i
        (view (held n count radius keys.now coefficients.now))
        (view (held n count2 radius2 keys2.now coefficients2.now)))
        (λ m. substitute_shares d i
        (view (held n count radius keys.now coefficients.now))
        (view (held n count2 radius2 keys2.now coefficients2.now)))) }
{
    let p: Powers = model_powers::by_powers(i, count, keys);
    let top = p.largest;
    let mut c = model_powers::part(i, top, p, count, keys, coefficients, remaining, rest);
    let mut e = 0;
    let mut last = Shares::ZERO;
    for k in (0..top).rev() {
        let t = model_powers::part(i, k, p, count, keys, coefficients, others, added);
        let r = model_horner_iteration::iterated(
            d,
            n,
            c,
            e,
            remaining,
            rest,
            count2,
            radius2,
            keys2,
            coefficients2,
            t,
            others,
            added,
            slots,
            table,
            sums,
            spare,
            products,
        );
        let v = r.verdict;
        let Ok(()) = v else {
            return r;
        };
        c = r.count;
        e = r.radius;
        last = r.shares;
    }
    model_widening::widened(c, e, radius, rest, last)
}
