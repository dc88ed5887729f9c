// Sums of models held in memory: a merge of two lists of terms whose keys rise, then the limits.
#![tactic(auto)]

ghost use Rattle.std.specs.Prelude.{◌≡◌, ◌≤◌, ◌<◌, pos, get_or};
ghost use Rattle.calculus.specs.Refusal.{at_place};
ghost use Rattle.calculus.specs.Operations.{add, subtract};
ghost use Rattle.model_types.specs.ModelStruct.{view, answer};
ghost use Rattle.model_slices.specs.HeldModels.{model_places, held, Room, Clear};
ghost use Rattle.model_slices.specs.HeldModelsLaws.{pair};
ghost use Rattle.model_unary.specs.model_places.SlicePlaces.{Places};
ghost use Rattle.model_addition.specs.Merge.{Ready, Takes};
ghost use Rattle.model_addition.specs.Addition.{Operands, SumFrom, SumOf, SumIn};

use model_types::{Answer, Key, MOST_TERMS, Model, Refusal, Term};

// More terms than a model has places.
const TOO_MANY: usize = MOST_TERMS + 1;

// ---- which term comes next
// The term of a sum that comes next, and the places after it in the two lists.
#[derive(Clone, Copy)]
pub struct Next {
    pub term: Term,
    pub i: usize,
    pub j: usize,
}

// The term at place i of c that lie in two slices. Past the last one any term will do, since it is not used.
fn term_at(i: usize, c: usize, keys: &[Key], coefficients: &[i64]) -> Term
    requires { Places c keys.now coefficients.now }
    ensures { i < c → result ≡ pair (get_or keys.now i 0) (get_or coefficients.now i (pos 0)) }
{
    if i < c {
        let key = keys[i];
        let z = coefficients[i];
        return Term {
            key: key,
            coefficient: z,
        };
    }
    Term {
        key: 0,
        coefficient: 0,
    }
}

// The next term of two lists, of c and d terms: x stands at place i of the first, y at place j of the second.
// Terms alone are handed over, since a model would be copied each time.
pub fn take_next(i: usize, c: usize, x: Term, j: usize, d: usize, y: Term) -> Next
    requires { Ready i c x j d y }
    ensures { Takes i c x j d y result }
{
    if d <= j {
        return Next {
            term: x,
            i: i + 1,
            j: j,
        };
    }
    if c <= i {
        return Next {
            term: y,
            i: i,
            j: j + 1,
        };
    }
    if x.key < y.key {
        return Next {
            term: x,
            i: i + 1,
            j: j,
        };
    }
    if y.key < x.key {
        return Next {
            term: y,
            i: i,
            j: j + 1,
        };
    }
    let t = Term {
        key: x.key,
        coefficient: fixed::sum(x.coefficient, y.coefficient),
    };
    Next {
        term: t,
        i: i + 1,
        j: j + 1,
    }
}

// ---- sums and differences
// The terms of a + b go into two slices: one pass over both lists. The number of the terms, or 65 for any number above
// 64. No coefficient wraps: each is a sum of at most two that are within the span limit. Where the slices held zeros
// these stand after the terms.
pub fn merged_slices(
    c: usize,
    keys1: &[Key],
    coefficients1: &[i64],
    d: usize,
    keys2: &[Key],
    coefficients2: &[i64],
    stored: &mut [Key],
    out: &mut [i64],
) -> usize
    requires sum_from { SumFrom c keys1.now coefficients1.now d keys2.now coefficients2.now }
    requires room { Room stored.old out.old }
    ensures terms { (w : SumFrom c keys1.now coefficients1.now
        d keys2.now coefficients2.now)
        → SumIn (held w.vars c w.radius1 keys1.now coefficients1.now)
        (held w.vars d w.radius2 keys2.now coefficients2.now)
        w.vars result stored.new out.new }
    ensures clear { result ≤ model_places → Clear 0 stored.old out.old
        → Clear result stored.new out.new }
{
    let mut count = 0;
    let mut i = 0;
    let mut j = 0;
    // No range counts this loop: it takes a term of either model, or of both.
    while i + j < c + d {
        let x = term_at(i, c, keys1, coefficients1);
        let y = term_at(j, d, keys2, coefficients2);
        let next = take_next(i, c, x, j, d, y);
        let t = next.term;
        let z = t.coefficient;
        i = next.i;
        j = next.j;
        if z != 0 {
            if MOST_TERMS <= count {
                return TOO_MANY;
            }
            stored[count] = t.key;
            out[count] = z;
            count += 1;
        }
    }
    count
}

// The same of models in slices of 64 places. The slices of each have one lifetime, so that a struct can lend its two
// arrays.
pub fn merged<'a, 'b>(
    c: usize,
    keys1: &'a [Key],
    coefficients1: &'a [i64],
    d: usize,
    keys2: &'b [Key],
    coefficients2: &'b [i64],
    stored: &mut [Key],
    out: &mut [i64],
) -> usize
    requires sum_of { SumOf c keys1.now coefficients1.now d keys2.now coefficients2.now }
    requires room { Room stored.old out.old }
    ensures terms { (w : SumOf c keys1.now coefficients1.now
        d keys2.now coefficients2.now)
        → SumIn (held w.vars c w.radius1 keys1.now coefficients1.now)
        (held w.vars d w.radius2 keys2.now coefficients2.now)
        w.vars result stored.new out.new }
    ensures clear { result ≤ model_places → Clear 0 stored.old out.old
        → Clear result stored.new out.new }
{
    merged_slices(
        c,
        keys1,
        coefficients1,
        d,
        keys2,
        coefficients2,
        stored,
        out,
    )
}

// a + b: the 65th term is refused before any span is tested.
pub fn added(a: Model, b: Model) -> Answer
    requires { Operands a b }
    ensures { result ≡ answer (at_place 0 (add (view a) (view b))) }
{
    let mut keys: [Key; MOST_TERMS] = [0; MOST_TERMS];
    let mut coefficients = [0i64; MOST_TERMS];
    let count = merged(
        a.count,
        &a.keys,
        &a.coefficients,
        b.count,
        &b.keys,
        &b.coefficients,
        &mut keys,
        &mut coefficients,
    );
    if MOST_TERMS < count {
        return model_types::refuse(Refusal::TooManyTerms, 0);
    }
    let radius = a.radius + b.radius;
    model_limits::limited(Model {
        n: a.n,
        count: count,
        radius: radius,
        keys: keys,
        coefficients: coefficients,
    })
}

// a - b: add the negated second.
pub fn subtracted(a: Model, b: Model) -> Answer
    requires { Operands a b }
    ensures { result ≡ answer (at_place 0 (subtract (view a) (view b))) }
{
    added(a, model_unary::negated(b))
}
