// Polynomial models in 1 to 8 variables: the single calls of document 01. Each takes anything, whatever its fields
// hold, makes the tests in document 01's order, and answers the result or the refusal with its place. The numbers in a
// call's comment are its refusals, in the order of the tests. The constructors `Model::constant` and `Model::variable`
// stand with the type.
#![tactic(auto)]

ghost use Rattle.std.specs.Prelude.{◌≡◌, ◌*◌, ◌^◌, ◌<◌};
ghost use Rattle.calculus.specs.Model.{most_terms, zero_model, one_model};
ghost use Rattle.calculus.specs.Refusal.{at_place};
ghost use Rattle.calculus.specs.Operations as Op;
ghost use Rattle.calculus.specs.Calls.{call_negate, call_add, call_subtract, call_multiply, call_substitute};
ghost use Rattle.calculus.specs.Calls.{call_sweep, call_range, call_integral, call_antiderivative};
ghost use Rattle.calculus.specs.Calls.{call_quotient, call_sound};
ghost use Rattle.model_types.specs.ModelStruct.{view, pack, answer, bounds, integral_answer};
ghost use Rattle.model_substitution.specs.Substitute.{Substitution};
ghost use Rattle.product_hash_table.specs.Table.{slots_each};

use model_quotient_room::model_multiplication;
pub use model_types::{Answer, Bounds, Integral, Model, Refusal, Refused, Verdict};

// The number of a refusal in the documents' table: 1 to 17.
pub use model_types::number;

// Whether a struct holds a model by the rules, with degrees up to d, and up to 15 where d is more.
pub fn sound(m: Model, d: u8) -> bool
    ensures { result ≡ call_sound d (view m) }
{
    if model_types::MOST_DEGREE < d {
        return model_soundness::sound(m, model_types::MOST_DEGREE);
    }
    model_soundness::sound(m, d)
}

// ---- the named models
// `Model::ZERO` is the zero model.
pub fn zero_model() -> Model
    ensures { result ≡ pack (zero_model 1) }
{
    Model::ZERO
}

// `Model::ONE` is the model of 1.
pub fn one_model() -> Model
    ensures { result ≡ pack (one_model 1) }
{
    Model::ONE
}

// ---- the tables of a substitution
// A table is filled with zeros where it is declared, which takes longer for the full one than a short substitution. So
// its size goes by the terms of g: one factor of each product is g, and the other has at most 64 terms.
const FEW_TERMS: usize = 4;

// Where g has more, up to so many, there is one between.
const SOME_TERMS: usize = 16;

// The products that the smallest table has room for.
const FEW_PRODUCTS: usize = model_types::MOST_TERMS * FEW_TERMS;

// Those that the next one has room for.
const SOME_PRODUCTS: usize = model_types::MOST_TERMS * SOME_TERMS;

// Places for a grid: two models with all monomials of degree up to 3 in four variables multiply in one of
// 7 × 7 × 7 × 7.
const GRID_PLACES: usize = 2401;

const FEW_SLOTS: usize = product_hash_table::SLOTS_EACH * FEW_PRODUCTS + 1;

const FEW_PLACES: usize = FEW_PRODUCTS + 1;

const SOME_SLOTS: usize = product_hash_table::SLOTS_EACH * SOME_PRODUCTS + 1;

const SOME_PLACES: usize = SOME_PRODUCTS + 1;

// g in the place of variable i of f, with order d, in a table with so many slots, keys and sums: room for the products
// of g with 64 terms. With more sums these may be faster in a grid.
fn substituted_in<const SLOTS: usize, const KEYS: usize, const SUMS: usize>(
    d: u8,
    i: u8,
    f: Model,
    g: Model,
) -> Answer
    requires small { (SLOTS < 2 ^ 16) × (KEYS < 2 ^ 16) × (SUMS < 2 ^ 16) }
    requires slots { slots_each * (most_terms * g.count) < SLOTS }
    requires places { (most_terms * g.count < KEYS) × (most_terms * g.count < SUMS) }
    requires substitution { Substitution d i f g }
    ensures { result ≡ answer (at_place 0 (Op.substitute d i (view f) (view g))) }
{
    let mut slots = [0u16; SLOTS];
    let mut keys = [0u64; KEYS];
    let mut sums = [0i64; SUMS];
    model_substitution::substituted(d, i, f, g, &mut slots, &mut keys, &mut sums)
}

// ---- the calls
// All signs turned. 5.
pub fn negate(m: Model) -> Answer
    ensures { result ≡ answer (call_negate (view m)) }
{
    let v = model_call_tests::single_model(m);
    match v {
        Ok(()) => Answer {
            model: model_unary::negated(m),
            verdict: Ok(()),
        },
        Err(Refused(refusal, place)) => model_types::refuse(refusal, place),
    }
}

// Terms other than the constant one with |c| at most t dropped, and |c| added to the radius. 5, 6.
pub fn sweep(m: Model, t: i64) -> Answer
    ensures { result ≡ answer (call_sweep t (view m)) }
{
    let v = model_call_tests::sweeping(m, t);
    match v {
        Ok(()) => Answer {
            model: model_unary::swept(m, fixed::magnitude(t)),
            verdict: Ok(()),
        },
        Err(Refused(refusal, place)) => model_types::refuse(refusal, place),
    }
}

// The antiderivative in variable i, zero wherever that variable is 0: each c divided by its new exponent, with terms
// above degree d swept into the radius. 3, 5, 6.
pub fn antiderivative(d: u8, i: u8, f: Model) -> Answer
    ensures { result ≡ answer (call_antiderivative d i (view f)) }
{
    let v = model_call_tests::integrating(d, i, f);
    match v {
        Ok(()) => Answer {
            model: model_antiderivative::integrated(d, i, f),
            verdict: Ok(()),
        },
        Err(Refused(refusal, place)) => model_types::refuse(refusal, place),
    }
}

// The range over the box, in units. 5.
pub fn range(m: Model) -> Bounds
    ensures { result ≡ bounds (call_range (view m)) }
{
    let v = model_call_tests::single_model(m);
    match v {
        Ok(()) => model_range::range_of(m),
        Err(Refused(refusal, place)) => model_types::refuse_bounds(refusal, place),
    }
}

// The integral over the box, in units: two ends, and of the polynomial part alone a quotient and a remainder, which are
// exact. 5.
pub fn integral(m: Model) -> Integral
    ensures { result ≡ integral_answer (call_integral (view m)) }
{
    let v = model_call_tests::single_model(m);
    match v {
        Ok(()) => model_integral::integral_of(m),
        Err(Refused(refusal, place)) => model_types::refuse_integral(refusal, place),
    }
}

// Coefficients of equal monomials added, zeros dropped, radii added. 5 at place 0 or 1, 10, 8, 7.
pub fn add(a: Model, b: Model) -> Answer
    ensures { result ≡ answer (call_add (view a) (view b)) }
{
    let v = model_call_tests::two_models(model_types::MOST_DEGREE, a, b);
    match v {
        Ok(()) => model_addition::added(a, b),
        Err(Refused(refusal, place)) => model_types::refuse(refusal, place),
    }
}

// The first and the negated second added. 5 at place 0 or 1, 10, 8, 7.
pub fn subtract(a: Model, b: Model) -> Answer
    ensures { result ≡ answer (call_subtract (view a) (view b)) }
{
    let v = model_call_tests::two_models(model_types::MOST_DEGREE, a, b);
    match v {
        Ok(()) => model_addition::subtracted(a, b),
        Err(Refused(refusal, place)) => model_types::refuse(refusal, place),
    }
}

// The product, with terms above degree d swept into the radius. 3, 5 at place 0 or 1, 10, 8, 7.
pub fn multiply(d: u8, a: Model, b: Model) -> Answer
    ensures { result ≡ answer (call_multiply d (view a) (view b)) }
{
    let v = model_call_tests::ordered(d, a, b);
    match v {
        Ok(()) => model_multiplication::multiplied_alone(d, a, b),
        Err(Refused(refusal, place)) => model_types::refuse(refusal, place),
    }
}

// g in the place of variable i of f, by Horner's rule with order d. 3, 5 at place 0 or 1, 10, 6, 9, then the first 8 or
// 7 of the products and sums.
pub fn substitute(d: u8, i: u8, f: Model, g: Model) -> Answer
    ensures { result ≡ answer (call_substitute d i (view f) (view g)) }
{
    let v = model_call_tests::substituting(d, i, f, g);
    match v {
        Ok(()) => {
            if g.count <= FEW_TERMS {
                return substituted_in::<FEW_SLOTS, FEW_PLACES, FEW_PLACES>(d, i, f, g);
            }
            if g.count <= SOME_TERMS {
                if f.count <= SOME_TERMS {
                    return substituted_in::<SOME_SLOTS, SOME_PLACES, SOME_PLACES>(d, i, f, g);
                }
                // Its products may be faster in a grid.
                return substituted_in::<SOME_SLOTS, SOME_PLACES, GRID_PLACES>(d, i, f, g);
            }
            substituted_in::<
                { product_hash_table::SLOTS },
                { product_hash_table::ENTRY_PLACES },
                { product_sums::PLACES },
            >(d, i, f, g)
        }
        Err(Refused(refusal, place)) => model_types::refuse(refusal, place),
    }
}

// Two ends around the value at the point X_1/U, .., X_n/U: for every function within the model its value there, times
// U, lies between them. 5, 6 for a coordinate above n that is not 0, 9 for one of the others outside -U to U, then 7.
pub use model_evaluation::evaluate;

// f / g by the polynomial of h, with the radius that the forms w × (g × h - f) and 1 - w × g certify: for all functions
// within f and g the second is nowhere 0 in the box, and the quotient is within the answer. h and w are used without
// their radii. 3, 5 at places 0 to 3, 10, then the first 8 or 7 of the forms, 12, 7.
pub fn quotient(d: u8, f: Model, g: Model, h: Model, w: Model) -> Answer
    ensures { result ≡ answer (call_quotient d (view f) (view g) (view h) (view w)) }
{
    let v = model_call_tests::dividing(d, f, g, h, w);
    match v {
        Ok(()) => {
            let products = model_quotient_room::most_products(g.count, h.count, w.count);
            if products <= model_quotient_room::FEW_PRODUCTS {
                return model_quotient_room::divided_in::<
                    { model_quotient_room::FEW_PRODUCTS },
                    { model_quotient_room::FEW_SLOTS },
                    { model_quotient_room::FEW_PLACES },
                    { model_quotient_room::FEW_PLACES },
                >(d, f, g, h, w);
            }
            if products <= model_quotient_room::SOME_PRODUCTS {
                return model_quotient_room::divided_in::<
                    { model_quotient_room::SOME_PRODUCTS },
                    { model_quotient_room::SOME_SLOTS },
                    { model_quotient_room::SOME_PLACES },
                    { model_quotient_room::GRID_PLACES },
                >(d, f, g, h, w);
            }
            model_quotient_room::divided_in::<
                { product_hash_table::ENTRIES },
                { product_hash_table::SLOTS },
                { product_hash_table::ENTRY_PLACES },
                { product_sums::PLACES },
            >(d, f, g, h, w)
        }
        Err(Refused(refusal, place)) => model_types::refuse(refusal, place),
    }
}

// ---- for the layer above: operands that are known to be sound, and a scratch table
// Whether two slices hold a model by the rules, with degrees up to d.
pub use model_soundness::sound_slices;

// The exponent of variable i, 1 to 8, in a key.
pub use model_keys::exponent_of;

// All signs turned: the sound model of `negate`.
pub use model_unary::negated;

// The answer of `sweep` with the shares of its radius, for a sound model.
pub use model_unary::swept_accounted;

// The answer of `antiderivative` with the shares of its radius, for a sound model of the order and one of its
// variables.
pub use model_antiderivative::integrated_accounted;

// The two ends of `range`, for a sound model.
pub use model_range::range_of;

// The answer of `integral`, for a sound model.
pub use model_integral::integral_of;

// The answer of `add`, for two sound models in the same variables.
pub use model_addition::added;

// The answer of `subtract`, for two sound models in the same variables.
pub use model_addition::subtracted;

// `multiply` for two models that lie in slices with all the places which their counts name: the terms that are kept go
// into two arrays, by wide keys.
pub use product_calls::multiply_slices;

// All places of the model that it answers go into two slices.
pub use product_calls::store_kept;

// The answer of `multiply` with the shares of its radius, for two sound models in the same variables that lie in
// slices. The table is scratch, whatever is in it.
pub use product_calls::multiplied_slices_accounted;

// The answer of `substitute` with the shares of its radius, those of its last product and the radius of f, for two
// sound models in the same variables and one of these. The table is scratch.
pub use model_substitution::substituted_accounted;

// The answer of `quotient`, for four sound models in the same variables that lie in slices. The table is scratch, for
// the products that its forms make.
pub use model_quotient_room::model_quotient::divided_slices;

// Any other operation's answer with the shares of its radius: all is carried.
pub use model_types::all_carried;

// How long the slots, the keys and the sums of a scratch table for any product are. The sums serve as a grid too.
pub use product_hash_table::{ENTRY_PLACES, SLOTS};
pub use product_sums::PLACES;

// The products that such a table has room for, and how many slots a smaller one has for each of its own.
pub use product_hash_table::{ENTRIES, SLOTS_EACH};
