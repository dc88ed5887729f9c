// One step of a book, a product and a quotient apart: the operation that its code names, on the model or the results
// that its fields name.
#![tactic(auto)]

ghost use Rattle.std.specs.Prelude.{◌≡◌, ℕ, ◌-◌, ◌*◌, min, T};
ghost use Rattle.calculus.specs.Model as C;
ghost use Rattle.calculus.specs.Model.{most_degree, most_terms, sound};
ghost use Rattle.calculus.specs.Refusal.{accepted, at_place};
ghost use Rattle.calculus.specs.Shares.{all_carried};
ghost use Rattle.calculus.specs.Book.{most_models};
ghost use Rattle.model_types.specs.ModelStruct.{view, answer};
ghost use Rattle.model_types.specs.SharesStruct.{accounted};
ghost use Rattle.model.specs.OperationContracts.{ScratchRoom};
ghost use Rattle.sheet_book.specs.BookStruct.{held_step};
ghost use Rattle.sheet_steps.specs.Steps.{substitute_code};
ghost use Rattle.sheet_steps.specs.Steps.{step_answer, step_row, StepReady, DirectReady};

use model_types::{Accounted, Answer, Model};
use sheet_book::Step;

// Handed on: crates above name these through this crate.
pub use model;

// The codes of steps.
pub const INPUT: u8 = 0;

pub const CONSTANT: u8 = 1;

pub const VARIABLE: u8 = 2;

pub const NEGATE: u8 = 3;

pub const ADD: u8 = 4;

pub const SUBTRACT: u8 = 5;

pub const MULTIPLY: u8 = 6;

pub const SUBSTITUTE: u8 = 7;

pub const SWEEP: u8 = 8;

pub const QUOTIENT: u8 = 9;

pub const ANTIDERIVATIVE: u8 = 10;

// Where a book has model a. A number beyond the places is that of the last: only a step that is no input has one.
pub fn model_place(a: u8) -> usize
    ensures { result ≡ min a (most_models - 1) }
{
    let place = a as usize;
    if place < sheet_book::MOST_MODELS {
        place
    } else {
        sheet_book::MOST_MODELS - 1
    }
}

// What an input gives: the model that its field a names, with zeros beyond its count, all of its radius carried.
pub fn input_answer(input: Model) -> Accounted
    requires { T (sound most_degree (view input)) }
    ensures { result ≡ accounted (accepted (view input)) all_carried }
{
    model::all_carried(sheet_step_answers::accepted(sheet_step_answers::cleared(input)))
}

// What a step gives whose radius is all carried, with the results that a and b name: a constant, a variable, a
// negation, a sum or a difference. The same for every order, and whatever the book's models are.
fn direct_answer(n: u8, s: Step, f: Model, g: Model) -> Answer
    requires { DirectReady n (held_step s) f g }
    ensures { (d : ℕ) (m : C.Model)
        → result ≡ answer (at_place 0 (step_answer n d (held_step s) m (view f) (view g))) }
{
    let code = s.code;
    match code {
        CONSTANT => sheet_step_answers::accepted(model_types::constant_of(n, s.value)),
        VARIABLE => sheet_step_answers::accepted(model_types::variable_of(n, s.v)),
        NEGATE => sheet_step_answers::accepted(model::negated(f)),
        ADD => model::added(f, g),
        _ => model::subtracted(f, g),
    }
}

// What a step gives that names no model and at most two results, a product apart, with the results that a and b name,
// and where its radius came from. A result that the code does not name may be any sound one. A substitution uses the
// scratch table: each of its products is g by a model of at most 64 terms.
pub fn step_answer(
    n: u8,
    d: u8,
    s: Step,
    f: Model,
    g: Model,
    slots: &mut [u16],
    keys: &mut [u64],
    sums: &mut [i64],
) -> Accounted
    requires step_ready { StepReady n d (held_step s) f g }
    requires scratch_room { (held_step s).code ≡ substitute_code
        → ScratchRoom (most_terms * g.count) slots.old keys.old sums.old }
    ensures { (m : C.Model) → result ≡ accounted (step_answer n d (held_step s) m (view f) (view g))
        (step_row n d (held_step s) m (view f) (view g)) }
{
    let code = s.code;
    match code {
        SUBSTITUTE => model::substituted_accounted(d, s.v, f, g, slots, keys, sums),
        SWEEP => model::swept_accounted(f, fixed::magnitude(s.value)),
        ANTIDERIVATIVE => model::integrated_accounted(d, s.v, f),
        _ => model::all_carried(direct_answer(n, s, f, g)),
    }
}
