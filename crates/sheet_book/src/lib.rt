// The types of the sheet layer: books held in memory, what reading, writing and a run answer, and records; test 3, and
// test 6 of one step.
#![tactic(auto)]

ghost use Rattle.std.specs.Prelude.{◌≡◌};
ghost use Rattle.calculus.specs.Book.{limits_sound};
ghost use Rattle.format.specs.HeldBook.{outline};
ghost use Rattle.format.specs.Format.{term_length, mark_of};
ghost use Rattle.format.specs.Fields.{limit_a, limit_b, v_sound, earlier, value_sound, fields_sound};
ghost use Rattle.sheet_book.specs.BookStruct.{held_step};

use model_types::{Model, Shares, Verdict};

// The places of a book's models.
pub const MOST_MODELS: usize = 16;

// The places of its steps.
pub const MOST_STEPS: usize = 64;

// The codes of steps: 0 to this, which is `last_code`.
const LAST_CODE: u8 = 10;

// A step: its code and its fields. (The code is a number and no enum: a sheet and a caller's book may hold any byte,
// and test 6 refuses those that are no step's.)
#[derive(Clone, Copy)]
pub struct Step {
    pub code: u8,
    pub a: u8,
    pub b: u8,
    pub v: u8,
    pub value: i64,
}

// A book: n, the order d, the first `model_count` of its models and the first `step_count` of its steps. (Counts beside
// arrays of all places, here and in a report's rows: nothing allocates, and a book is as large as the largest.)
#[derive(Clone, Copy)]
pub struct Book {
    pub n: u8,
    pub d: u8,
    pub model_count: usize,
    pub step_count: usize,
    pub models: [Model; MOST_MODELS],
    pub steps: [Step; MOST_STEPS],
}

// A book, or one of zeros beside a refusal, as document 01 has it.
#[derive(Clone, Copy)]
pub struct Read {
    pub book: Book,
    pub verdict: Verdict,
}

// The length of what was written, or 0 beside a refusal, as document 01 has it.
#[derive(Clone, Copy)]
pub struct Written {
    pub length: usize,
    pub verdict: Verdict,
}

// Two ends, in units of 1/U.
#[derive(Clone, Copy)]
pub struct Ends {
    pub low: i64,
    pub high: i64,
}

// The number quotient + remainder / 212,837,625, in units of 1/U; the remainder is below that.
#[derive(Clone, Copy)]
pub struct Exact {
    pub quotient: i64,
    pub remainder: u64,
}

// The last step's result, its range and its integral, and the integral of its polynomial part, exactly; or the zero
// model and zeros beside a refusal, as document 01 has it.
#[derive(Clone, Copy)]
pub struct Summary {
    pub model: Model,
    pub range: Ends,
    pub integral: Ends,
    pub exact: Exact,
    pub verdict: Verdict,
}

// A run's summary, and where the radius of each step came from: zeros from a refused step on, and where there is none.
#[derive(Clone, Copy)]
pub struct Report {
    pub summary: Summary,
    pub shares: [Shares; MOST_STEPS],
}

// What a record of a sheet is; there is none from the trailer on.
#[derive(Clone, Copy)]
pub enum Kind {
    Model,
    Step,
    End,
}

// Where stepping through a sheet begins, beside the verdict of tests 1 to 6: after a refusal at the sheet's end, as the
// definition `start_answer` has it, so that nothing is handed out.
#[derive(Clone, Copy)]
pub struct Start {
    pub at: usize,
    pub verdict: Verdict,
}

impl Step {
    // What stands in a step's place that is not used.
    pub const ZERO: Step = Step {
        code: 0,
        a: 0,
        b: 0,
        v: 0,
        value: 0,
    };
}

impl Ends {
    // The ends beside a refusal.
    pub const ZERO: Ends = Ends { low: 0, high: 0 };
}

impl Exact {
    // Beside a refusal.
    pub const ZERO: Exact = Exact {
        quotient: 0,
        remainder: 0,
    };
}

// ---- by the number of variables

// The bytes of a term.
pub fn term_bytes(n: u8) -> usize
    ensures { result ≡ term_length n }
{
    if n <= format::MOST_SHORT {
        return format::SHORT_TERM_BYTES;
    }
    format::LONG_TERM_BYTES
}

// The last byte of the mark.
pub fn mark_of(n: u8) -> u8
    ensures { result ≡ mark_of n }
{
    if n <= format::MOST_SHORT {
        return format::SHORT_MARK;
    }
    format::LONG_MARK
}

// ---- test 3

// Whether n, d and the counts are within their limits.
pub fn limits_sound(n: u8, d: u8, models: usize, steps: usize) -> bool
    ensures { result ≡ limits_sound (outline n d models steps) }
{
    model_types::vars_sound(n)
        && model_types::order_sound(d)
        && models <= MOST_MODELS
        && 1 <= steps
        && steps <= MOST_STEPS
}

// ---- test 6, field by field: a field that the code does not name is 0

// What field a is below: the count of models for an input, the step's own number where a is a step. (Here and below the
// code may be any byte that a sheet or a book holds.)
fn limit_a(models: usize, i: usize, code: u8) -> usize
    ensures { result ≡ limit_a models i code }
{
    match code {
        0 => models,
        1 | 2 => 1,
        _ => i,
    }
}

// What field b is below, for any byte as code.
fn limit_b(i: usize, code: u8) -> usize
    ensures { result ≡ limit_b i code }
{
    match code {
        4..=7 | 9 => i,
        _ => 1,
    }
}

// Whether field v is a variable of n, or a step before step i, where the code names it, which may be any byte.
fn v_sound(n: u8, i: usize, code: u8, v: u8) -> bool
    ensures { result ≡ v_sound n i code v }
{
    match code {
        2 | 7 | 10 => model_types::from_one(n, v),
        9 => (v as usize) < i,
        _ => v == 0,
    }
}

// Whether a value is the number of a step before step i.
fn earlier(i: usize, value: i64) -> bool
    ensures { result ≡ earlier i value }
{
    0 <= value && fixed::magnitude(value) < i as u64
}

// Whether the value is a constant, a threshold, or a step before step i, where the code, which may be any byte, names
// it.
fn value_sound(i: usize, code: u8, value: i64) -> bool
    ensures { result ≡ value_sound i code value }
{
    match code {
        1 => fixed::constant_within_limits(value),
        8 => fixed::threshold_within_limits(value),
        9 => earlier(i, value),
        _ => fixed::magnitude(value) == 0,
    }
}

// Whether step i of a book has its form.
pub fn step_sound(n: u8, models: usize, i: usize, s: Step) -> bool
    ensures { result ≡ fields_sound n models i (held_step s) }
{
    let code = s.code;
    code <= LAST_CODE
        && (s.a as usize) < limit_a(models, i, code)
        && (s.b as usize) < limit_b(i, code)
        && v_sound(n, i, code, s.v)
        && value_sound(i, code, s.value)
}
