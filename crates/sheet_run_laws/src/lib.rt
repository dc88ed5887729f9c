// The steps of a book whose models stand in flat slices, and where a part of a run stopped. Beside them stand the
// definitions and laws of a run whose models and results stand in flat slices.
#![tactic(auto)]

use model_types::Verdict;
use sheet_book::Step;

// Handed on: crates above name these through this crate.
pub use sheet_steps;
pub use sheet_steps::model;

// What is left of a book when its models stand in flat slices: n, the order d and the first `count` of its steps, which
// are the book's own array.
#[derive(Clone, Copy)]
pub struct StepList {
    pub n: u8,
    pub d: u8,
    pub count: usize,
    pub steps: [Step; sheet_book::MOST_STEPS],
}

// Where a part of a run stopped: before which step, or at which, if it is refused.
#[derive(Clone, Copy)]
pub struct Stop {
    pub at: usize,
    pub verdict: Verdict,
}

// The codes of steps that a run tells apart.
pub use sheet_steps::{INPUT, MULTIPLY, QUOTIENT, SUBSTITUTE};
