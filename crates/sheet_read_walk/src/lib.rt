// The walk over a sheet's records that also keeps them: its models, then its steps, up to the first fault.
#![tactic(auto)]

ghost use Rattle.std.specs.Prelude.{◌≡◌, ◌+◌, ◌*◌, ◌≤◌, length, drop};
ghost use Rattle.calculus.specs.Key.{key_width};
ghost use Rattle.calculus.specs.Book.{most_models, most_steps};
ghost use Rattle.format.specs.Format.{step_length};
ghost use Rattle.sheet_read_walk.specs.KeptRecords.{models_read, steps_read};

use model_types::{Key, Model};
use sheet_book::Step;

// Handed on: crates above name these through this crate.
pub use sheet_walk;

// How far the records of models go: the number of the first faulty one or that of all, the place after the others, and
// these. (A number beside an array of all places, here and below, as in a book: nothing allocates.)
#[derive(Clone, Copy)]
pub struct ModelsRead {
    pub place: usize,
    pub end: usize,
    pub models: [Model; sheet_book::MOST_MODELS],
}

// How far steps go: the number of the first faulty one or that of all, and the others.
#[derive(Clone, Copy)]
pub struct StepsRead {
    pub place: usize,
    pub steps: [Step; sheet_book::MOST_STEPS],
}

// The models in `s`, which ends at the first step. A fault leaves the loop with the faulty model's number.
pub fn read_models(s: &[u8], n: u8, d: u8, count: usize) -> ModelsRead
    requires { (1 ≤ n) × (n ≤ key_width) × (count ≤ most_models) }
    ensures { result ≡ models_read n d count s.now }
{
    let none = model_types::without_terms(0);
    let mut models = [none; sheet_book::MOST_MODELS];
    let mut at = 0;
    let mut place = count;
    'models: for k in 0..count {
        let mut keys: [Key; model_types::MOST_TERMS] = [0; model_types::MOST_TERMS];
        let mut coefficients = [0i64; model_types::MOST_TERMS];
        let Some(taken) = sheet_walk::record_at(s, at, n, d, &mut keys, &mut coefficients) else {
            place = k;
            break 'models;
        };
        let total = model_bytes::byte_at(s, at + format::COUNT_AT) as usize;
        let radius = model_bytes::u32_at(s, at) as u64;
        models[k] = Model {
            n: n,
            count: total,
            radius: radius,
            keys: keys,
            coefficients: coefficients,
        };
        at += taken;
    }
    ModelsRead {
        place: place,
        end: at,
        models: models,
    }
}

// The steps from `offset` on. A fault leaves the loop with the faulty step's number.
pub fn read_steps(s: &[u8], offset: usize, n: u8, models: usize, count: usize) -> StepsRead
    requires { (count ≤ most_steps) × (offset + step_length * count ≤ length s.now) }
    ensures { result ≡ steps_read n models count (drop offset s.now) }
{
    let mut steps = [Step::ZERO; sheet_book::MOST_STEPS];
    let mut at = offset;
    let mut place = count;
    'steps: for k in 0..count {
        let step = sheet_decode::step_at(s, at);
        if !sheet_book::step_sound(n, models, k, step) {
            place = k;
            break 'steps;
        }
        steps[k] = step;
        at += format::STEP_BYTES;
    }
    StepsRead {
        place: place,
        steps: steps,
    }
}
