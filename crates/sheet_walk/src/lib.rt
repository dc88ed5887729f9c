// Walking forward through a sheet's records, its models and then its steps, up to the first fault. Nothing is kept.
#![tactic(auto)]

ghost use Rattle.std.specs.Prelude.{◌≡◌, ◌+◌, ◌*◌, ◌≤◌, length, drop};
ghost use Rattle.calculus.specs.Key.{key_width};
ghost use Rattle.calculus.specs.Model.{most_terms};
ghost use Rattle.model_slices.specs.HandedModels.{over};
ghost use Rattle.format.specs.Format.{term_length, read_terms, step_length};
ghost use Rattle.sheet_walk.specs.Walk.{held_keys, held_coefficients, RecordRead};
ghost use Rattle.sheet_walk.specs.Walk.{models_walked, steps_walked};

use model_types::Key;

// How far the records of models go: the number of the first faulty one or that of all, and the place after the others.
#[derive(Clone, Copy)]
pub struct ModelsWalked {
    pub place: usize,
    pub end: usize,
}

// The terms of a record go into two slices, keys and coefficients, whatever stood there.
pub fn terms_at(
    s: &[u8],
    from: usize,
    n: u8,
    count: usize,
    keys: &mut [Key],
    coefficients: &mut [i64],
)
    requires count_in_bounds { from + term_length n * count ≤ length s.now }
    requires count_in_bounds_2 { (count ≤ length keys.old) × (count ≤ length coefficients.old) }
    ensures { (keys.new
        ≡ over (held_keys (read_terms n count (drop from s.now))) keys.old)
        × (coefficients.new
        ≡ over (held_coefficients (read_terms n count (drop from s.now))) coefficients.old) }
{
    let size = sheet_book::term_bytes(n);
    let mut place = from;
    for i in 0..count {
        let t = sheet_decode::term_at(s, place, n);
        let k = t.key;
        let c = t.coefficient;
        keys[i] = k;
        coefficients[i] = c;
        place += size;
    }
}

// The record at a place: how many bytes it takes, or none where it is faulty. Its terms go into two slices and are
// tested there.
pub fn record_at(
    s: &[u8],
    at: usize,
    n: u8,
    d: u8,
    keys: &mut [Key],
    coefficients: &mut [i64],
) -> Option<usize>
    requires at_in_bounds { at ≤ length s.now }
    requires most_terms_in_bounds { (most_terms ≤ length keys.old) × (most_terms ≤ length coefficients.old) }
    ensures { RecordRead n d (drop at s.now) keys.old keys.new
        coefficients.old coefficients.new result }
{
    let left = s.len() - at;
    if left < format::MODEL_BYTES {
        return None;
    }
    let total = model_bytes::byte_at(s, at + format::COUNT_AT) as usize;
    let taken = format::MODEL_BYTES + sheet_book::term_bytes(n) * total;
    if left < taken {
        return None;
    }
    if model_types::MOST_TERMS < total {
        return None;
    }
    let radius = model_bytes::u32_at(s, at) as u64;
    terms_at(s, at + format::MODEL_BYTES, n, total, keys, coefficients);
    if !model::sound_slices(n, total, radius, keys, coefficients, d) {
        return None;
    }
    Some(taken)
}

// The models in `s`, which ends at the first step. A fault leaves the loop with the faulty model's number.
pub fn walk_models(s: &[u8], n: u8, d: u8, count: usize) -> ModelsWalked
    requires { (1 ≤ n) × (n ≤ key_width) }
    ensures { result ≡ models_walked n d count s.now }
{
    let mut keys: [Key; model_types::MOST_TERMS] = [0; model_types::MOST_TERMS];
    let mut coefficients = [0i64; model_types::MOST_TERMS];
    let mut at = 0;
    let mut place = count;
    'models: for k in 0..count {
        let Some(taken) = record_at(s, at, n, d, &mut keys, &mut coefficients) else {
            place = k;
            break 'models;
        };
        at += taken;
    }
    ModelsWalked { place, end: at }
}

// The steps from `offset` on. A fault leaves the loop with the faulty step's number.
pub fn walk_steps(s: &[u8], offset: usize, n: u8, models: usize, count: usize) -> usize
    requires { offset + step_length * count ≤ length s.now }
    ensures { result ≡ steps_walked n models count (drop offset s.now) }
{
    let mut at = offset;
    let mut place = count;
    'steps: for k in 0..count {
        let step = sheet_decode::step_at(s, at);
        if !sheet_book::step_sound(n, models, k, step) {
            place = k;
            break 'steps;
        }
        at += format::STEP_BYTES;
    }
    place
}
