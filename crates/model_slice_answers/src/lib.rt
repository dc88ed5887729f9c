// Answers stored into slices: all 64 places of a model's terms, and its numbers.
#![tactic(auto)]

ghost use Rattle.std.specs.Prelude.{[], ◌∷◌, ◌≡◌, ◌≤◌, length};
ghost use Rattle.calculus.specs.Model.{most_terms};
ghost use Rattle.calculus.specs.Refusal.{stopped};
ghost use Rattle.model_types.specs.ModelStruct.{cause, answer};
ghost use Rattle.model_slices.specs.HandedModels.{over, answer_numbers};
ghost use Rattle.model_slices.specs.HeldModels.{Room};
ghost use Rattle.model_places.specs.LeftModels.{left_answer};
ghost use Rattle.model_slice_answers.specs.StoredAnswers.{Stored};

use model_limits::Left;
use model_types::{Key, MOST_TERMS, Refusal, Refused};

// The numbers of an answer.
pub fn store_numbers(place: usize, n: u8, count: usize, radius: u64, numbers: &mut [u64])
    requires { answer_numbers ≤ length numbers.old }
    ensures { numbers.new ≡ over (place ∷ n ∷ count ∷ radius ∷ []) numbers.old }
{
    numbers[0] = place as u64;
    numbers[1] = n as u64;
    numbers[2] = count as u64;
    numbers[3] = radius;
}

// A refusal goes into the slices, with the zero model; its number.
pub fn store_refused(
    refusal: Refusal,
    place: usize,
    keys: &mut [Key],
    coefficients: &mut [i64],
    numbers: &mut [u64],
) -> u8
    requires { (most_terms ≤ length keys.old) × (most_terms ≤ length coefficients.old)
        × (answer_numbers ≤ length numbers.old) }
    ensures { Stored (answer (stopped (cause refusal) place)) result
        keys.old coefficients.old numbers.old
        keys.new coefficients.new numbers.new }
{
    let none: [Key; MOST_TERMS] = [0; MOST_TERMS];
    let zeros = [0i64; MOST_TERMS];
    model_slices::copy_keys(MOST_TERMS, &none, keys);
    model_slices::copy_coefficients(MOST_TERMS, &zeros, coefficients);
    store_numbers(place, 1, 0, 0, numbers);
    model_types::number(refusal)
}

// What is left of a model in two arrays of 64 places goes into the slices, or its refusal; the number of
// that, 0 without one.
pub fn store_left(
    n: u8,
    l: Left,
    kept: &[Key],
    rest: &[i64],
    keys: &mut [Key],
    coefficients: &mut [i64],
    numbers: &mut [u64],
) -> u8
    requires room { Room kept.now rest.now }
    requires most_terms_in_bounds { (most_terms ≤ length keys.old) × (most_terms ≤ length coefficients.old)
        × (answer_numbers ≤ length numbers.old) }
    ensures { Stored (left_answer n l kept.now rest.now) result
        keys.old coefficients.old numbers.old
        keys.new coefficients.new numbers.new }
{
    let count = l.count;
    let radius = l.radius;
    let v = l.verdict;
    match v {
        Ok(()) => {
            model_slices::copy_keys(MOST_TERMS, kept, keys);
            model_slices::copy_coefficients(MOST_TERMS, rest, coefficients);
            store_numbers(0, n, count, radius, numbers);
            0
        }
        Err(Refused(refusal, place)) => {
            store_refused(refusal, place, keys, coefficients, numbers)
        }
    }
}
