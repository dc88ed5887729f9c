// Models that are handed over to be stored in the archive, and restored from it.
#![tactic(auto)]

ghost use Rattle.std.specs.Prelude.{◌≡◌, ◌≤◌, length};
ghost use Rattle.model_types.specs.ModelStruct.{view, answer};
ghost use Rattle.model_slices.specs.HandedModels.{handed, model_room};
ghost use Rattle.c_archive.specs.ArchiveCalls.{store_fits, numbers_state, stored_length};
ghost use Rattle.c_archive.specs.ArchiveCalls.{store_state, called_store, stored_call, restored_call};
ghost use Rattle.c_calls.specs.CallCodes.{called_state, called};

use model_archive::Stored;
use model_types::{Answer, Key};

// The numbers of a store's answer: the refusal's place and the length.
const NUMBERS: usize = 2;

// Whether the slices have every term that the count names, and room for the numbers.
pub fn store_fits(count: usize, keys: usize, coefficients: usize, numbers: usize) -> bool
    ensures { result ≡ store_fits count keys coefficients numbers }
{
    model_slices::borrowed(count, keys, coefficients) && NUMBERS <= numbers
}

// The place of a refused store and the length go into a slice; the refusal's number.
fn store_stored(w: Stored, numbers: &mut [u64]) -> u8
    requires { 2 ≤ length numbers.old }
    ensures { numbers_state result numbers.new ≡ stored_length w numbers.old }
{
    let v = w.verdict;
    numbers[0] = model_slices::verdict_place(v) as u64;
    numbers[1] = w.length as u64;
    model_slices::verdict_number(v)
}

// The model that is handed over is stored into the buffer, and the refusal's place and the length into the numbers; the
// refusal's number.
pub fn store(
    n: u8,
    count: usize,
    radius: u64,
    keys: &[Key],
    coefficients: &[i64],
    buffer: &mut [u8],
    numbers: &mut [u64],
) -> u8
    requires { 2 ≤ length numbers.old }
    ensures { store_state result buffer.new numbers.new
        ≡ stored_call (view (handed n count radius keys.now coefficients.now))
        buffer.old numbers.old }
{
    let m = model_slices::handed(n, count, radius, keys, coefficients);
    let w = model_archive::store(m, buffer);
    store_stored(w, numbers)
}

// The model of the first terms.
pub fn restore(bytes: &[u8], terms: usize) -> Answer
    ensures { result ≡ answer (restored_call bytes.now terms) }
{
    model_archive::restore(bytes, terms)
}

// A model is stored in the archive's form, from the buffer's start on: the refusal's number, 0 without one, or MISUSED.
// The refusal's place and the length go into the numbers; bytes beyond the length stay, all of them with a refusal.
pub fn store_model(
    n: u8,
    count: usize,
    radius: u64,
    keys: &[Key],
    coefficients: &[i64],
    buffer: &mut [u8],
    numbers: &mut [u64],
) -> u8
    ensures { store_state result buffer.new numbers.new
        ≡ called_store
        (store_fits count (length keys.now) (length coefficients.now)
        (length numbers.old))
        (view (handed n count radius keys.now coefficients.now))
        buffer.old numbers.old }
{
    if !store_fits(count, keys.len(), coefficients.len(), numbers.len()) {
        return c_calls::MISUSED;
    }
    store(n, count, radius, keys, coefficients, buffer, numbers)
}

// The model that the first `terms` terms of an archived one make, or all if there are fewer: the refusal's number, 0
// without one, or MISUSED. The answer's 64 keys and coefficients go into two slices, the refusal's place, n, the count
// and the radius into the third.
pub fn restore_model(
    bytes: &[u8],
    terms: usize,
    keys: &mut [Key],
    coefficients: &mut [i64],
    numbers: &mut [u64],
) -> u8
    ensures { called_state result keys.new coefficients.new numbers.new
        ≡ called
        (model_room (length keys.old) (length coefficients.old) (length numbers.old))
        (restored_call bytes.now terms)
        keys.old coefficients.old numbers.old }
{
    if !model_slices::model_room(keys.len(), coefficients.len(), numbers.len()) {
        return c_calls::MISUSED;
    }
    let a = restore(bytes, terms);
    c_calls::store_answer(a, keys, coefficients, numbers)
}
