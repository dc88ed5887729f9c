// A sheet put into a borrowed buffer, one function for each part: its records, their fields one after the other;
// and its sections, all models, all steps and the trailer.
#![tactic(auto)]

ghost use Rattle.std.specs.Prelude.{◌≡◌, ◌+◌, ◌*◌, ◌^◌, ◌<◌, ◌≤◌, map, nat_abs, length};
ghost use Rattle.std.proofs.lemmas.List.Edits.{sets};
ghost use Rattle.format.specs.Bytes.{join};
ghost use Rattle.format.specs.Format.{key_length, key_bytes, term_length, step_length, trailer_length};
ghost use Rattle.format.specs.Format.{term_bytes, model_bytes, step_bytes, models_bytes, trailer_bytes};
ghost use Rattle.format.specs.HeldBook.{HeldPasses};
ghost use Rattle.sheet_book.specs.BookStruct.{held_model, held_step, held_book};
ghost use Rattle.sheet_encode.specs.Fitting.{ModelFits};

use model_types::{Key, Model};
use sheet_book::{Book, Step};

// ---- records

// A key of n variables: short or long.
fn put_key(buffer: &mut [u8], at: usize, n: u8, key: Key)
    requires { at + key_length n ≤ length buffer.old }
    ensures { buffer.new ≡ sets buffer.old at (key_bytes n key) }
{
    if n <= format::MOST_SHORT {
        model_bytes::put_u16(buffer, at, (key / format::SHORT_KEY) as u16);
    } else {
        model_bytes::put_u32(buffer, at, key);
    }
}

// A term of n variables.
fn put_term(buffer: &mut [u8], at: usize, n: u8, key: Key, coefficient: i64)
    requires coefficient_bound { nat_abs coefficient < 2 ^ 31 }
    requires n_in_bounds { at + term_length n ≤ length buffer.old }
    ensures { buffer.new
        ≡ sets buffer.old at (term_bytes n (record { key = key; coefficient = coefficient })) }
{
    let size = sheet_book::term_bytes(n);
    put_key(buffer, at, n, key);
    model_bytes::put_i32(buffer, at + size - 4, coefficient);
}

// A model.
fn put_model(buffer: &mut [u8], at: usize, m: Model)
    requires model_fits { ModelFits (held_model m) }
    requires m_in_bounds { at + length (model_bytes (held_model m)) ≤ length buffer.old }
    ensures { buffer.new ≡ sets buffer.old at (model_bytes (held_model m)) }
{
    let n = m.n;
    let count = m.count;
    let size = sheet_book::term_bytes(n);
    model_bytes::put_u32(buffer, at, m.radius as u32);
    buffer[at + format::COUNT_AT] = count as u8;
    let mut place = at + format::MODEL_BYTES;
    for i in 0..count {
        let key = m.keys[i];
        let c = m.coefficients[i];
        put_term(buffer, place, n, key, c);
        place += size;
    }
}

// The length of a model's record.
fn model_size(m: Model) -> usize
    requires { ModelFits (held_model m) }
    ensures { result ≡ length (model_bytes (held_model m)) }
{
    format::MODEL_BYTES + sheet_book::term_bytes(m.n) * m.count
}

// A step.
fn put_step(buffer: &mut [u8], at: usize, s: Step)
    requires value_bound { nat_abs s.value < 2 ^ 31 }
    requires step_length_in_bounds { at + step_length ≤ length buffer.old }
    ensures { buffer.new ≡ sets buffer.old at (step_bytes (held_step s)) }
{
    buffer[at] = s.code;
    buffer[at + 1] = s.a;
    buffer[at + 2] = s.b;
    buffer[at + 3] = s.v;
    model_bytes::put_i32(buffer, at + 4, s.value);
}

// ---- the sections of a book that passed the tests

// The length of all models' records: the offset of the first step.
pub fn models_size(b: Book) -> usize
    requires { HeldPasses (held_book b) }
    ensures { result ≡ length (models_bytes (held_book b)) }
{
    let count = b.model_count;
    let mut size = 0;
    for k in 0..count {
        let m = b.models[k];
        size += model_size(m);
    }
    size
}

// All models, from the start on.
pub fn put_models(buffer: &mut [u8], b: Book)
    requires held_passes { HeldPasses (held_book b) }
    requires b_in_bounds { length (models_bytes (held_book b)) ≤ length buffer.old }
    ensures { buffer.new ≡ sets buffer.old 0 (models_bytes (held_book b)) }
{
    let count = b.model_count;
    let mut place = 0;
    for k in 0..count {
        let m = b.models[k];
        put_model(buffer, place, m);
        place += model_size(m);
    }
}

// All steps.
pub fn put_steps(buffer: &mut [u8], at: usize, b: Book)
    requires held_passes { HeldPasses (held_book b) }
    requires step_count_in_bounds { at + step_length * b.step_count ≤ length buffer.old }
    ensures { buffer.new
        ≡ sets buffer.old at (join (map step_bytes (held_book b).steps)) }
{
    let count = b.step_count;
    let mut place = at;
    for k in 0..count {
        let s = b.steps[k];
        put_step(buffer, place, s);
        place += format::STEP_BYTES;
    }
}

// The trailer: n, d, the counts, the offset of the first step and the mark.
pub fn put_trailer(buffer: &mut [u8], at: usize, b: Book, offset: usize)
    requires held_passes { HeldPasses (held_book b) }
    requires offset_value { offset ≡ length (models_bytes (held_book b)) }
    requires trailer_length_in_bounds { at + trailer_length ≤ length buffer.old }
    ensures { buffer.new ≡ sets buffer.old at (trailer_bytes (held_book b)) }
{
    let mark = sheet_book::mark_of(b.n);
    buffer[at] = b.n;
    buffer[at + 1] = b.d;
    buffer[at + 2] = b.model_count as u8;
    buffer[at + 3] = b.step_count as u8;
    model_bytes::put_u16(buffer, at + 4, offset as u16);
    buffer[at + 6] = format::FIRST_MARK;
    buffer[at + 7] = mark;
}
