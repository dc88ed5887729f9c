// Tests 1 to 6 of a sheet in order, over the whole sheet: the verdict alone, by walks that keep nothing of it.
#![tactic(auto)]

ghost use Rattle.std.specs.Prelude.{◌≡◌, ◌+◌, ◌*◌, T, length};
ghost use Rattle.calculus.specs.Model.{between};
ghost use Rattle.model_types.specs.ModelStruct.{verdict};
ghost use Rattle.format.specs.Format.{step_length, trailer_length, trailer_sound, shortest, longest};
ghost use Rattle.format.specs.Format.{read_records, read};
ghost use Rattle.sheet_decode.specs.Trailer.{held_trailer};
ghost use Rattle.sheet_tests.specs.Headed.{headed};

use model_types::{Refusal, Refused, Verdict};
use sheet_decode::Trailer;

// Test 1.
fn length_sound(length: usize) -> bool
    ensures { result ≡ between shortest longest length }
{
    format::SHORTEST <= length && length <= format::LONGEST
}

// Test 3: the limits, and n fits the mark.
fn trailer_sound(t: Trailer) -> bool
    ensures { result ≡ trailer_sound (held_trailer t) }
{
    sheet_book::limits_sound(t.n, t.d, t.models as usize, t.steps as usize)
        && t.mark == sheet_book::mark_of(t.n)
}

// Tests 1 to 4.
pub fn head_tested(sheet: &[u8]) -> Verdict
    ensures { result ≡ verdict (headed sheet.now) }
{
    let length = sheet.len();
    if !length_sound(length) {
        return Err(Refused(Refusal::BadLength, 0));
    }
    let t = sheet_decode::trailer_at(sheet, length - format::TRAILER_BYTES);
    let steps = t.steps as usize;
    let offset = t.offset as usize;
    let marked = t.marked;
    let within = trailer_sound(t);
    if !marked {
        return Err(Refused(Refusal::BadMark, 0));
    }
    if !within {
        return Err(Refused(Refusal::BadLimits, 0));
    }
    let end = offset + format::STEP_BYTES * steps + format::TRAILER_BYTES;
    if end != length {
        return Err(Refused(Refusal::BadOffset, 0));
    }
    Ok(())
}

// Tests 5 and 6 of a sheet that passes the others.
fn records_tested(sheet: &[u8], t: Trailer) -> Verdict
    requires t { T (trailer_sound (held_trailer t)) }
    requires trailer_length_value { t.offset + step_length * t.steps + trailer_length ≡ length sheet.now }
    ensures { result ≡ verdict (read_records sheet.now (held_trailer t)) }
{
    let n = t.n;
    let d = t.d;
    let count = t.models as usize;
    let total = t.steps as usize;
    let offset = t.offset as usize;
    let w = sheet_walk::walk_models(&sheet[..offset], n, d, count);
    let place = w.place;
    if place < count {
        return Err(Refused(Refusal::BadModel, place));
    }
    // bytes are left after the last model
    if w.end < offset {
        return Err(Refused(Refusal::BadModel, count));
    }
    let fault = sheet_walk::walk_steps(sheet, offset, n, count, total);
    if fault < total {
        return Err(Refused(Refusal::BadStep, fault));
    }
    Ok(())
}

// Tests 1 to 6.
pub fn tested(sheet: &[u8]) -> Verdict
    ensures { result ≡ verdict (read sheet.now) }
{
    let v = head_tested(sheet);
    let Ok(()) = v else {
        return v;
    };
    let t = sheet_decode::trailer_at(sheet, sheet.len() - format::TRAILER_BYTES);
    records_tested(sheet, t)
}
