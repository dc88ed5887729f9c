// A sheet's records loaded for a run: its models go straight into flat slices, a place each, and are tested there; its
// steps go into an array. No book is built.
#![tactic(auto)]

ghost use Rattle.std.specs.Prelude.{◌≡◌, ◌+◌, ◌*◌, T, length};
ghost use Rattle.calculus.specs.Book.{most_models};
ghost use Rattle.format.specs.Format.{step_length, trailer_length, trailer_sound, read_records};
ghost use Rattle.sheet_decode.specs.Trailer.{held_trailer};
ghost use Rattle.sheet_results.specs.Results.{results, Roomy};
ghost use Rattle.sheet_loading.specs.Loading.{ModelsLoaded, fault_of, RecordsLoaded};

use model_types::{Key, Refusal, Refused, Verdict};
use sheet_decode::Trailer;
use sheet_read_walk::sheet_walk;
use sheet_read_walk::sheet_walk::ModelsWalked;
use sheet_run_laws::StepList;

// Handed on: crates above name these through this crate.
pub use sheet_tests;

// What is left of a sheet once its models stand in slices: its steps, and the verdict of tests 5 and 6.
#[derive(Clone, Copy)]
pub struct Loaded {
    pub list: StepList,
    pub verdict: Verdict,
}

// The models in `s`, which ends at the first step: model k goes to place k. A fault leaves the loop with the faulty
// model's number.
pub fn load_models(
    s: &[u8],
    n: u8,
    d: u8,
    count: usize,
    keys: &mut [Key],
    coefficients: &mut [i64],
    counts: &mut [usize],
    radii: &mut [u64],
) -> ModelsWalked
    requires { Roomy count (results keys.old coefficients.old counts.old radii.old) }
    ensures { ModelsLoaded n d count s.now result
        (results keys.old coefficients.old counts.old radii.old)
        (results keys.new coefficients.new counts.new radii.new) }
{
    let mut at = 0;
    let mut place = count;
    'models: for k in 0..count {
        let from = model_types::MOST_TERMS * k;
        let Some(taken) = sheet_walk::record_at(
            s,
            at,
            n,
            d,
            &mut keys[from..],
            &mut coefficients[from..],
        ) else {
            place = k;
            break 'models;
        };
        let total = model_bytes::byte_at(s, at + format::COUNT_AT) as usize;
        let radius = model_bytes::u32_at(s, at) as u64;
        counts[k] = total;
        radii[k] = radius;
        at += taken;
    }
    ModelsWalked { place, end: at }
}

// The verdict of tests 5 and 6 by how far the walks went: a faulty model, bytes that are left after the last one, a
// faulty step.
fn fault_of(
    place: usize,
    count: usize,
    end: usize,
    offset: usize,
    fault: usize,
    total: usize,
) -> Verdict
    ensures { result ≡ fault_of place count end offset fault total }
{
    if place < count {
        return Err(Refused(Refusal::BadModel, place));
    }
    if end < offset {
        return Err(Refused(Refusal::BadModel, count));
    }
    if fault < total {
        return Err(Refused(Refusal::BadStep, fault));
    }
    Ok(())
}

// Tests 5 and 6 of a sheet that passes the others, its models in the first places of slices, and its steps.
pub fn load_records(
    sheet: &[u8],
    t: Trailer,
    keys: &mut [Key],
    coefficients: &mut [i64],
    counts: &mut [usize],
    radii: &mut [u64],
) -> Loaded
    requires t { T (trailer_sound (held_trailer t)) }
    requires trailer_length_value { t.offset + step_length * t.steps + trailer_length ≡ length sheet.now }
    requires roomy { Roomy most_models (results keys.old coefficients.old counts.old radii.old) }
    ensures { RecordsLoaded t.steps (read_records sheet.now (held_trailer t)) result
        (results keys.old coefficients.old counts.old radii.old)
        (results keys.new coefficients.new counts.new radii.new) }
{
    let n = t.n;
    let d = t.d;
    let count = t.models as usize;
    let total = t.steps as usize;
    let offset = t.offset as usize;
    let w = load_models(
        &sheet[..offset],
        n,
        d,
        count,
        keys,
        coefficients,
        counts,
        radii,
    );
    let v = sheet_read_walk::read_steps(sheet, offset, n, count, total);
    let verdict = fault_of(w.place, count, w.end, offset, v.place, total);
    let steps = v.steps;
    Loaded {
        list: StepList {
            n: n,
            d: d,
            count: total,
            steps: steps,
        },
        verdict: verdict,
    }
}
