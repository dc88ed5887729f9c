// The run of a sheet from its bytes: its records are loaded into flat slices, and its steps run there. No book is
// built.
#![tactic(auto)]

ghost use Rattle.std.specs.Prelude.{◌≡◌, ◌+◌, ◌*◌, ◌^◌, ◌≤◌, ◌<◌};
ghost use Rattle.calculus.specs.Refusal.{stopped};
ghost use Rattle.calculus.specs.Book.{most_models};
ghost use Rattle.calculus.specs.Model.{most_terms};
ghost use Rattle.model_types.specs.ModelStruct.{cause};
ghost use Rattle.sheet_loading.specs.sheet_tests.HeadedLaws.{HeadPasses};
ghost use Rattle.sheet_results.specs.Results.{results, Roomy};
ghost use Rattle.sheet_run_bytes.specs.RunBytes.{ran_read, ran_sheet};

use model_types::{Key, Refusal, Refused, Shares};
use sheet_decode::Trailer;
use sheet_loading::sheet_tests;
use sheet_running::Ran;

// Handed on: crates above name these through this crate.
pub use sheet_running;

// The places of a short run and of any other, a model or a result each, and their terms. The arrays of a short run are
// shorter, since an array is filled with zeros first.
const SHORT_PLACES: usize = sheet_book::MOST_MODELS + sheet_running::FEW_STEPS;

const SHORT_TERMS: usize = model_types::MOST_TERMS * SHORT_PLACES;

const LONG_PLACES: usize = sheet_book::MOST_MODELS + sheet_book::MOST_STEPS;

const LONG_TERMS: usize = model_types::MOST_TERMS * LONG_PLACES;

// A run that a test refuses: zeros for all steps.
fn refused(refusal: Refusal, place: usize) -> Ran
    ensures { result ≡ ran_read (stopped (cause refusal) place) }
{
    Ran {
        answer: model_types::refuse(refusal, place),
        shares: [Shares::ZERO; sheet_book::MOST_STEPS],
    }
}

// The run of a sheet that passes tests 1 to 4, in slices with places for all its steps.
fn run_loaded(
    keys: &mut [Key],
    coefficients: &mut [i64],
    counts: &mut [usize],
    radii: &mut [u64],
    sheet: &[u8],
    t: Trailer,
) -> Ran
    requires head_passes { HeadPasses sheet.now t }
    requires roomy { Roomy (most_models + t.steps) (results keys.old coefficients.old counts.old radii.old) }
    ensures { result ≡ ran_sheet sheet.now }
{
    let p = sheet_loading::load_records(sheet, t, keys, coefficients, counts, radii);
    let list = p.list;
    let v = p.verdict;
    let Err(Refused(refusal, place)) = v else {
        return sheet_running::run_steps(list, keys, coefficients, counts, radii);
    };
    refused(refusal, place)
}

// The run in arrays of its own, with so many places for models and results and so many for their terms. (Two functions:
// `run_loaded` takes slices of any length, so that its code stands once and not with each size of the arrays.)
fn run_in<const PLACES: usize, const TERMS: usize>(sheet: &[u8], t: Trailer) -> Ran
    requires head_passes { HeadPasses sheet.now t }
    requires sizes { (most_models + t.steps ≤ PLACES) × (most_terms * PLACES ≤ TERMS)
        × (PLACES < 2 ^ 16) × (TERMS < 2 ^ 16) }
    ensures { result ≡ ran_sheet sheet.now }
{
    let mut keys: [Key; TERMS] = [0; TERMS];
    let mut factors = [0i64; TERMS];
    let mut counts = [0usize; PLACES];
    let mut radii = [0u64; PLACES];
    run_loaded(&mut keys, &mut factors, &mut counts, &mut radii, sheet, t)
}

// What the run of a sheet leads to: the last result, or the first refusal of a test or a step; and the rows.
pub fn run_sheet(sheet: &[u8]) -> Ran
    ensures { result ≡ ran_sheet sheet.now }
{
    let v = sheet_tests::head_tested(sheet);
    let Err(Refused(refusal, place)) = v else {
        let t = sheet_decode::trailer_at(sheet, sheet.len() - format::TRAILER_BYTES);
        let total = t.steps as usize;
        if total <= sheet_running::FEW_STEPS {
            return run_in::<SHORT_PLACES, SHORT_TERMS>(sheet, t);
        }
        return run_in::<LONG_PLACES, LONG_TERMS>(sheet, t);
    };
    refused(refusal, place)
}
