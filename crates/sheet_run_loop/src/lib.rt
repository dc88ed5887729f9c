// The steps of a book in order, each after the results so far, as far as the scratch memory for products serves.
#![tactic(auto)]

ghost use Rattle.sheet_results.specs.Results.{results};
ghost use Rattle.sheet_run_room.specs.sheet_run_laws.Run.{ScratchRoom, Part, Stopped};

use model_types::Key;
use sheet_run_room::sheet_run_laws::{StepList, Stop};

// Handed on: crates above name these through this crate.
pub use sheet_run_room::sheet_run_laws;
pub use sheet_run_steps::model;

// The steps from one on, until the end, a refusal, or a step that asks more room than there is.
pub fn steps(
    l: StepList,
    from: usize,
    room: usize,
    keys: &mut [Key],
    coefficients: &mut [i64],
    counts: &mut [usize],
    radii: &mut [u64],
    rows: &mut [u64],
    slots: &mut [u16],
    places: &mut [u64],
    sums: &mut [i64],
) -> Stop
    requires part { Part l from (results keys.old coefficients.old counts.old radii.old) rows.old }
    requires scratch_room { ScratchRoom room slots.old places.old sums.old }
    ensures { (t : Part l from
        (results keys.old coefficients.old counts.old radii.old)
        rows.old) → Stopped t.held l room result
        (results keys.new coefficients.new counts.new radii.new)
        rows.new }
{
    let n = l.n;
    let d = l.d;
    let count = l.count;
    for i in from..count {
        let s = l.steps[i];
        let served = sheet_run_room::fits(s, room, counts);
        if !served {
            return Stop {
                at: i,
                verdict: Ok(()),
            };
        }
        let v = sheet_run_steps::step(
            n,
            d,
            s,
            i,
            keys,
            coefficients,
            counts,
            radii,
            rows,
            slots,
            places,
            sums,
        );
        let Ok(()) = v else {
            return Stop { at: i, verdict: v };
        };
    }
    Stop {
        at: count,
        verdict: Ok(()),
    }
}
