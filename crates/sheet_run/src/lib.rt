// The steps of a book in order: each after the results so far, until the last or until one is refused. The book's
// models and the results stand in flat slices, and a step copies only those that it names. All products share one
// table: a small one first, a larger one from the first step on that needs it, and so the full one.
#![tactic(auto)]

ghost use Rattle.sheet_run_tables.specs.model.OperationContracts.{most_entries};
ghost use Rattle.sheet_results.specs.Results.{results};
ghost use Rattle.sheet_run_tables.specs.sheet_run_laws.Run.{Part, Stopped};

use model_types::Key;
use sheet_run_tables::model;
use sheet_run_tables::sheet_run_laws::{StepList, Stop};

// The steps from one on, with the middle table and, where that does not serve, from there on with the full one. (It
// calls itself, since the compiler then leaves both tables in frames of their own: a run needs no more stack than for
// the tables that it comes to.)
fn run_on(
    l: StepList,
    from: usize,
    full: bool,
    keys: &mut [Key],
    coefficients: &mut [i64],
    counts: &mut [usize],
    radii: &mut [u64],
    rows: &mut [u64],
) -> Stop
    requires { Part l from (results keys.old coefficients.old counts.old radii.old) rows.old }
    ensures { (t : Part l from
        (results keys.old coefficients.old counts.old radii.old)
        rows.old) → Stopped t.held l most_entries result
        (results keys.new coefficients.new counts.new radii.new)
        rows.new }
{
    if full {
        return sheet_run_tables::steps_in::<
            { model::ENTRIES },
            { model::SLOTS },
            { model::ENTRY_PLACES },
            { model::PLACES },
        >(l, from, keys, coefficients, counts, radii, rows);
    }
    let last = l.count;
    let t = sheet_run_tables::steps_in::<
        { sheet_run_tables::SOME_PRODUCTS },
        { sheet_run_tables::SOME_SLOTS },
        { sheet_run_tables::SOME_PLACES },
        { sheet_run_tables::GRID_PLACES },
    >(l, from, keys, coefficients, counts, radii, rows);
    let at = t.at;
    let v = t.verdict;
    let Ok(()) = v else {
        return t;
    };
    if last <= at {
        return t;
    }
    run_on(l, at, true, keys, coefficients, counts, radii, rows)
}

// All steps.
pub fn run(
    l: StepList,
    keys: &mut [Key],
    coefficients: &mut [i64],
    counts: &mut [usize],
    radii: &mut [u64],
    rows: &mut [u64],
) -> Stop
    requires { Part l 0 (results keys.old coefficients.old counts.old radii.old) rows.old }
    ensures { (t : Part l 0
        (results keys.old coefficients.old counts.old radii.old)
        rows.old) → Stopped t.held l most_entries result
        (results keys.new coefficients.new counts.new radii.new)
        rows.new }
{
    let count = l.count;
    let t = sheet_run_tables::steps_in::<
        { sheet_run_tables::FEW_PRODUCTS },
        { sheet_run_tables::FEW_SLOTS },
        { sheet_run_tables::FEW_PLACES },
        { sheet_run_tables::FEW_PLACES },
    >(l, 0, keys, coefficients, counts, radii, rows);
    let at = t.at;
    let v = t.verdict;
    let Ok(()) = v else {
        return t;
    };
    if count <= at {
        return t;
    }
    run_on(l, at, false, keys, coefficients, counts, radii, rows)
}
