// The rows of a run, stored into a slice: four numbers for each of 64 steps.
#![tactic(auto)]

ghost use Rattle.std.specs.Prelude.{◌≡◌, ◌≤◌, length};
ghost use Rattle.c_shares.specs.HandedShares.{report_numbers, stored_rows, report_room};

use sheet_book::Report;

// The ends of a run: those of the range and those of the integral, the quotient and the remainder.
const ENDS: usize = 6;

// The numbers of all rows.
const ROW_NUMBERS: usize = 256;

// Row i goes to the places from 4 × i on: carried, rounding, swept, slack.
pub fn store_rows(r: Report, out: &mut [u64])
    requires { report_numbers ≤ length out.old }
    ensures { out.new ≡ stored_rows r out.old }
{
    for i in 0..sheet_book::MOST_STEPS {
        let s = r.shares[i];
        let at = 4 * i;
        out[at] = s.carried;
        out[at + 1] = s.rounding;
        out[at + 2] = s.swept;
        out[at + 3] = s.slack;
    }
}

// Whether slices of these lengths have room for a run's answer with its rows.
pub fn report_room(
    keys: usize,
    coefficients: usize,
    numbers: usize,
    ends: usize,
    shares: usize,
) -> bool
    ensures { result ≡ report_room keys coefficients numbers ends shares }
{
    model_slices::model_room(keys, coefficients, numbers) && ENDS <= ends && ROW_NUMBERS <= shares
}
