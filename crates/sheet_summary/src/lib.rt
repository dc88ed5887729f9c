// The answers of a run: a result with its range and its integral, or a refusal.
#![tactic(auto)]

ghost use Rattle.std.specs.Prelude.{◌≡◌, T};
ghost use Rattle.calculus.specs.Model.{most_degree, sound};
ghost use Rattle.calculus.specs.Refusal.{done};
ghost use Rattle.calculus.specs.Book.{summary};
ghost use Rattle.model_types.specs.ModelStruct.{view, pack};
ghost use Rattle.sheet_book.specs.SummaryStruct.{run_answer, refused_summary};

use model_types::{Model, Verdict};
use sheet_book::{Ends, Exact, Summary};

// A refused run.
pub fn refused(verdict: Verdict) -> Summary
    ensures { result ≡ refused_summary verdict }
{
    Summary {
        model: Model::ZERO,
        range: Ends::ZERO,
        integral: Ends::ZERO,
        exact: Exact::ZERO,
        verdict: verdict,
    }
}

// A result with its range and its integral.
pub fn summarized(m: Model) -> Summary
    requires { (T (sound most_degree (view m))) × (pack (view m) ≡ m) }
    ensures { result ≡ run_answer (done (summary (view m))) }
{
    let range = model::range_of(m);
    let integral = model::integral_of(m);
    Summary {
        model: m,
        range: Ends {
            low: range.low,
            high: range.high,
        },
        integral: Ends {
            low: integral.low,
            high: integral.high,
        },
        exact: Exact {
            quotient: integral.quotient,
            remainder: integral.remainder,
        },
        verdict: Ok(()),
    }
}
