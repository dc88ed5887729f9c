// The quotient of four models that are handed over one after the other: f, g, h, w.
#![tactic(auto)]

ghost use Rattle.std.specs.Prelude.{◌≡◌, ◌≤◌, length};
ghost use Rattle.model_types.specs.ModelStruct.{answer};
ghost use Rattle.c_books.specs.HandedBooks.{model_places};
ghost use Rattle.c_quotients.specs.HandedQuotients.{quotient_models, quotient_fits, handed_quotient};
ghost use Rattle.model_slices.specs.HandedModels.{model_room};
ghost use Rattle.c_calls.specs.CallCodes.{called_state, called};

use model::Answer;
use model_types::Key;

// The models of a quotient.
const MODELS: usize = 4;

// Whether the slices hold four models, and there is room for the answer.
pub fn quotient_fits(models: usize, room: bool) -> bool
    ensures { result ≡ quotient_fits models room }
{
    MODELS <= models && room
}

// The call with the first four models.
pub fn handed_quotient(
    d: u8,
    ns: &[u8],
    counts: &[usize],
    radii: &[u64],
    keys: &[Key],
    coefficients: &[i64],
) -> Answer
    requires { quotient_models ≤ model_places (length ns.now) (length counts.now) (length radii.now)
        (length keys.now) (length coefficients.now) }
    ensures { result ≡ answer (handed_quotient d ns.now counts.now radii.now
        keys.now coefficients.now) }
{
    let f = c_books::model_at(ns, counts, radii, keys, coefficients, 0);
    let g = c_books::model_at(ns, counts, radii, keys, coefficients, 1);
    let h = c_books::model_at(ns, counts, radii, keys, coefficients, 2);
    let w = c_books::model_at(ns, counts, radii, keys, coefficients, 3);
    model::quotient(d, f, g, h, w)
}

// f / g, checked from a proposal h, w: the refusal's number, 0 without one, or MISUSED. The four models are handed over
// one after the other as a book's are; the answer's 64 keys and coefficients go into two slices, the refusal's place,
// n, the count and the radius into the third.
pub fn divide(
    d: u8,
    ns: &[u8],
    counts: &[usize],
    radii: &[u64],
    keys: &[Key],
    coefficients: &[i64],
    outkeys: &mut [Key],
    outcoefficients: &mut [i64],
    outnumbers: &mut [u64],
) -> u8
    ensures { called_state result outkeys.new outcoefficients.new outnumbers.new
        ≡ called
        (quotient_fits (model_places (length ns.now) (length counts.now)
        (length radii.now) (length keys.now) (length coefficients.now))
        (model_room (length outkeys.old) (length outcoefficients.old)
        (length outnumbers.old)))
        (handed_quotient d ns.now counts.now radii.now keys.now
        coefficients.now)
        outkeys.old outcoefficients.old outnumbers.old }
{
    let models = c_books::model_places(
        ns.len(),
        counts.len(),
        radii.len(),
        keys.len(),
        coefficients.len(),
    );
    let room = model_slices::model_room(outkeys.len(), outcoefficients.len(), outnumbers.len());
    if !quotient_fits(models, room) {
        return c_calls::MISUSED;
    }
    let a = handed_quotient(d, ns, counts, radii, keys, coefficients);
    c_calls::store_answer(a, outkeys, outcoefficients, outnumbers)
}
