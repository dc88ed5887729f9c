// The quotient, a single call of four models.
ghost use Rattle.std.specs.Prelude.{◌≡◌, length};
ghost use Rattle.model_slices.specs.HandedModels.{model_room};
ghost use Rattle.c_books.specs.HandedBooks.{model_places};
ghost use Rattle.c_calls.specs.CallCodes.{called_state, called};
ghost use Rattle.c_quotients.specs.HandedQuotients.{quotient_fits, handed_quotient};

use model_types::Key;

// f / g, checked from a proposal h, w: the refusal's number, 0 without one, or MISUSED. The four models are handed over
// one after the other as a book's are; the answer's 64 keys and coefficients go into two slices, the refusal's place,
// n, the count and the radius into the third.
#[unsafe(no_mangle)]
pub extern "C" fn hechroung_raw_divide(
    d: u8,
    ns: &[u8],
    counts: &[usize],
    radii: &[u64],
    keys: &[Key],
    coefficients: &[i64],
    outkeys: &mut [Key],
    outcoefficients: &mut [i64],
    outnumbers: &mut [u64],
) -> u8
    ensures { called_state result outkeys.new outcoefficients.new outnumbers.new
        ≡ called
        (quotient_fits (model_places (length ns.now) (length counts.now)
        (length radii.now) (length keys.now) (length coefficients.now))
        (model_room (length outkeys.old) (length outcoefficients.old)
        (length outnumbers.old)))
        (handed_quotient d ns.now counts.now radii.now keys.now
        coefficients.now)
        outkeys.old outcoefficients.old outnumbers.old }
{
    c_quotients::divide(
        d,
        ns,
        counts,
        radii,
        keys,
        coefficients,
        outkeys,
        outcoefficients,
        outnumbers,
    )
}
