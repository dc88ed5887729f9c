// The archive: models in bytes, low degrees first.
ghost use Rattle.std.specs.Prelude.{◌≡◌, length};
ghost use Rattle.model_types.specs.ModelStruct.{view};
ghost use Rattle.model_slices.specs.HandedModels.{handed, model_room};
ghost use Rattle.c_calls.specs.CallCodes.{called_state, called};
ghost use Rattle.c_archive.specs.ArchiveCalls.{store_fits, store_state, called_store, restored_call};

use model_types::Key;

// A model is stored in the archive's form, from the buffer's start on: the refusal's number, 0 without one, or MISUSED.
// The refusal's place and the length go into the numbers; bytes beyond the length stay, all of them with a refusal.
#[unsafe(no_mangle)]
pub extern "C" fn hechroung_raw_store_model(
    n: u8,
    count: usize,
    radius: u64,
    keys: &[Key],
    coefficients: &[i64],
    buffer: &mut [u8],
    numbers: &mut [u64],
) -> u8
    ensures { store_state result buffer.new numbers.new
        ≡ called_store
        (store_fits count (length keys.now) (length coefficients.now)
        (length numbers.old))
        (view (handed n count radius keys.now coefficients.now))
        buffer.old numbers.old }
{
    c_archive::store_model(n, count, radius, keys, coefficients, buffer, numbers)
}

// The model that the first `terms` terms of an archived one make, or all if there are fewer: the refusal's number, 0
// without one, or MISUSED. The answer's 64 keys and coefficients go into two slices, the refusal's place, n, the count
// and the radius into the third.
#[unsafe(no_mangle)]
pub extern "C" fn hechroung_raw_restore_model(
    bytes: &[u8],
    terms: usize,
    keys: &mut [Key],
    coefficients: &mut [i64],
    numbers: &mut [u64],
) -> u8
    ensures { called_state result keys.new coefficients.new numbers.new
        ≡ called
        (model_room (length keys.old) (length coefficients.old) (length numbers.old))
        (restored_call bytes.now terms)
        keys.old coefficients.old numbers.old }
{
    c_archive::restore_model(bytes, terms, keys, coefficients, numbers)
}
