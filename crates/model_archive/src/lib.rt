// The archive: models in bytes, low degrees first, so that the first terms can be read alone. Both calls take anything.
// The numbers in a call's comment are its refusals, in the order of the tests.
#![tactic(auto)]

ghost use Rattle.std.specs.Prelude.{◌≡◌};
ghost use Rattle.model_types.specs.ModelStruct.{view, answer};
ghost use Rattle.archive.specs.Archive.{store, stored, restored};
ghost use Rattle.model_archive.specs.StoredStruct.{store_answer};

use model_types::{Answer, MOST_DEGREE, Model, Refusal, Refused, Verdict};

// The archive's n is at most 4.
const MOST_VARS: u8 = 4;

// The bytes before the terms, and those of a term.
const HEAD: usize = 6;

const TERM: usize = 6;

// How many bytes were stored, or 0 beside a refusal, as the definition `store_answer` has it; and the verdict.
#[derive(Clone, Copy)]
pub struct Stored {
    pub length: usize,
    pub verdict: Verdict,
}

// The model in the archive's form, its length answered; bytes beyond that length stay. 3, 5, 11. A refused call answers
// the length 0, and all bytes stay.
pub fn store(m: Model, buffer: &mut [u8]) -> Stored
    ensures answers { result ≡ store_answer (store (view m) buffer.old) }
    ensures leaves { buffer.new ≡ (stored (view m) buffer.old).value.buffer }
{
    if !model_types::from_one(MOST_VARS, m.n) {
        return Stored {
            length: 0,
            verdict: Err(Refused(Refusal::BadLimits, 0)),
        };
    }
    if !model_soundness::sound(m, MOST_DEGREE) {
        return Stored {
            length: 0,
            verdict: Err(Refused(Refusal::BadModel, 0)),
        };
    }
    let size = HEAD + TERM * m.count;
    if buffer.len() < size {
        return Stored {
            length: 0,
            verdict: Err(Refused(Refusal::ShortBuffer, 0)),
        };
    }
    model_archive_storing::put_model(buffer, m);
    Stored {
        length: size,
        verdict: Ok(()),
    }
}

// The model that the first `terms` terms make, or all if there are fewer. 1, 3, 17 at the term, 5.
pub fn restore(bytes: &[u8], terms: usize) -> Answer
    ensures { result ≡ answer (restored bytes.now terms) }
{
    if bytes.len() < HEAD {
        return model_types::refuse(Refusal::BadLength, 0);
    }
    let count = bytes[5] as usize;
    if bytes.len() != HEAD + TERM * count {
        return model_types::refuse(Refusal::BadLength, 0);
    }
    let n = bytes[0];
    if !model_types::from_one(MOST_VARS, n) {
        return model_types::refuse(Refusal::BadLimits, 0);
    }
    let few = terms.min(count);
    let v = model_archive_restoring::ranks_tested(bytes, few);
    match v {
        Err(Refused(refusal, place)) => model_types::refuse(refusal, place),
        Ok(()) => model_archive_restoring::restored_model(bytes, n, count, few),
    }
}
