// What an order keeps of all products of two lists of terms, summed in a table that is handed over.
#![tactic(auto)]

ghost use Rattle.std.specs.Prelude.{◌*◌};
ghost use Rattle.product_sums.specs.TermArrays.{terms};
ghost use Rattle.product_sums.specs.ProductSums.{ProductGathered};
ghost use Rattle.product_room.specs.product_hash_collect.CollectorContracts.{HeldFactors, EmptyTable};
ghost use Rattle.product_room.specs.ProductTerms.{ScratchRoom, KeptRoom};

use product_room::{product_hash_collect, product_hash_gather};
use product_sums::Gathered;

// Handed on: crates above name these through this crate.
pub use product_room::product_grid;

// What order d keeps, in a table whose slots are empty, with room for so many products.
pub fn in_table(
    d: u64,
    ka: &[u64],
    ca: &[i64],
    na: usize,
    kb: &[u64],
    cb: &[i64],
    nb: usize,
    slots: &mut [u16],
    keys: &mut [u64],
    sums: &mut [i64],
    room: usize,
    kept: &mut [u64],
    coefficients: &mut [i64],
) -> Gathered
    requires held_factors { HeldFactors ka.now ca.now na kb.now cb.now nb }
    requires empty_table { EmptyTable (na * nb) room slots.old keys.old sums.old }
    requires kept_room { KeptRoom kept.old coefficients.old }
    ensures { ProductGathered d na ka.now ca.now
        nb kb.now cb.now kept.new coefficients.new result }
{
    let homes = product_hash_table::HOMES_EACH * room;
    let n = product_hash_collect::collect(slots, keys, sums, homes, ka, ca, na, kb, cb, nb);
    product_hash_gather::gather(keys, sums, n, d, kept, coefficients)
}

// The same in a scratch table, whatever is in it. Only as many slots as the products ask are emptied.
pub fn in_scratch_table(
    d: u64,
    ka: &[u64],
    ca: &[i64],
    na: usize,
    kb: &[u64],
    cb: &[i64],
    nb: usize,
    slots: &mut [u16],
    keys: &mut [u64],
    sums: &mut [i64],
    kept: &mut [u64],
    coefficients: &mut [i64],
) -> Gathered
    requires held_factors { HeldFactors ka.now ca.now na kb.now cb.now nb }
    requires scratch_room { ScratchRoom (na * nb) slots.old keys.old sums.old }
    requires kept_room { KeptRoom kept.old coefficients.old }
    ensures { ProductGathered d na ka.now ca.now
        nb kb.now cb.now kept.new coefficients.new result }
{
    let products = na * nb;
    let used = product_hash_table::SLOTS_EACH * products + 1;
    let part = &mut slots[..used];
    product_hash_slots::clear(part);
    in_table(
        d,
        ka,
        ca,
        na,
        kb,
        cb,
        nb,
        part,
        keys,
        sums,
        products,
        kept,
        coefficients,
    )
}
