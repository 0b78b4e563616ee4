//! A list of the index in bytes.
ghost use Rattle.std.specs.Prelude.{◌≡◌, ◌↔◌, IfOk, IfErr, OnOk, IsTrue};
ghost use Rattle.std.specs.List.{AllByRecursion};
ghost use Rattle.osm_base.specs.values.Ids.{AreRisingIds};
ghost use Rattle.value_bytes.specs.Forms.{Spells, IsNoValue, NeedsFor};
ghost use Rattle.value_bytes.specs.Numbers.{IsNumber};
ghost use Rattle.back_index.specs.Ids.{ids_bytes, AreListed};

use osm_base::{Bytes, Ids, Items, MAX_ID, OutOfMemory};
use std::alloc::Global;
use value_bytes::{ValueFault, front_many, push_many};

/// The ids with these bytes: rising, at least one.
pub fn read_ids(alloc: Global, bytes: &[u8]) -> Result<Ids, ValueFault>
    ensures ids { IfOk result (Spells ids_bytes AreListed bytes.now) }
    ensures rising { IfOk result AreRisingIds }
    ensures refused { IfErr result (NeedsFor (IsNoValue ids_bytes AreListed bytes.now)) }
{
    let ids = match read_numbers(alloc, bytes) {
        Ok(ids) => ids,
        Err(fault) => return Err(fault),
    };
    if ids.as_slice().is_empty() || !are_rising_ids(ids.as_slice()) {
        return Err(ValueFault::NotSpelled);
    }
    Ok(ids)
}

/// The bytes of these ids.
pub fn ids_bytes(alloc: Global, ids: &[u64]) -> Result<Bytes, OutOfMemory>
    ensures bytes { IfOk result (λ bytes. bytes ≡ ids_bytes ids.now) }
{
    let mut out = Vec::with_capacity(alloc, room(ids))?;
    push_many(&mut out, ids)?;
    Ok(Items::from_vec(out))
}

/// How many bytes so many numbers take.
fn room(numbers: &[u64]) -> usize {
    numbers.len().saturating_mul(8)
}

/// The numbers that the bytes are.
fn read_numbers(alloc: Global, bytes: &[u8]) -> Result<Ids, ValueFault>
    ensures numbers { IfOk result (Spells ids_bytes (AllByRecursion IsNumber) bytes.now) }
    ensures refused { IfErr result (NeedsFor (IsNoValue ids_bytes (AllByRecursion IsNumber) bytes.now)) }
{
    let (numbers, rest): (Ids, &[u8]) = match front_many(alloc, bytes.len() as u64 / 8, bytes) {
        Ok(found) => found,
        Err(fault) => return Err(fault),
    };
    if !rest.is_empty() {
        return Err(ValueFault::NotSpelled);
    }
    Ok(numbers)
}

/// Whether these are ids, each above the one before it.
fn are_rising_ids(numbers: &[u64]) -> bool
    ensures rising { IsTrue result ↔ AreRisingIds numbers.now }
{
    let mut least = 1;
    for number in numbers {
        if *number < least || *number > MAX_ID {
            return false;
        }
        least = *number + 1;
    }
    true
}
