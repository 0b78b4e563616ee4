//! Whole values: bytes that are one value's and nothing else.
ghost use Rattle.std.specs.Prelude.{◌≡◌, IfOk, IfErr, OnOk};
ghost use Rattle.value_bytes.specs.Forms.{Spells, IsNoValue, NeedsFor};

use crate::{Spelled, ValueFault};
use osm_base::{Bytes, Items, OutOfMemory};
use std::alloc::Global;

// Most values are of no more bytes than this: they take memory once.
const ROOM: usize = 64;

/// The value with these bytes.
pub fn read_whole<T: Spelled>(alloc: Global, bytes: &[u8]) -> Result<T, ValueFault>
    ensures value { IfOk result (Spells T.spell T.is bytes.now) }
    ensures refused { IfErr result (NeedsFor (IsNoValue T.spell T.is bytes.now)) }
{
    let (value, rest) = match T::front(alloc, bytes) {
        Ok(found) => found,
        Err(fault) => return Err(fault),
    };
    if !rest.is_empty() {
        return Err(ValueFault::NotSpelled);
    }
    Ok(value)
}

/// The bytes of a value.
pub fn bytes_of<T: Spelled>(alloc: Global, value: &T) -> Result<Bytes, OutOfMemory>
    ensures bytes { IfOk result (λ bytes. bytes ≡ T.spell value.now) }
    ensures is { OnOk result (T.is value.now) }
{
    let mut out = Vec::with_capacity(alloc, ROOM)?;
    value.push_to(&mut out)?;
    Ok(Items::from_vec(out))
}
