//! Lists of values, and lists behind their number.
ghost use Rattle.std.specs.Prelude.{◌≡◌, ◌++◌, ℕ, List, OnOk, IfOk, IfErr};
ghost use Rattle.std.specs.List.{AllByRecursion};
ghost use Rattle.value_bytes.specs.Forms.{IsAtFront, IsFront, IsFrontless, NeedsFor, all_bytes, AreMany};
ghost use Rattle.value_bytes.specs.Lists.{list_bytes, IsList};
ghost use Rattle.value_bytes.specs.Numbers.{number_bytes, IsNumber};

use crate::numbers::{at_most, front_number, push_number};
use crate::{Spelled, ValueFault};
use osm_base::{Ids, Items, OutOfMemory};
use std::alloc::Global;

/// The values at the front, so many of them, and the bytes behind them.
pub fn front_many<'b, T: Spelled>(
    alloc: Global,
    count: u64,
    bytes: &'b [u8],
) -> Result<(Items<T>, &'b [u8]), ValueFault>
    ensures values { IfOk result (λ (values, rest). IsFront (all_bytes T.spell) (AreMany count T.is) bytes.now values rest.now) }
    ensures refused { IfErr result (NeedsFor (IsFrontless (all_bytes T.spell) (AreMany count T.is) bytes.now)) }
{
    // Each value has eight bytes at least.
    let mut values = Vec::with_capacity(alloc, at_most(count, bytes.len() / 8))?;
    let mut rest = bytes;
    for _ in 0..count {
        let (value, behind) = match T::front(alloc, rest) {
            Ok(found) => found,
            Err(fault) => return Err(fault),
        };
        values.push(value)?;
        rest = behind;
    }
    Ok((Items::from_vec(values), rest))
}

/// Puts the bytes of these values behind those that are there.
pub fn push_many<T: Spelled>(out: &mut Vec<u8>, values: &[T]) -> Result<(), OutOfMemory>
    ensures ok { OnOk result (out.new.items ≡ out.old.items ++ all_bytes T.spell values.now) }
    ensures is { OnOk result (AllByRecursion T.is values.now) }
{
    for value in values {
        value.push_to(out)?;
    }
    Ok(())
}

impl<T: Spelled> Spelled for Items<T> {
    ghost spell = { λ list. list_bytes T.spell list };

    ghost is = { λ list. IsList T.is list };

    fn front<'b>(alloc: Global, bytes: &'b [u8]) -> Result<(Self, &'b [u8]), ValueFault> {
        let Some((count, behind)) = front_number(bytes) else {
            return Err(ValueFault::NotSpelled);
        };
        let (values, rest) = match front_many(alloc, count, behind) {
            Ok(found) => found,
            Err(fault) => return Err(fault),
        };
        Ok((values, rest))
    }

    fn push_to(&self, out: &mut Vec<u8>) -> Result<(), OutOfMemory> {
        push_number(out, self.as_slice().len() as u64)?;
        push_many(out, self.as_slice())?;
        Ok(())
    }
}

/// The ids behind their number at the front of a value, whatever numbers they are.
pub fn ids_in_front(alloc: Global, value: &[u8]) -> Result<Ids, ValueFault>
    ensures ids { IfOk result (IsAtFront (list_bytes number_bytes) (IsList IsNumber) value.now) }
    ensures refused { IfErr result (NeedsFor (IsFrontless (list_bytes number_bytes) (IsList IsNumber) value.now)) }
{
    let (ids, _) = match Ids::front(alloc, value) {
        Ok(found) => found,
        Err(fault) => return Err(fault),
    };
    Ok(ids)
}
