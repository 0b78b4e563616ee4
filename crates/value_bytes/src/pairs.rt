//! One value and then another.
ghost use Rattle.std.specs.Prelude.{◌≡◌, ◌++◌, OnOk};
ghost use Rattle.value_bytes.specs.Forms.{both_bytes, Both};

use crate::{Spelled, ValueFault};
use osm_base::OutOfMemory;
use std::alloc::Global;

impl<A: Spelled, B: Spelled> Spelled for (A, B) {
    ghost spell = { both_bytes A.spell B.spell };

    ghost is = { Both A.is B.is };

    fn front<'b>(alloc: Global, bytes: &'b [u8]) -> Result<(Self, &'b [u8]), ValueFault> {
        let (one, behind) = match A::front(alloc, bytes) {
            Ok(found) => found,
            Err(fault) => return Err(fault),
        };
        let (two, rest) = match B::front(alloc, behind) {
            Ok(found) => found,
            Err(fault) => return Err(fault),
        };
        Ok(((one, two), rest))
    }

    fn push_to(&self, out: &mut Vec<u8>) -> Result<(), OutOfMemory> {
        push_both(out, &self.0, &self.1)?;
        Ok(())
    }
}

/// Puts the bytes of a value, and those of another, behind those that are there.
pub fn push_both<A: Spelled, B: Spelled>(
    out: &mut Vec<u8>,
    one: &A,
    two: &B,
) -> Result<(), OutOfMemory>
    ensures ok { OnOk result (out.new.items ≡ out.old.items ++ (A.spell one.now ++ B.spell two.now)) }
    ensures one { OnOk result (A.is one.now) }
    ensures two { OnOk result (B.is two.now) }
{
    one.push_to(out)?;
    two.push_to(out)?;
    Ok(())
}
