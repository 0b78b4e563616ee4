//! Values that have a spelling in bytes.
ghost use Rattle.std.specs.Prelude.{◌≡◌, [], ◌∷◌, ◌++◌, ℕ, List, OnOk, IfOk, IfErr};
ghost use Rattle.value_bytes.specs.Forms.{IsFront, IsFrontless, NeedsFor};

use crate::ValueFault;
use osm_base::OutOfMemory;
use std::alloc::Global;

/// A value that stands in bytes.
pub trait Spelled: Sized + Drop {
    /// Its bytes.
    ghost spell: { Self → List ℕ };

    /// It has a spelling.
    ghost is: { Self → Type 0 };

    /// The value at the front, and the bytes behind it.
    fn front<'b>(alloc: Global, bytes: &'b [u8]) -> Result<(Self, &'b [u8]), ValueFault>
        ensures value { IfOk result (λ (value, rest). IsFront spell is bytes.now value rest.now) }
        ensures refused { IfErr result (NeedsFor (IsFrontless spell is bytes.now)) };

    /// Puts its bytes behind those that are there; where memory runs out, maybe only the first of them.
    fn push_to(&self, out: &mut Vec<u8>) -> Result<(), OutOfMemory>
        ensures ok { OnOk result (out.new.items ≡ out.old.items ++ spell self.now) }
        ensures is { OnOk result (is self.now) };
}

/// Puts the byte of a form, and the bytes of the value in it, behind those that are there.
pub(crate) fn push_form<T: Spelled>(
    out: &mut Vec<u8>,
    form: u8,
    value: &T,
) -> Result<(), OutOfMemory>
    ensures ok { OnOk result (out.new.items ≡ (out.old.items ++ form ∷ []) ++ T.spell value.now) }
    ensures is { OnOk result (T.is value.now) }
{
    out.push(form)?;
    value.push_to(out)?;
    Ok(())
}
