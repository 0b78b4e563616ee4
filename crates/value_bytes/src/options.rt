//! Values that may be absent.
ghost use Rattle.std.specs.Prelude.{◌≡◌, ◌++◌, OnOk, IfOk, IfErr};
ghost use Rattle.value_bytes.specs.Options.{option_bytes, IsOption};

use crate::numbers::front_byte;
use crate::spelled::push_form;
use crate::{Spelled, ValueFault};
use osm_base::OutOfMemory;
use std::alloc::Global;

impl<T: Spelled> Spelled for Option<T> {
    ghost spell = { option_bytes T.spell };

    ghost is = { IsOption T.is };

    fn front<'b>(alloc: Global, bytes: &'b [u8]) -> Result<(Self, &'b [u8]), ValueFault> {
        let Some((byte, behind)) = front_byte(bytes) else {
            return Err(ValueFault::NotSpelled);
        };
        match byte {
            0 => Ok((None, behind)),
            1 => match T::front(alloc, behind) {
                Ok((value, rest)) => Ok((Some(value), rest)),
                Err(fault) => Err(fault),
            },
            _ => Err(ValueFault::NotSpelled),
        }
    }

    fn push_to(&self, out: &mut Vec<u8>) -> Result<(), OutOfMemory> {
        match self {
            None => {
                out.push(0)?;
                Ok(())
            }
            Some(value) => {
                push_form(out, 1, value)?;
                Ok(())
            }
        }
    }
}
