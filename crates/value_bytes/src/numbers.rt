//! Numbers in bytes, the lowest byte first.
ghost use Rattle.std.specs.Prelude.{◌≡◌, ◌≤◌, [], ◌∷◌, ◌++◌, length, OnOk, IfSome, IsNone};
ghost use Rattle.value_bytes.specs.Forms.{IsFront, IsFrontless};
ghost use Rattle.value_bytes.specs.Numbers.{number_bytes, IsNumber, int_bytes, IsInt};

use crate::{Spelled, ValueFault};
use osm_base::OutOfMemory;
use std::alloc::Global;

impl Spelled for u64 {
    ghost spell = { number_bytes };

    ghost is = { IsNumber };

    fn front<'b>(_alloc: Global, bytes: &'b [u8]) -> Result<(Self, &'b [u8]), ValueFault> {
        match front_number(bytes) {
            Some((number, rest)) => Ok((number, rest)),
            None => Err(ValueFault::NotSpelled),
        }
    }

    fn push_to(&self, out: &mut Vec<u8>) -> Result<(), OutOfMemory> {
        push_number(out, *self)?;
        Ok(())
    }
}

/// The number at the front, and the bytes behind it. `None`: there are fewer than eight.
pub fn front_number(bytes: &[u8]) -> Option<(u64, &[u8])>
    ensures number { IfSome result (λ (number, rest). IsFront number_bytes IsNumber bytes.now number rest.now) }
    ensures none { IsNone result → IsFrontless number_bytes IsNumber bytes.now }
{
    if bytes.len() < 8 {
        return None;
    }
    let (front, rest) = bytes.split_at(8);
    Some((bytes_value(front), rest))
}

/// The signed number of eight bytes at the front, and the bytes behind it. `None`: there are fewer.
pub fn front_int(bytes: &[u8]) -> Option<(i64, &[u8])>
    ensures number { IfSome result (λ (number, rest). IsFront int_bytes IsInt bytes.now number rest.now) }
    ensures none { IsNone result → IsFrontless int_bytes IsInt bytes.now }
{
    match front_number(bytes) {
        Some((number, rest)) => Some((number.cast_signed(), rest)),
        None => None,
    }
}

/// Puts a number behind the bytes that are there.
pub fn push_number(out: &mut Vec<u8>, number: u64) -> Result<(), OutOfMemory>
    ensures ok { OnOk result (out.new.items ≡ out.old.items ++ number_bytes number) }
    ensures is { IsNumber number }
{
    let bytes = number.to_le_bytes();
    out.extend_from_slice(&bytes)?;
    Ok(())
}

/// Puts a signed number behind the bytes that are there.
pub fn push_int(out: &mut Vec<u8>, number: i64) -> Result<(), OutOfMemory>
    ensures ok { OnOk result (out.new.items ≡ out.old.items ++ int_bytes number) }
    ensures is { OnOk result (IsInt number) }
{
    push_number(out, number.cast_unsigned())?;
    Ok(())
}

/// The byte at the front, and the bytes behind it. `None`: there is none.
pub(crate) fn front_byte(bytes: &[u8]) -> Option<(u8, &[u8])>
    ensures byte { IfSome result (λ (byte, rest). bytes.now ≡ byte ∷ rest.now) }
    ensures none { IsNone result → bytes.now ≡ [] }
{
    match bytes.split_first() {
        Some((byte, rest)) => Some((*byte, rest)),
        None => None,
    }
}

/// A number, where it is no more than this length, and otherwise the length.
pub(crate) fn at_most(number: u64, most: usize) -> usize
    ensures most { result ≤ most }
{
    if number < most as u64 {
        number as usize
    } else {
        most
    }
}

/// The number of these eight bytes.
fn bytes_value(bytes: &[u8]) -> u64
    requires { length bytes.now ≡ 8 }
    ensures number { bytes.now ≡ number_bytes result }
{
    let mut own = [0; 8];
    own.copy_from_slice(bytes);
    u64::from_le_bytes(own)
}
