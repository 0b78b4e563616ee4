//! Bytes behind their number.
ghost use Rattle.std.specs.Prelude.{◌≡◌, ◌++◌, OnOk, IfSome, IsNone};
ghost use Rattle.value_bytes.specs.Forms.{IsFront, IsFrontless};
ghost use Rattle.value_bytes.specs.Numbers.{counted_bytes, IsCounted};

use crate::numbers::{front_number, push_number};
use osm_base::OutOfMemory;

/// The bytes at the front that stand behind their number, and the bytes behind them. `None`: there are fewer.
pub fn front_counted(bytes: &[u8]) -> Option<(&[u8], &[u8])>
    ensures counted { IfSome result (λ (counted, rest). IsFront counted_bytes IsCounted bytes.now counted.now rest.now) }
    ensures none { IsNone result → IsFrontless counted_bytes IsCounted bytes.now }
{
    let Some((count, behind)) = front_number(bytes) else {
        return None;
    };
    if count > behind.len() as u64 {
        return None;
    }
    Some(behind.split_at(count as usize))
}

/// Puts bytes and their number behind the bytes that are there.
pub fn push_counted(out: &mut Vec<u8>, bytes: &[u8]) -> Result<(), OutOfMemory>
    ensures ok { OnOk result (out.new.items ≡ out.old.items ++ counted_bytes bytes.now) }
    ensures is { IsCounted bytes.now }
{
    push_number(out, bytes.len() as u64)?;
    out.extend_from_slice(bytes)?;
    Ok(())
}
