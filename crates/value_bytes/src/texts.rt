//! Texts behind the number of their bytes.
ghost use Rattle.std.specs.Prelude.{◌≡◌, ◌++◌, OnOk, IfSome, IsNone};
ghost use Rattle.std.specs.Str.{chars};
ghost use Rattle.value_bytes.specs.Forms.{IsFront, IsFrontless};
ghost use Rattle.value_bytes.specs.Texts.{text_bytes, IsText};

use crate::counted::{front_counted, push_counted};
use osm_base::OutOfMemory;

/// The text at the front, and the bytes behind it. `None`: none stands there.
pub fn front_text(bytes: &[u8]) -> Option<(&str, &[u8])>
    ensures text { IfSome result (λ (text, rest). IsFront text_bytes IsText bytes.now (chars text.now) rest.now) }
    ensures none { IsNone result → IsFrontless text_bytes IsText bytes.now }
{
    let Some((text, rest)) = front_counted(bytes) else {
        return None;
    };
    match str::from_utf8(text) {
        Ok(text) => Some((text, rest)),
        Err(_) => None,
    }
}

/// Puts a text behind the bytes that are there.
pub fn push_text(out: &mut Vec<u8>, text: &str) -> Result<(), OutOfMemory>
    ensures ok { OnOk result (out.new.items ≡ out.old.items ++ text_bytes (chars text.now)) }
    ensures is { OnOk result (IsText (chars text.now)) }
{
    push_counted(out, text.as_bytes())?;
    Ok(())
}
