//! One record in bytes.
ghost use Rattle.std.specs.Prelude.{◌≡◌, ◌++◌, ◌+◌, ◌^◌, ◌<◌, ◌≤◌, ◌∷◌, [], List, ℕ, length, IfSome, IsNone, OnOk, OnErr};
ghost use Rattle.bucket_records.specs.Records.{record_bytes, IsRecord};
ghost use Rattle.bucket_records.specs.Spelling.{BeginsRecord, IsRecordless};
ghost use Rattle.value_bytes.specs.Numbers.{number_bytes};

use osm_base::OutOfMemory;
use value_bytes::{front_counted, front_number};

/// The key and the value of the record at the front, and the bytes behind it. `None`: no record stands there.
pub fn front_record(bytes: &[u8]) -> Option<(u64, &[u8], &[u8])>
    ensures found { IfSome result (λ (key, value, rest). BeginsRecord bytes.now key value.now rest.now) }
    ensures none { IsNone result → IsRecordless bytes.now }
{
    let Some((key, behind)) = front_number(bytes) else {
        return None;
    };
    match front_counted(behind) {
        Some((value, rest)) => Some((key, value, rest)),
        None => None,
    }
}

/// Puts a record behind the bytes that are there. Where it fails, they are as they were.
pub fn push_record(out: &mut Vec<u8>, key: u64, value: &[u8]) -> Result<(), OutOfMemory>
    ensures ok { OnOk result (out.new.items ≡ out.old.items ++ record_bytes key value.now) }
    ensures err { OnErr result (out.new.items ≡ out.old.items) }
    ensures is { IsRecord (key, value.now) }
{
    let head = head_of(key, value.len() as u64);
    let end = out.len();
    out.reserve(value.len())?;
    out.extend_from_slice(&head)?;
    match out.extend_from_slice(value) {
        Ok(()) => Ok(()),
        Err(_) => {
            out.truncate(end);
            Err(OutOfMemory)
        }
    }
}

// The key and the length of a record.
fn head_of(key: u64, count: u64) -> [u8; 16]
    ensures { result ≡ number_bytes key ++ number_bytes count }
{
    let mut head = [0; 16];
    let (front, back) = head.split_at_mut(8);
    front.copy_from_slice(&key.to_le_bytes());
    back.copy_from_slice(&count.to_le_bytes());
    head
}
