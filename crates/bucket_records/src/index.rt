//! The records of a bucket are found in its bytes.
ghost use Rattle.std.specs.Prelude.{◌≡◌, ◌⊎◌, ◌++◌, ◌+◌, ◌*◌, ◌%◌, ◌≤◌, ◌∷◌, [], ◌↔◌, IsTrue, List, ℕ, length, IfOk, IfErr, OnOk, OnErr};
ghost use Rattle.bucket_records.specs.Records.{IsBucket, IsNoBucket};
ghost use Rattle.bucket_records.specs.Places.{Lies};
ghost use Rattle.value_bytes.specs.Forms.{NeedsFor};

use crate::spelling::front_record;
use osm_base::OutOfMemory;
use std::alloc::Global;
use value_bytes::ValueFault;

/// A record in so many is marked.
pub const SPAN: usize = 16;

/// How many records the bytes of a bucket are, the last key, and the marks.
pub fn find(
    alloc: Global,
    bytes: &[u8],
    buckets: u64,
    bucket: u64,
) -> Result<(usize, u64, Vec<usize>), ValueFault>
    requires { 1 ≤ buckets }
    ensures found { IfOk result (λ (count, last, marks). (records : List (ℕ × List ℕ)) × IsBucket buckets bucket bytes.now records
        × Lies bytes.now records count last marks.items) }
    ensures refused { IfErr result (NeedsFor (IsNoBucket buckets bucket bytes.now)) }
{
    let mut marks = Vec::new(alloc);
    let mut count: usize = 0;
    let mut last: u64 = 0;
    let mut rest = bytes;
    let mut least: u128 = 0;
    while !rest.is_empty() {
        let Some((key, _, behind)) = front_record(rest) else {
            return Err(ValueFault::NotSpelled);
        };
        if !fits(key, least, buckets, bucket) {
            return Err(ValueFault::NotSpelled);
        }
        match mark(&mut marks, count, bytes.len() - rest.len()) {
            Ok(()) => {}
            Err(_) => return Err(ValueFault::OutOfMemory),
        }
        count += 1;
        last = key;
        least = key as u128 + 1;
        rest = behind;
    }
    Ok((count, last, marks))
}

/// Notes where the record of this number begins, if that is the next one to be marked. Where it fails, the marks are as they
/// were.
pub fn mark(marks: &mut Vec<usize>, place: usize, begin: usize) -> Result<(), OutOfMemory>
    ensures ok { OnOk result ((marks.new.items ≡ marks.old.items)
        ⊎ ((16 * (length marks.old.items + 1) ≡ place) × (marks.new.items ≡ marks.old.items ++ begin ∷ []))) }
    ensures err { OnErr result (marks.new.items ≡ marks.old.items) }
{
    if place % SPAN != 0 || place / SPAN != marks.len() + 1 {
        return Ok(());
    }
    marks.push(begin)?;
    Ok(())
}

// Whether the key is at least this, and one of the bucket's.
fn fits(key: u64, least: u128, buckets: u64, bucket: u64) -> bool
    requires { 1 ≤ buckets }
    ensures { IsTrue result ↔ ((least ≤ key) × (key % buckets ≡ bucket)) }
{
    least <= key as u128 && key % buckets == bucket
}
