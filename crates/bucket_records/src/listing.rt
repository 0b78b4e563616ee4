//! The records of a bucket, one by one.
ghost use Rattle.std.specs.Prelude.{◌≡◌, ◌<◌, ◌≤◌, List, ℕ, take, IfOk};
ghost use Rattle.bucket_records.specs.Records.{AreRecords, records_bytes};

use crate::records::Records;
use osm_base::{Bytes, OutOfMemory};
use std::alloc::Global;
use value_bytes::ValueFault;

/// The records, with copies of their values.
pub fn copied_records(alloc: Global, records: &Records) -> Result<Vec<(u64, Bytes)>, OutOfMemory>
    ensures { IfOk result (λ copies. copies.items ≡ records.now) }
{
    let mut copies = Vec::with_capacity(alloc, records.len())?;
    let (mut place, mut rest) = records.at_mark(0);
    while place < records.len() {
        let (key, value, behind) = records.front(place, rest);
        let copy = Vec::from_slice(alloc, value)?;
        copies.push((key, Bytes::from_vec(copy)))?;
        rest = behind;
        place += 1;
    }
    Ok(copies)
}

/// The records that these bytes are.
pub fn known_records(alloc: Global, bytes: Vec<u8>) -> Result<Records, OutOfMemory>
    requires { (records : List (ℕ × List ℕ)) × AreRecords 0 records × (bytes.items ≡ records_bytes records) }
    ensures { IfOk result (λ found. (records : List (ℕ × List ℕ)) → AreRecords 0 records → bytes.items ≡ records_bytes records → found ≡ records) }
{
    match Records::read(alloc, bytes, 1, 0) {
        Ok(records) => Ok(records),
        Err(ValueFault::NotSpelled) => unreachable!(),
        Err(ValueFault::OutOfMemory) => Err(OutOfMemory),
    }
}
