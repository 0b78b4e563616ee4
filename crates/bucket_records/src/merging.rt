//! The bytes of records with changes made to them.
ghost use Rattle.std.specs.Prelude.{◌≡◌, ◌++◌, ◌+◌, ◌<◌, ◌≤◌, ◌∷◌, [], List, ℕ, length, drop, option_map, IfOk, OnOk};
ghost use Rattle.std.specs.FinMap as map;
ghost use Rattle.bucket_records.specs.Changes.{behind, below, changed, from, made, map_of};
ghost use Rattle.bucket_records.specs.Records.{AreRecords, records_bytes};

use crate::records::Records;
use crate::searching::place_of;
use crate::spelling::push_record;
use osm_base::OutOfMemory;
use std::alloc::Global;
use std::collections::BTreeMap;

/// The bytes of the records with these changes made to them.
pub fn merged_bytes(
    alloc: Global,
    records: &Records,
    changes: &BTreeMap<u64, Option<Vec<u8>>>,
) -> Result<Vec<u8>, OutOfMemory>
    ensures bytes { IfOk result (λ bytes. bytes.items ≡ records_bytes (map.entries (changed (map_of records.now) changes.now.entries))) }
    ensures rise { OnOk result (AreRecords 0 (map.entries (changed (map_of records.now) changes.now.entries))) }
{
    let _ordered = changes.len();
    let mut out = Vec::with_capacity(alloc, room(records, changes))?;
    let mut at = 0;
    for (key, change) in changes {
        at = put_change(&mut out, records, at, *key, change)?;
    }
    out.extend_from_slice(records.between(at, records.len()))?;
    Ok(out)
}

// For how many bytes it is worth to make room.
fn room(records: &Records, changes: &BTreeMap<u64, Option<Vec<u8>>>) -> usize {
    let mut all = records.between(0, records.len()).len();
    for (_, change) in changes {
        if let Some(value) = change {
            all = all.saturating_add(value.len()).saturating_add(16);
        }
    }
    all
}

// Puts the records from this number on that stand below the key, and what the change makes of it, and answers the
// number of the record behind.
fn put_change(
    out: &mut Vec<u8>,
    records: &Records,
    at: usize,
    key: u64,
    change: &Option<Vec<u8>>,
) -> Result<usize, OutOfMemory>
    requires { at ≤ length records.now }
    ensures bytes { OnOk result (out.new.items ≡ out.old.items ++ (records_bytes (below key (drop at records.now)) ++ records_bytes (made key change.now))) }
    ensures are { OnOk result (AreRecords key (made key change.now)) }
    ensures next { IfOk result (λ next. drop next records.now ≡ behind key (from key (drop at records.now))) }
    ensures within { IfOk result (λ next. next ≤ length records.now) }
{
    let place = place_of(records, key).max(at);
    out.extend_from_slice(records.between(at, place))?;
    put_made(out, key, change)?;
    Ok(number_behind(records, place, key))
}

// Puts the record that a change makes of a key.
fn put_made(out: &mut Vec<u8>, key: u64, change: &Option<Vec<u8>>) -> Result<(), OutOfMemory>
    ensures bytes { OnOk result (out.new.items ≡ out.old.items ++ records_bytes (made key change.now)) }
    ensures are { OnOk result (AreRecords key (made key change.now)) }
{
    match change {
        Some(value) => match push_record(out, key, value.as_slice()) {
            Ok(()) => Ok(()),
            Err(fault) => Err(fault),
        },
        None => Ok(()),
    }
}

// The number of the record behind the one with this key, where that has this number.
fn number_behind(records: &Records, place: usize, key: u64) -> usize
    requires { place ≤ length records.now }
    ensures next { drop result records.now ≡ behind key (drop place records.now) }
    ensures within { result ≤ length records.now }
{
    if place >= records.len() {
        return place;
    }
    let (own, _) = records.at(place);
    if own == key { place + 1 } else { place }
}
