//! A bucket: its records and what a transaction changes in them.
ghost use Rattle.std.specs.Prelude.{◌≡◌, ◌++◌, ◌+◌, ◌%◌, ◌<◌, ◌≤◌, ◌∷◌, [], List, ℕ, Option, Some, None, length, take, drop, IfOk, IfErr, IfSome, OnOk, OnErr, MatchOption, IsTrue};
ghost use Rattle.std.specs.FinMap as map;
ghost use Rattle.bucket_records.specs.Records.{IsBucket, IsNoBucket, AreRecords, records_bytes};
ghost use Rattle.bucket_records.specs.Changes.{map_of};
ghost use Rattle.bucket_records.specs.Held.{with_values};
ghost use Rattle.bucket_records.specs.Places.{key_of};
ghost use Rattle.value_bytes.specs.Forms.{NeedsFor};

use crate::listing::{copied_records, known_records};
use crate::merging::merged_bytes;
use crate::records::Records;
use crate::searching::seek;
use osm_base::{Bytes, OutOfMemory};
use std::alloc::Global;
use std::collections::BTreeMap;
use std::marker::Model;
use value_bytes::ValueFault;

/// A finite map from keys to values: records in bytes, and what was changed since they were read. It knows the bytes
/// that it was read from.
#[derive(Drop)]
pub struct Bucket {
    alloc: Global,
    records: Records,
    // How many of the records were read: the others were put behind them.
    read: usize,
    // The new values of keys that stand in the records or below their last, and none where a key is removed.
    changes: BTreeMap<u64, Option<Vec<u8>>>,
}

impl Model for Bucket {
    ghost use Rattle.std.specs.Prelude.{◌≤◌, length};
    ghost use Rattle.bucket_records.specs.Records.{AreRecords};
    ghost use Rattle.bucket_records.specs.Held.{HeldBucket, held, held_code};

    ghost Value = { HeldBucket };

    ghost coded = { held_code };

    ghost view = { λ bucket. held bucket.records bucket.read bucket.changes.entries };

    ghost invariant = { λ bucket. AreRecords 0 bucket.records × (bucket.read ≤ length bucket.records) };
}

impl Bucket {
    /// The map that these bytes of one bucket of so many are.
    pub fn read(
        alloc: Global,
        bytes: Vec<u8>,
        buckets: u64,
        bucket: u64,
    ) -> Result<Self, ValueFault>
        requires { 1 ≤ buckets }
        ensures map { IfOk result (λ held. IsBucket buckets bucket bytes.items (map.entries held.values)) }
        ensures origin { IfOk result (λ held. held.origin ≡ bytes.items) }
        ensures refused { IfErr result (NeedsFor (IsNoBucket buckets bucket bytes.items)) }
    {
        match Records::read(alloc, bytes, buckets, bucket) {
            Ok(records) => Ok(Self {
                alloc,
                read: records.len(),
                records,
                changes: BTreeMap::new(alloc),
            }),
            Err(fault) => Err(fault),
        }
    }

    /// The value of a key.
    pub fn get(&self, key: u64) -> Option<&[u8]>
        ensures { MatchOption result (map.get self.now.values key ≡ None) (λ value. map.get self.now.values key ≡ Some value.now) }
    {
        match self.changes.get(&key) {
            Some(Some(value)) => Some(value.as_slice()),
            Some(None) => None,
            None => recorded(&self.records, key),
        }
    }

    /// Sets the value of a key. Where it fails, the map is as it was.
    pub fn put(&mut self, key: u64, value: &[u8]) -> Result<(), OutOfMemory>
        ensures ok { OnOk result (self.new ≡ with_values self.old (map.insert self.old.values key value.now)) }
        ensures err { OnErr result (self.new ≡ self.old) }
    {
        if self.changes.is_empty() && self.records.are_below(key) {
            self.records.push(key, value)?;
            return Ok(());
        }
        let own = Vec::from_slice(self.alloc, value)?;
        self.changes.insert(key, Some(own))?;
        Ok(())
    }

    /// Takes a key out, and answers whether it was there. Where it fails, the map is as it was.
    pub fn remove(&mut self, key: u64) -> Result<bool, OutOfMemory>
        ensures ok { OnOk result (self.new ≡ with_values self.old (map.remove self.old.values key)) }
        ensures was { IfOk result (λ was. was ≡ map.contains_key self.old.values key) }
        ensures err { OnErr result (self.new ≡ self.old) }
    {
        if self.get(key).is_none() {
            return Ok(false);
        }
        self.changes.insert(key, None)?;
        Ok(true)
    }

    /// The keys with their values, by rising key.
    pub fn records(&self) -> Result<Vec<(u64, Bytes)>, OutOfMemory>
        ensures { IfOk result (λ records. records.items ≡ map.entries self.now.values) }
    {
        if self.changes.is_empty() {
            return copied_records(self.alloc, &self.records);
        }
        let bytes = merged_bytes(self.alloc, &self.records, &self.changes)?;
        let merged = known_records(self.alloc, bytes)?;
        copied_records(self.alloc, &merged)
    }

    /// The records, where nothing was changed since they were read but by putting others behind them: nothing is copied.
    /// `None`: there were other changes.
    pub fn lent(&self) -> Option<&Records>
        ensures records { IfSome result (λ records. records.now ≡ map.entries self.now.values) }
    {
        if self.changes.is_empty() {
            Some(&self.records)
        } else {
            None
        }
    }

    /// The bytes that it was read from, and those of the map.
    pub fn into_bytes(self) -> Result<(Vec<u8>, Vec<u8>), OutOfMemory>
        ensures origin { IfOk result (λ (origin, bytes). origin.items ≡ self.origin) }
        ensures bytes { IfOk result (λ (origin, bytes). bytes.items ≡ records_bytes (map.entries self.values)) }
        ensures rise { OnOk result (AreRecords 0 (map.entries self.values)) }
    {
        let Self {
            alloc,
            records,
            read,
            changes,
        } = self;
        if changes.is_empty() {
            let origin = Vec::from_slice(alloc, records.between(0, read))?;
            return Ok((origin, records.into_bytes()));
        }
        let bytes = merged_bytes(alloc, &records, &changes)?;
        Ok((records.into_front(read), bytes))
    }
}

// The value that the records have for a key.
fn recorded<'a>(records: &'a Records, key: u64) -> Option<&'a [u8]>
    ensures { MatchOption result (map.get (map_of records.now) key ≡ None) (λ value. map.get (map_of records.now) key ≡ Some value.now) }
{
    let count = records.len();
    if records.are_below(key) {
        return None;
    }
    let (place, rest) = seek(records, key);
    if place >= count {
        return None;
    }
    let (own, value, _) = records.front(place, rest);
    if own == key { Some(value) } else { None }
}
