//! The records of a bucket, as they lie in its bytes.
ghost use Rattle.std.specs.Prelude.{◌≡◌, ◌++◌, ◌+◌, ◌*◌, ◌-◌, ◌<◌, ◌≤◌, ◌∷◌, [], IsTrue, List, ℕ, length, take, drop, IfOk, IfErr, OnOk, OnErr};
ghost use Rattle.bucket_records.specs.Records.{records_bytes, AreRecords, IsBucket, IsNoBucket};
ghost use Rattle.bucket_records.specs.Places.{key_of, value_of};
ghost use Rattle.bucket_records.specs.Spelling.{StartsRecord};
ghost use Rattle.value_bytes.specs.Forms.{NeedsFor};

use crate::index::{SPAN, find, mark};
use crate::searching::rest_from;
use crate::spelling::{front_record, push_record};
use osm_base::OutOfMemory;
use std::alloc::Global;
use std::marker::Model;
use value_bytes::ValueFault;

/// Records by strictly rising keys, as they lie in bytes.
#[derive(Drop)]
pub struct Records {
    bytes: Vec<u8>,
    // How many there are.
    count: usize,
    // No key is above this one.
    last: u64,
    // Where each sixteenth of them begins, from the one behind the first sixteen on.
    marks: Vec<usize>,
}

impl Model for Records {
    ghost use Rattle.std.specs.Prelude.{ℕ, List};
    ghost use Rattle.std.specs.Coded.{coded_list, coded×, coded_ℕ};
    ghost use Rattle.bucket_records.specs.Places.{records_from, IsIndexed};

    ghost Value = { List (ℕ × List ℕ) };

    ghost coded = { coded_list (coded× coded_ℕ (coded_list coded_ℕ)) };

    ghost view = { λ records. records_from records.bytes.items 0 records.count };

    ghost invariant = { λ records. IsIndexed records.bytes.items records.count records.last records.marks.items };
}

impl Records {
    /// The records of one bucket of so many, whose bytes these are.
    pub(crate) fn read(
        alloc: Global,
        bytes: Vec<u8>,
        buckets: u64,
        bucket: u64,
    ) -> Result<Self, ValueFault>
        requires { 1 ≤ buckets }
        ensures records { IfOk result (λ records. IsBucket buckets bucket bytes.items records) }
        ensures refused { IfErr result (NeedsFor (IsNoBucket buckets bucket bytes.items)) }
    {
        match find(alloc, bytes.as_slice(), buckets, bucket) {
            Ok((count, last, marks)) => Ok(Self {
                bytes,
                count,
                last,
                marks,
            }),
            Err(fault) => Err(fault),
        }
    }

    /// How many records there are.
    pub fn len(&self) -> usize
        ensures len { result ≡ length self.now }
        ensures rise { AreRecords 0 self.now }
    {
        self.count
    }

    /// Whether the key is above all of them.
    pub(crate) fn are_below(&self, key: u64) -> bool
        ensures { IsTrue result → (k : ℕ) → k < length self.now → key_of self.now k < key }
    {
        if self.count == 0 {
            return true;
        }
        self.last < key
    }

    /// How many marks there are.
    pub(crate) fn marks(&self) -> usize
        ensures { 1 ≤ result → 1 ≤ length self.now }
    {
        self.marks.len()
    }

    /// How many marks would have keys below this one, if keys rose evenly. A guess, where a search begins.
    pub(crate) fn marks_below(&self, key: u64) -> usize {
        let place = match key.checked_mul(self.count as u64) {
            Some(scaled) => scaled.checked_div(self.last).unwrap_or(0),
            None => 0,
        };
        place as usize / SPAN
    }

    /// The number of the record at this mark, or at the last where there are fewer, and the bytes from it on. Before the first
    /// mark that is the first record.
    pub fn at_mark(&self, mark: usize) -> (usize, &[u8])
        ensures within { result.0 ≤ length self.now }
        ensures order { result.0 ≤ 16 * mark }
        ensures some { 1 ≤ length self.now → result.0 < length self.now }
        ensures rest { result.1.now ≡ records_bytes (drop result.0 self.now) }
    {
        let known = mark.min(self.marks.len());
        if known == 0 {
            return (0, self.bytes.as_slice());
        }
        let (_, rest) = self.bytes.as_slice().split_at(self.marks[known - 1]);
        (known * SPAN, rest)
    }

    /// The key and the value of the record of this number, and the bytes behind it, where these are the bytes from it on.
    pub fn front<'a>(&self, place: usize, rest: &'a [u8]) -> (u64, &'a [u8], &'a [u8])
        requires within { place < length self.now }
        requires rest { rest.now ≡ records_bytes (drop place self.now) }
        ensures key { result.0 ≡ key_of self.now place }
        ensures value { result.1.now ≡ value_of self.now place }
        ensures behind { result.2.now ≡ records_bytes (drop (place + 1) self.now) }
        ensures rise { AreRecords 0 self.now }
    {
        let _ordered = self.len();
        known_record(rest)
    }

    /// The key and the value of the record of this number.
    pub(crate) fn at(&self, place: usize) -> (u64, &[u8])
        requires { place < length self.now }
        ensures key { result.0 ≡ key_of self.now place }
        ensures value { result.1.now ≡ value_of self.now place }
    {
        let (key, value, _) = self.front(place, rest_from(self, place));
        (key, value)
    }

    /// The bytes of the records from this number to before that one.
    pub(crate) fn between(&self, from: usize, to: usize) -> &[u8]
        requires order { from ≤ to }
        requires within { to ≤ length self.now }
        ensures bytes { result.now ≡ records_bytes (take (to - from) (drop from self.now)) }
    {
        let begin = self.begin_of(from);
        let end = self.begin_of(to);
        let (front, _) = self.bytes.as_slice().split_at(end);
        let (_, part) = front.split_at(begin);
        part
    }

    // Where the record of this number begins, or the last one ends.
    fn begin_of(&self, place: usize) -> usize
        requires { place ≤ length self.now }
        ensures { result ≡ length (records_bytes (take place self.now)) }
    {
        if place < self.count {
            self.bytes.len() - rest_from(self, place).len()
        } else {
            self.bytes.len()
        }
    }

    /// Puts a record behind the others. Where it fails, they are as they were.
    pub(crate) fn push(&mut self, key: u64, value: &[u8]) -> Result<(), OutOfMemory>
        requires above { (k : ℕ) → k < length self.old → key_of self.old k < key }
        ensures ok { OnOk result (self.new ≡ self.old ++ (key, value.now) ∷ []) }
        ensures rise { OnOk result (AreRecords 0 self.new) }
        ensures err { OnErr result (self.new ≡ self.old) }
    {
        let end = self.bytes.len();
        if let Err(fault) = push_record(&mut self.bytes, key, value) {
            return Err(fault);
        }
        match mark(&mut self.marks, self.count, end) {
            Ok(()) => {
                self.count += 1;
                self.last = key;
                Ok(())
            }
            Err(fault) => {
                self.bytes.truncate(end);
                Err(fault)
            }
        }
    }

    /// Their bytes; takes no memory.
    pub(crate) fn into_bytes(self) -> Vec<u8>
        ensures bytes { result.items ≡ records_bytes self }
        ensures rise { AreRecords 0 self }
    {
        let Self {
            bytes,
            count: _,
            last: _,
            marks: _,
        } = self;
        bytes
    }

    /// The bytes of the first so many of them; takes no memory.
    pub(crate) fn into_front(self, count: usize) -> Vec<u8>
        requires { count ≤ length self }
        ensures { result.items ≡ records_bytes (take count self) }
    {
        let end = self.begin_of(count);
        let mut bytes = self.into_bytes();
        bytes.truncate(end);
        bytes
    }
}

// The key and the value of the record that stands at the front, and the bytes behind it.
fn known_record(bytes: &[u8]) -> (u64, &[u8], &[u8])
    requires { (key : ℕ) × (value : List ℕ) × (rest : List ℕ) × StartsRecord bytes.now key value rest }
    ensures key { (key : ℕ) (value rest : List ℕ) → StartsRecord bytes.now key value rest → result.0 ≡ key }
    ensures value { (key : ℕ) (value rest : List ℕ) → StartsRecord bytes.now key value rest → result.1.now ≡ value }
    ensures rest { (key : ℕ) (value rest : List ℕ) → StartsRecord bytes.now key value rest → result.2.now ≡ rest }
{
    match front_record(bytes) {
        Some((key, value, rest)) => (key, value, rest),
        None => unreachable!(),
    }
}
