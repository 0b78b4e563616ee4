//! Buckets by the numbers of their chains, as a transaction has them.
ghost use Rattle.std.specs.Prelude.{◌≡◌, ◌↔◌, ℕ, Some, None, true, false, IfSome, IsNone, IsSome, IsTrue, MatchOption, is_some, IfOk, OnOk, OnErr};
ghost use Rattle.std.specs.FinMap as map;
ghost use Rattle.bucket_store.specs.Cache.{Becomes, changed_to};

use crate::places::Places;
use crate::slots::{Slot, own_of, push, slot_of, take_last, take_next};
use bucket_records::{Bucket, Records};
use osm_base::{Bytes, OutOfMemory};
use std::alloc::Global;
use std::marker::Model;

/// A bucket, and whether the transaction has changed it.
#[derive(Drop)]
pub struct Cached {
    pub bucket: Bucket,
    pub changed: bool,
}

impl Cached {
    /// Sets the value of a key.
    pub fn put(&mut self, key: u64, value: &[u8]) -> Result<(), OutOfMemory>
        ensures put { Becomes self.old self.new (changed_to self.old (map.insert self.old.bucket.values key value.now)) result }
    {
        match self.bucket.put(key, value) {
            Ok(()) => {
                self.changed = true;
                Ok(())
            }
            Err(fault) => Err(fault),
        }
    }

    /// Takes a key out, and answers whether it was there.
    pub fn remove(&mut self, key: u64) -> Result<bool, OutOfMemory>
        ensures was { IfOk result (λ was. was ≡ map.contains_key self.old.bucket.values key) }
        ensures taken { IfOk result (λ was. IsTrue was → self.new ≡ changed_to self.old (map.remove self.old.bucket.values key)) }
        ensures none { IfOk result (λ was. was ≡ false → self.new ≡ self.old) }
        ensures err { OnErr result (self.new ≡ self.old) }
    {
        if self.bucket.get(key).is_none() {
            return Ok(false);
        }
        match self.bucket.remove(key) {
            Ok(was) => {
                self.changed = true;
                Ok(was)
            }
            Err(fault) => Err(fault),
        }
    }
}

/// Buckets by the numbers of their chains: a table tells where each of them is.
#[derive(Drop)]
pub struct Cache {
    places: Places,
    slots: Vec<Slot>,
    // From which number on they are taken out.
    next: u32,
}

impl Model for Cache {
    ghost use Rattle.std.specs.Coded.{coded_ℕ};
    ghost use Rattle.std.specs.FinMap as map;
    ghost use Rattle.bucket_store.specs.Cache.{CacheMap};
    ghost use Rattle.bucket_store.specs.Slots.{ArePlaced, map_of};
    ghost use Rattle.bucket_store.specs.contracts.cache.Cached as cached;

    ghost Value = { CacheMap };

    ghost coded = { map.code coded_ℕ cached.the_row.coded };

    ghost view = { λ cache. map_of cache.slots.items };

    ghost invariant = { λ cache. ArePlaced cache.places cache.slots.items };
}

impl Cache {
    /// No buckets.
    pub fn new(alloc: Global) -> Self
        ensures empty { result ≡ map.empty }
    {
        Self {
            places: Places::new(alloc),
            slots: Vec::new(alloc),
            next: 0,
        }
    }

    /// Whether the bucket of this number is there.
    pub fn has(&self, n: u32) -> bool
        ensures { IsTrue result ↔ IsSome (map.get self.now n) }
    {
        own_of(&self.places, self.slots.as_slice(), n).is_some()
    }

    /// The value of a key in a bucket that is there.
    pub fn value(&self, n: u32, key: u64) -> Option<&[u8]>
        requires { IsSome (map.get self.now n) }
        ensures value { (own : Cached) → map.get self.now n ≡ Some own
            → MatchOption result (map.get own.bucket.values key ≡ None) (λ value. map.get own.bucket.values key ≡ Some value.now) }
    {
        let Some(own) = own_of(&self.places, self.slots.as_slice(), n) else {
            unreachable!()
        };
        own.bucket.get(key)
    }

    /// The records of a bucket that is there, by rising key.
    pub fn records(&self, n: u32) -> Result<Vec<(u64, Bytes)>, OutOfMemory>
        requires { IsSome (map.get self.now n) }
        ensures records { IfOk result (λ records. (own : Cached) → map.get self.now n ≡ Some own → records.items ≡ map.entries own.bucket.values) }
    {
        let Some(own) = own_of(&self.places, self.slots.as_slice(), n) else {
            unreachable!()
        };
        own.bucket.records()
    }

    /// The records of a bucket that is there, by rising key, where none of them was changed but by putting others behind them.
    pub fn lent(&self, n: u32) -> Option<&Records>
        requires { IsSome (map.get self.now n) }
        ensures records { IfSome result (λ records. (own : Cached) → map.get self.now n ≡ Some own → records.now ≡ map.entries own.bucket.values) }
    {
        let Some(own) = own_of(&self.places, self.slots.as_slice(), n) else {
            unreachable!()
        };
        own.bucket.lent()
    }

    /// Puts a bucket beside the others. Where it fails, they are as they were.
    pub fn add(&mut self, n: u32, bucket: Bucket) -> Result<(), OutOfMemory>
        ensures added { Becomes self.old self.new (map.insert self.old n (record { bucket = bucket; changed = false })) result }
    {
        let own = Cached {
            bucket,
            changed: false,
        };
        match slot_of(&self.places, self.slots.as_slice(), n) {
            Some(k) => {
                self.slots[k].own = Some(own);
                Ok(())
            }
            None => push(&mut self.places, &mut self.slots, n, own),
        }
    }

    /// Sets the value of a key in a bucket, and answers whether the bucket is there. Where it is not, or it fails, all is as it was.
    pub fn put(&mut self, n: u32, key: u64, value: &[u8]) -> Result<bool, OutOfMemory>
        ensures there { IfOk result (λ there. there ≡ is_some (map.get self.old n)) }
        ensures ok { OnOk result ((own : Cached) → map.get self.old n ≡ Some own
            → self.new ≡ map.insert self.old n (changed_to own (map.insert own.bucket.values key value.now))) }
        ensures none { IfOk result (λ there. there ≡ false → self.new ≡ self.old) }
        ensures err { OnErr result (self.new ≡ self.old) }
    {
        match slot_of(&self.places, self.slots.as_slice(), n) {
            Some(k) => self.slots[k].put(key, value),
            None => Ok(false),
        }
    }

    /// Takes a key out of a bucket that is there, and answers whether it was in it. Where it fails, it is as it was.
    pub fn remove(&mut self, n: u32, key: u64) -> Result<bool, OutOfMemory>
        requires { IsSome (map.get self.old n) }
        ensures was { IfOk result (λ was. (own : Cached) → map.get self.old n ≡ Some own → was ≡ map.contains_key own.bucket.values key) }
        ensures taken { IfOk result (λ was. (own : Cached) → map.get self.old n ≡ Some own → IsTrue was
            → self.new ≡ map.insert self.old n (changed_to own (map.remove own.bucket.values key))) }
        ensures none { IfOk result (λ was. was ≡ false → self.new ≡ self.old) }
        ensures err { OnErr result (self.new ≡ self.old) }
    {
        let Some(k) = slot_of(&self.places, self.slots.as_slice(), n) else {
            unreachable!()
        };
        self.slots[k].remove(key)
    }

    /// Takes out a bucket, if there is one: by rising number, as long as none is added.
    pub fn pop(&mut self) -> Option<(u32, Cached)>
        ensures there { IfSome result (λ (n, own). map.get self.old n ≡ Some own) }
        ensures rest { IfSome result (λ (n, own). self.new ≡ map.remove self.old n) }
        ensures none { IsNone result → self.old ≡ map.empty }
    {
        match take_next(&self.places, &mut self.slots, &mut self.next) {
            Some(first) => Some(first),
            None => take_last(&mut self.slots, &self.places),
        }
    }
}
