//! The buckets of an open store are read and looked at.
ghost use Rattle.std.specs.Prelude.{◌≡◌, ◌↔◌, ◌%◌, ◌≤◌, ◌<◌, List, ℕ, None, Some, false, IfOk, IfSome, IsSome, IsTrue, OnOk, MatchOption};
ghost use Rattle.std.specs.FinMap as finite;
ghost use Rattle.chain_store.specs.Chains.{first_of};
ghost use Rattle.chain_store.specs.Directories.{IsString};
ghost use Rattle.bucket_store.specs.Buckets.{IsBucketChain, bucket_count};
ghost use Rattle.bucket_records.specs.Records.{BucketMap};

use super::Buckets;
use crate::reading::read_bucket;
use bucket_records::Records;
use osm_base::{Bytes, OutOfMemory};
use outside::Disk;
use page_journal::StoreFault;
use value_bytes::StoreMap;

impl<'d, D: Disk> Buckets<'d, D> {
    ghost use Rattle.bucket_store.specs.Calls.{BringsOnly, BringsThere, GetsBytes, GetsRecords, GetsText, Touches, TouchesChain};
    ghost use Rattle.bucket_store.specs.Image.{Has, Image, IsBucketOf};
    ghost use Rattle.bucket_store.specs.Transaction.{Content, IsReady, IsReadyAt, IsThere, bucket_at, cached_of, chains_of, has_refused};
    ghost use Rattle.value_bytes.specs.StoreMap.{map_number};

    /// Reads the bucket of a key, where the transaction has not done so: then its values can be looked at.
    pub fn bring(&mut self, map: StoreMap, key: u64) -> Result<(), StoreFault>
        requires ready { IsReady self.old }
        ensures brings { BringsThere (map_number map) key self.old self.new result }
        ensures touches { Touches (map_number map) key self.old self.new result }
    {
        let n = self.chain_of(map, key);
        self.bring_chain(n)
    }

    /// The value of a key whose bucket is there.
    pub fn value(&self, map: StoreMap, key: u64) -> Option<&[u8]>
        requires there { IsThere self.now (map_number map) key }
        ensures value { (pages : List (List ℕ)) (values : BucketMap) → Content pages self.now (bucket_at self.now (map_number map) key) values
            → MatchOption result (finite.get values key ≡ None) (λ value. finite.get values key ≡ Some value.now) }
        ensures found { (rest now : Image) → Has rest now self.now
            → MatchOption result (finite.get (now.maps (map_number map)) key ≡ None) (λ value. finite.get (now.maps (map_number map)) key ≡ Some value.now) }
    {
        self.cache.value(self.chain_of(map, key), key)
    }

    /// Whether the bucket of a key is known to have no values: the store has no page of it, and the transaction does not have it.
    /// Reads nothing.
    pub fn is_bare(&self, map: StoreMap, key: u64) -> bool
        requires ready { IsReady self.now }
        ensures exact { IsTrue result ↔ ((first_of (chains_of self.now) (bucket_at self.now (map_number map) key) ≡ 0)
            × (finite.get (cached_of self.now) (bucket_at self.now (map_number map) key) ≡ None)) }
        ensures none { IsTrue result → (pages : List (List ℕ)) (values : BucketMap) → Content pages self.now (bucket_at self.now (map_number map) key) values
            → values ≡ finite.empty }
        ensures found { IsTrue result → (rest now : Image) → Has rest now self.now → finite.get (now.maps (map_number map)) key ≡ None }
    {
        let n = self.chain_of(map, key);
        if self.chains.first_page(n) != 0 {
            return false;
        }
        !self.cache.has(n)
    }

    /// The value of a key in a map.
    pub fn get(&mut self, map: StoreMap, key: u64) -> Result<Option<Bytes>, StoreFault>
        requires ready { IsReady self.old }
        ensures bytes { GetsBytes (map_number map) key self.old self.new result }
        ensures touches { Touches (map_number map) key self.old self.new result }
    {
        if self.is_bare(map, key) {
            return Ok(None);
        }
        if let Err(fault) = self.bring(map, key) {
            return Err(fault);
        }
        match self.copied(map, key) {
            Ok(found) => Ok(found),
            Err(_) => {
                self.refused = true;
                Err(StoreFault::OutOfMemory)
            }
        }
    }

    // A copy of the value of a key whose bucket is there.
    fn copied(&self, map: StoreMap, key: u64) -> Result<Option<Bytes>, OutOfMemory>
        requires there { IsThere self.now (map_number map) key }
        ensures value { IfOk result (λ found. (pages : List (List ℕ)) (values : BucketMap)
            → Content pages self.now (bucket_at self.now (map_number map) key) values → found ≡ finite.get values key) }
        ensures found { IfOk result (λ found. (rest now : Image) → Has rest now self.now → found ≡ finite.get (now.maps (map_number map)) key) }
    {
        match self.value(map, key) {
            Some(value) => {
                let copy = Vec::from_slice(self.alloc, value)?;
                Ok(Some(Bytes::from_vec(copy)))
            }
            None => Ok(None),
        }
    }

    /// The records of the bucket of a key, by rising key. The buckets of 0, 1 and so on are all of the map.
    pub fn records(&mut self, map: StoreMap, key: u64) -> Result<Vec<(u64, Bytes)>, StoreFault>
        requires ready { IsReady self.old }
        ensures records { GetsRecords (map_number map) key self.old self.new result }
        ensures touches { Touches (map_number map) key self.old self.new result }
    {
        if self.is_bare(map, key) {
            return Ok(Vec::new(self.alloc));
        }
        if let Err(fault) = self.bring(map, key) {
            return Err(fault);
        }
        match self.listed(map, key) {
            Ok(records) => Ok(records),
            Err(_) => {
                self.refused = true;
                Err(StoreFault::OutOfMemory)
            }
        }
    }

    // The records of a bucket that is there.
    fn listed(&self, map: StoreMap, key: u64) -> Result<Vec<(u64, Bytes)>, OutOfMemory>
        requires there { IsThere self.now (map_number map) key }
        ensures records { IfOk result (λ records. (pages : List (List ℕ)) (values : BucketMap)
            → Content pages self.now (bucket_at self.now (map_number map) key) values → records.items ≡ finite.entries values) }
        ensures found { IfOk result (λ records. (rest now : Image) → Has rest now self.now → IsBucketOf now (map_number map) (key % now.root.buckets) records.items) }
    {
        self.cache.records(self.chain_of(map, key))
    }

    /// The records of the bucket of a key, which is there, by rising key: nothing is copied. `None`: the transaction has changed
    /// them, but for putting others behind them; then `records` tells them.
    pub fn lent(&self, map: StoreMap, key: u64) -> Option<&Records>
        requires there { IsThere self.now (map_number map) key }
        ensures records { IfSome result (λ records. (pages : List (List ℕ)) (values : BucketMap)
            → Content pages self.now (bucket_at self.now (map_number map) key) values → records.now ≡ finite.entries values) }
        ensures found { IfSome result (λ records. (rest now : Image) → Has rest now self.now → IsBucketOf now (map_number map) (key % now.root.buckets) records.now) }
    {
        self.cache.lent(self.chain_of(map, key))
    }

    /// The bytes of a string, as the transaction has them.
    pub fn load(&mut self, n: u32) -> Result<Bytes, StoreFault>
        requires string { n < 8 }
        requires going { has_refused self.old ≡ false }
        ensures text { GetsText n self.old self.new result }
        ensures touches { TouchesChain n self.old self.new result }
    {
        self.refused = true;
        match self.chains.load(n) {
            Ok(bytes) => {
                self.refused = false;
                Ok(bytes)
            }
            Err(fault) => Err(fault),
        }
    }

    // Reads the bucket of a chain, where that was not done yet.
    pub(super) fn bring_chain(&mut self, n: u32) -> Result<(), StoreFault>
        requires ready { IsReadyAt n self.old }
        ensures only { BringsOnly n self.old self.new result }
    {
        if self.cache.has(n) {
            return Ok(());
        }
        self.refused = true;
        let bucket = match read_bucket(self.alloc, &mut self.chains, n) {
            Ok(bucket) => bucket,
            Err(fault) => return Err(fault),
        };
        match self.cache.add(n, bucket) {
            Ok(()) => {
                self.refused = false;
                Ok(())
            }
            Err(_) => Err(StoreFault::OutOfMemory),
        }
    }
}
