//! The buckets of an open store are changed in memory.
ghost use Rattle.std.specs.Prelude.{◌≡◌, ◌≢◌, ◌≤◌, ◌<◌, List, ℕ, None, Some, false, IfOk, IsSome, IsTrue, OnOk};
ghost use Rattle.std.specs.FinMap as finite;
ghost use Rattle.std.specs.Int.{is_power_of_two};
ghost use Rattle.chain_store.specs.Chains.{root_of};
ghost use Rattle.chain_store.specs.declared.root.Root.{Root};
ghost use Rattle.bucket_store.specs.Buckets.{bucket_count};
ghost use Rattle.bucket_records.specs.Records.{BucketMap};

use super::Buckets;
use chain_store::Root;
use osm_base::{Bytes, OutOfMemory};
use outside::Disk;
use page_journal::StoreFault;
use value_bytes::StoreMap;

impl<'d, D: Disk> Buckets<'d, D> {
    ghost use Rattle.bucket_store.specs.Calls.{ChangesMemory, SetsFields, SetsText, SetsValue, TakesValue, Touches, TouchesText};
    ghost use Rattle.bucket_store.specs.Image.{Has, Image, with_buckets, with_root, with_value};
    ghost use Rattle.bucket_store.specs.Transaction.{Content, IsOpenStore, IsReady, IsThere, bucket_at, chains_of, has_refused};
    ghost use Rattle.value_bytes.specs.StoreMap.{map_number};

    /// Sets the value of a key in a map.
    pub fn put(&mut self, map: StoreMap, key: u64, value: &[u8]) -> Result<(), StoreFault>
        requires ready { IsReady self.old }
        ensures value { SetsValue (map_number map) key value.now self.old self.new result }
        ensures touches { Touches (map_number map) key self.old self.new result }
    {
        let chain = self.chain_of(map, key);
        match self.cache.put(chain, key, value) {
            Ok(there) => {
                if there {
                    return Ok(());
                }
                self.bring_and_set(map, key, value)
            }
            Err(_) => {
                self.refused = true;
                Err(StoreFault::OutOfMemory)
            }
        }
    }

    // Sets the value of a key, and reads its bucket first where that is not there.
    fn bring_and_set(&mut self, map: StoreMap, key: u64, value: &[u8]) -> Result<(), StoreFault>
        requires ready { IsReady self.old }
        ensures value { SetsValue (map_number map) key value.now self.old self.new result }
        ensures touches { Touches (map_number map) key self.old self.new result }
    {
        if let Err(fault) = self.bring(map, key) {
            return Err(fault);
        }
        match self.set(map, key, value) {
            Ok(()) => Ok(()),
            Err(_) => Err(StoreFault::OutOfMemory),
        }
    }

    // Sets the value of a key whose bucket is there.
    fn set(&mut self, map: StoreMap, key: u64, value: &[u8]) -> Result<(), OutOfMemory>
        requires there { IsThere self.old (map_number map) key }
        requires going { has_refused self.old ≡ false }
        ensures put { OnOk result ((pages : List (List ℕ)) → IsOpenStore pages self.old → (values : BucketMap)
            → Content pages self.old (bucket_at self.old (map_number map) key) values
            → Content pages self.new (bucket_at self.old (map_number map) key) (finite.insert values key value.now)) }
        ensures others { OnOk result ((pages : List (List ℕ)) → IsOpenStore pages self.old → (other : ℕ) (values : BucketMap)
            → other ≢ bucket_at self.old (map_number map) key → Content pages self.old other values → Content pages self.new other values) }
        ensures has { OnOk result ((rest now : Image) → Has rest now self.old → Has rest (with_value (map_number map) key (Some value.now) now) self.new) }
        ensures memory { ChangesMemory self.old self.new result }
    {
        let n = self.chain_of(map, key);
        match self.cache.put(n, key, value) {
            Ok(_) => Ok(()),
            Err(fault) => {
                self.refused = true;
                Err(fault)
            }
        }
    }

    /// Takes a key out of a map, and answers whether it was there.
    pub fn remove(&mut self, map: StoreMap, key: u64) -> Result<bool, StoreFault>
        requires ready { IsReady self.old }
        ensures value { TakesValue (map_number map) key self.old self.new result }
        ensures touches { Touches (map_number map) key self.old self.new result }
    {
        if let Err(fault) = self.bring(map, key) {
            return Err(fault);
        }
        match self.unset(map, key) {
            Ok(was) => Ok(was),
            Err(_) => Err(StoreFault::OutOfMemory),
        }
    }

    // Takes out a key whose bucket is there.
    fn unset(&mut self, map: StoreMap, key: u64) -> Result<bool, OutOfMemory>
        requires there { IsThere self.old (map_number map) key }
        requires going { has_refused self.old ≡ false }
        ensures taken { IfOk result (λ was. (pages : List (List ℕ)) → IsOpenStore pages self.old → (values : BucketMap)
            → Content pages self.old (bucket_at self.old (map_number map) key) values → (was ≡ finite.contains_key values key)
            × Content pages self.new (bucket_at self.old (map_number map) key) (finite.remove values key)) }
        ensures others { OnOk result ((pages : List (List ℕ)) → IsOpenStore pages self.old → (other : ℕ) (values : BucketMap)
            → other ≢ bucket_at self.old (map_number map) key → Content pages self.old other values → Content pages self.new other values) }
        ensures has { IfOk result (λ was. (rest now : Image) → Has rest now self.old
            → (was ≡ finite.contains_key (now.maps (map_number map)) key) × Has rest (with_value (map_number map) key None now) self.new) }
        ensures memory { ChangesMemory self.old self.new result }
    {
        let n = self.chain_of(map, key);
        match self.cache.remove(n, key) {
            Ok(was) => Ok(was),
            Err(fault) => {
                self.refused = true;
                Err(fault)
            }
        }
    }

    /// Gives the store these fields, with as many buckets as before.
    pub fn set_root(&mut self, root: Root)
        requires same { root.buckets ≡ bucket_count (chains_of self.old) }
        requires going { has_refused self.old ≡ false }
        ensures fields { SetsFields root self.old self.new }
        ensures content { (pages : List (List ℕ)) → (other : ℕ) (values : BucketMap)
            → Content pages self.old other values → Content pages self.new other values }
        ensures has { (rest now : Image) → Has rest now self.old → Has rest (with_root root now) self.new }
    {
        self.chains.set_root(root);
    }

    /// Gives a store without buckets so many in each map.
    pub fn set_buckets(&mut self, buckets: u64)
        requires none { bucket_count (chains_of self.old) ≡ 0 }
        requires power { IsTrue (is_power_of_two buckets) }
        requires few { buckets ≤ 65536 }
        requires going { has_refused self.old ≡ false }
        ensures fields { SetsFields (with_buckets buckets (root_of (chains_of self.old))) self.old self.new }
        ensures has { (rest now : Image) → Has rest now self.old → Has rest (with_root (with_buckets buckets now.root) now) self.new }
    {
        let root = self.chains.root();
        self.chains.set_root(Root { buckets, ..root });
    }

    /// Gives a string these bytes.
    pub fn store(&mut self, n: u32, bytes: Bytes) -> Result<(), StoreFault>
        requires string { n < 8 }
        requires going { has_refused self.old ≡ false }
        ensures text { SetsText n bytes self.old self.new result }
        ensures touches { TouchesText n self.old self.new result }
    {
        self.refused = true;
        match self.chains.store(n, bytes) {
            Ok(()) => {
                self.refused = false;
                Ok(())
            }
            Err(fault) => Err(fault),
        }
    }
}
