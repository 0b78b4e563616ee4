//! A map of a store, whole.
ghost use Rattle.std.specs.Prelude.{◌≡◌, None, Some, IfSome, IsNone, MatchOption};
ghost use Rattle.std.specs.FinMap as map;
ghost use Rattle.bucket_store.specs.Cache.{Becomes};

use osm_base::{Bytes, OutOfMemory};
use std::alloc::Global;
use std::collections::BTreeMap;
use std::marker::Model;

/// A map of a store, whole: a finite map from keys to bytes.
#[derive(Drop)]
pub struct WholeMap {
    tree: BTreeMap<u64, Bytes>,
}

impl Model for WholeMap {
    ghost use Rattle.std.specs.Coded.{coded_list, coded_ℕ};
    ghost use Rattle.std.specs.FinMap as map;
    ghost use Rattle.bucket_records.specs.Records.{BucketMap};

    ghost Value = { BucketMap };

    ghost coded = { map.code coded_ℕ (coded_list coded_ℕ) };

    ghost view = { λ whole. map.from_entries whole.tree.entries };
}

impl WholeMap {
    /// No keys.
    pub fn new(alloc: Global) -> Self
        ensures empty { result ≡ map.empty }
    {
        Self {
            tree: BTreeMap::new(alloc),
        }
    }

    /// The value of a key.
    pub fn get(&self, key: u64) -> Option<&[u8]>
        ensures value { MatchOption result (map.get self.now key ≡ None) (λ value. map.get self.now key ≡ Some value.now) }
    {
        match self.tree.get(&key) {
            Some(value) => Some(value.as_slice()),
            None => None,
        }
    }

    /// Gives a key this value. After `Err` nothing has changed.
    pub fn put(&mut self, key: u64, value: Bytes) -> Result<(), OutOfMemory>
        ensures put { Becomes self.old self.new (map.insert self.old key value) result }
    {
        self.tree.insert(key, value)?;
        Ok(())
    }

    /// Takes out a key with its value, if there is one.
    pub fn pop(&mut self) -> Option<(u64, Bytes)>
        ensures there { IfSome result (λ (key, value). map.get self.old key ≡ Some value) }
        ensures rest { IfSome result (λ (key, value). self.new ≡ map.remove self.old key) }
        ensures none { IsNone result → self.old ≡ map.empty }
    {
        self.tree.pop_first()
    }
}
