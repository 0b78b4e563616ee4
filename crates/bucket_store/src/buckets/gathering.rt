//! The maps of an open store are read whole.
ghost use Rattle.std.specs.Prelude.{◌≡◌, ◌≤◌, ◌<◌, List, ℕ, false, IsSome, OnOk, Some};
ghost use Rattle.std.specs.FinMap as finite;
ghost use Rattle.chain_store.specs.Directories.{IsString};
ghost use Rattle.bucket_store.specs.Buckets.{HasKeysOf, IsBucketChain, bucket_count, bucket_in};
ghost use Rattle.bucket_store.specs.Whole.{with_records};
ghost use Rattle.bucket_store.specs.declared.cache.Cached.{Cached};
ghost use Rattle.bucket_records.specs.Records.{BucketMap};

use super::Buckets;
use crate::whole::WholeMap;
use osm_base::{Bytes, OutOfMemory};
use outside::Disk;
use page_journal::StoreFault;
use value_bytes::StoreMap;

impl<'d, D: Disk> Buckets<'d, D> {
    ghost use Rattle.bucket_store.specs.Calls.{BringsOnly, GetsMap, TouchesMap};
    ghost use Rattle.bucket_store.specs.Transaction.{Content, IsOpenStore, IsReady, IsReadyAt, cached_of, chains_of};
    ghost use Rattle.value_bytes.specs.StoreMap.{map_number};

    /// All of a map. Its buckets are read in their order, each that was not read yet.
    pub fn whole(&mut self, map: StoreMap) -> Result<WholeMap, StoreFault>
        requires ready { IsReady self.old }
        ensures whole { GetsMap (map_number map) self.old self.new result }
        ensures touches { TouchesMap (map_number map) self.old self.new result }
    {
        let count = self.chains.root().buckets;
        let mut whole = WholeMap::new(self.alloc);
        let mut bucket = 0;
        while bucket < count {
            let n = self.chain_of(map, bucket);
            if let Err(fault) = self.add_bucket(n, &mut whole) {
                return Err(fault);
            }
            bucket += 1;
        }
        Ok(whole)
    }

    // Puts the records of a bucket to those that are there.
    fn add_bucket(&mut self, n: u32, whole: &mut WholeMap) -> Result<(), StoreFault>
        requires ready { IsReadyAt n self.old }
        ensures added { OnOk result ((pages : List (List ℕ)) → IsOpenStore pages self.old → (values : BucketMap) → Content pages self.old n values
            → (whole.new ≡ with_records (finite.entries values) whole.old) × HasKeysOf (bucket_count (chains_of self.old)) (bucket_in n) values) }
        ensures only { BringsOnly n self.old self.new result }
    {
        if let Err(fault) = self.bring_chain(n) {
            return Err(fault);
        }
        match self.take_records(n, whole) {
            Ok(()) => Ok(()),
            Err(_) => {
                self.refused = true;
                Err(StoreFault::OutOfMemory)
            }
        }
    }

    // Puts the records of a bucket that was read to those that are there.
    fn take_records(&self, n: u32, whole: &mut WholeMap) -> Result<(), OutOfMemory>
        requires there { IsSome (finite.get (cached_of self.now) n) }
        ensures added { OnOk result ((own : Cached) → finite.get (cached_of self.now) n ≡ Some own → whole.new ≡ with_records (finite.entries own.bucket.values) whole.old) }
    {
        let records = self.cache.records(n)?;
        add_records(records, whole)
    }
}

// Puts records to those that are there.
fn add_records(records: Vec<(u64, Bytes)>, whole: &mut WholeMap) -> Result<(), OutOfMemory>
    ensures added { OnOk result (whole.new ≡ with_records records.items whole.old) }
{
    let mut records = records;
    while let Some((key, value)) = records.pop() {
        whole.put(key, value)?;
    }
    Ok(())
}
