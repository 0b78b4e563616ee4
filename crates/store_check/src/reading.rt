//! A store is read, and nothing of it is changed.
ghost use Rattle.std.specs.Prelude.{◌≡◌, ◌%◌, is_some};
ghost use Rattle.std.specs.FinMap as finite;
ghost use Rattle.value_bytes.specs.StoreMap.{map_number};
ghost use Rattle.bucket_store.specs.Buckets.{bucket_count};
ghost use Rattle.bucket_store.specs.Image.{IsBucketOf};
ghost use Rattle.bucket_store.specs.Transaction.{chains_of};
ghost use Rattle.store_check.specs.Reading.{IsUnchanged, IsUnchanged-prop};

use bucket_store::Buckets;
use osm_base::Bytes;
use outside::Disk;
use page_journal::StoreFault;
use value_bytes::StoreMap;

/// A transaction that only reads a store with buckets. A call that is refused leaves it begun anew, so that it can be read on.
#[derive(Drop)]
pub(crate) struct Reading<'b, 'd, D: Disk> {
    pub(crate) buckets: &'b mut Buckets<'d, D>,
    ghost unchanged: { IsUnchanged buckets.now } by { IsUnchanged-prop buckets.now },
}

impl<'b, 'd, D: Disk> Reading<'b, 'd, D> {
    ghost use Rattle.store_check.specs.Finds.{Finds, Saw};

    /// How many buckets the store has.
    pub(crate) fn bucket_count(&self) -> u64
        ensures { result ≡ bucket_count (chains_of self.now.buckets.now) }
    {
        self.buckets.root().buckets
    }

    /// The records of a bucket of a map, by rising key.
    pub(crate) fn records(
        &mut self,
        map: StoreMap,
        bucket: u64,
    ) -> Result<Vec<(u64, Bytes)>, StoreFault>
        ensures found { Finds self.old self.new result (λ rest records.
            IsBucketOf rest (map_number map) (bucket % rest.root.buckets) records.items) }
    {
        match self.buckets.records(map, bucket) {
            Ok(records) => Ok(records),
            Err(fault) => {
                self.buckets.begin();
                Err(fault)
            }
        }
    }

    /// The bytes that a map has under a key.
    pub(crate) fn get(&mut self, map: StoreMap, key: u64) -> Result<Option<Bytes>, StoreFault>
        ensures found { Finds self.old self.new result (λ rest bytes.
            bytes ≡ finite.get (rest.maps (map_number map)) key) }
    {
        match self.buckets.get(map, key) {
            Ok(bytes) => Ok(bytes),
            Err(fault) => {
                self.buckets.begin();
                Err(fault)
            }
        }
    }

    /// Whether a map has something under a key.
    pub(crate) fn has(&mut self, map: StoreMap, key: u64) -> Result<bool, StoreFault>
        ensures found { Finds self.old self.new result (λ rest there.
            there ≡ is_some (finite.get (rest.maps (map_number map)) key)) }
    {
        match self.buckets.bring(map, key) {
            Ok(()) => Ok(self.buckets.value(map, key).is_some()),
            Err(fault) => {
                self.buckets.begin();
                Err(fault)
            }
        }
    }

    /// Lets go of what was read.
    pub(crate) fn forget(&mut self)
        ensures saw { Saw self.old self.new }
    {
        self.buckets.begin();
    }
}
