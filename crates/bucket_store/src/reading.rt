//! A bucket is read from its chain.
ghost use Rattle.std.specs.Prelude.{◌≡◌, ◌*◌, ◌+◌, ◌-◌, ◌%◌, ◌<◌, ◌≤◌, List, ℕ, false, IfOk};
ghost use Rattle.chain_store.specs.Chains.{IsOpen, is_refused};
ghost use Rattle.chain_store.specs.Directories.{IsString};
ghost use Rattle.bucket_store.specs.Buckets.{HasKeysOf, IsBucketChain, LeavesRead, ReadsBucket, bucket_count, bucket_in, chain_at};
ghost use Rattle.value_bytes.specs.StoreMap.{map_number};

use bucket_records::Bucket;
use chain_store::Chains;
use outside::Disk;
use page_journal::StoreFault;
use std::alloc::Global;
use value_bytes::{StoreMap, ValueFault};

/// The bucket of this chain, read from the store.
pub fn read_bucket<D: Disk>(
    alloc: Global,
    chains: &mut Chains<'_, D>,
    n: u32,
) -> Result<Bucket, StoreFault>
    requires string { IsString (bucket_count chains.old) n }
    requires bucket { IsBucketChain (bucket_count chains.old) n }
    requires some { 1 ≤ bucket_count chains.old }
    requires going { is_refused chains.old ≡ false }
    ensures answers { (pages : List (List ℕ)) → IsOpen pages chains.old → ReadsBucket pages chains.old n result }
    ensures own { IfOk result (λ held. HasKeysOf (bucket_count chains.old) (bucket_in n) held.values) }
    ensures leaves { LeavesRead n chains.old chains.new result }
{
    let buckets = chains.root().buckets;
    let first = chains.first_page(n);
    let bytes = match chains.load(n) {
        Ok(bytes) => bytes,
        Err(fault) => return Err(fault),
    };
    match Bucket::read(alloc, bytes.into_vec(), buckets, bucket_of(n)) {
        Ok(bucket) => Ok(bucket),
        Err(ValueFault::NotSpelled) => Err(StoreFault::BadStore { page: first }),
        Err(ValueFault::OutOfMemory) => Err(StoreFault::OutOfMemory),
    }
}

/// The chain of the bucket of a key.
pub fn chain_of(map: StoreMap, key: u64, buckets: u64) -> u32
    requires some { 1 ≤ buckets }
    requires few { buckets ≤ 65536 }
    ensures chain { result ≡ chain_at buckets (map_number map) key }
    ensures string { IsString buckets result }
    ensures is { IsBucketChain buckets result }
{
    16 + 65536 * u32::from(map.number()) + (key % buckets) as u32
}

// The bucket of a chain.
fn bucket_of(n: u32) -> u64
    requires { 16 ≤ n }
    ensures { result ≡ bucket_in n }
{
    (n as u64 - 16) % 65536
}
