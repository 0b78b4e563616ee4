//! What a transaction has changed is made to stand.
ghost use Rattle.std.specs.Prelude.{◌≡◌, ◌*◌, ◌<◌, List, ℕ, None, Some, false, ◌==◌, if◌then◌else◌, IsSome, IsTrue, OnOk};
ghost use Rattle.std.specs.FinMap as map;
ghost use Rattle.outside.specs.Disk.{ReadsAtMost};
ghost use Rattle.page_journal.specs.Journal.{home_count};
ghost use Rattle.chain_store.specs.Chains.{IsOpen, disk_of, is_refused, journal_of, kept_of, read_of, written_of};
ghost use Rattle.chain_store.specs.Directories.{IsString};
ghost use Rattle.bucket_store.specs.Buckets.{AreAllRead, AreBuckets, HasOrigin, HaveOrigins, IsBucketChain, bucket_count};
ghost use Rattle.bucket_store.specs.Committing.{LeavesChains, WritesBuckets, after};
ghost use Rattle.page_journal.specs.declared.layout.TheConstants.{PAGE_LEN};
ghost use Rattle.bucket_records.specs.Records.{AreRecords};
ghost use Rattle.bucket_store.specs.declared.cache.Cached.{Cached};

use crate::cache::{Cache, Cached};
use chain_store::Chains;
use osm_base::Bytes;
use outside::Disk;
use page_journal::StoreFault;

/// Gives each changed bucket's chain its bytes.
pub fn store_changed<D: Disk>(
    chains: &mut Chains<'_, D>,
    cache: &mut Cache,
) -> Result<(), StoreFault>
    requires buckets { AreBuckets (bucket_count chains.old) cache.old }
    requires going { is_refused chains.old ≡ false }
    ensures written { OnOk result ((n : ℕ) → map.get (written_of chains.new) n ≡ after (map.get cache.old n) (map.get (written_of chains.old) n)) }
    ensures open { (pages : List (List ℕ)) → IsOpen pages chains.old → HaveOrigins pages chains.old cache.old → IsOpen pages chains.new }
    ensures reads { OnOk result (AreAllRead (read_of chains.old) cache.old → (read_of chains.new ≡ read_of chains.old)
        × ReadsAtMost 0 (PAGE_LEN * home_count (journal_of chains.old)) (disk_of chains.old) (disk_of chains.new)) }
    ensures rise { OnOk result ((n : ℕ) (own : Cached) → map.get cache.old n ≡ Some own → IsTrue own.changed → AreRecords 0 (map.entries own.bucket.values)) }
    ensures answers { (pages : List (List ℕ)) → IsOpen pages chains.old → HaveOrigins pages chains.old cache.old
        → WritesBuckets pages (kept_of chains.old) (bucket_count chains.old) result }
    ensures leaves { LeavesChains chains.old chains.new result }
{
    while let Some((n, cached)) = cache.pop() {
        known_string(n, chains.root().buckets);
        if let Err(fault) = store_bucket(chains, n, cached) {
            return Err(fault);
        }
    }
    Ok(())
}

// The chain of a bucket is a string of the store: what a call asks, said of its arguments.
fn known_string(_n: u32, _buckets: u64)
    requires { IsBucketChain _buckets _n }
    ensures { IsString _buckets _n }
{}

// Gives the chain of a bucket its bytes, where it was changed.
fn store_bucket<D: Disk>(
    chains: &mut Chains<'_, D>,
    n: u32,
    cached: Cached,
) -> Result<(), StoreFault>
    requires string { IsString (bucket_count chains.old) n }
    requires bucket { IsBucketChain (bucket_count chains.old) n }
    requires going { is_refused chains.old ≡ false }
    ensures written { OnOk result ((k : ℕ) → map.get (written_of chains.new) k ≡ after (if k == n then Some cached else None) (map.get (written_of chains.old) k)) }
    ensures open { (pages : List (List ℕ)) → IsOpen pages chains.old → HasOrigin pages chains.old n cached.bucket → IsOpen pages chains.new }
    ensures reads { OnOk result (IsSome (map.get (read_of chains.old) n) → (read_of chains.new ≡ read_of chains.old)
        × ReadsAtMost 0 (PAGE_LEN * home_count (journal_of chains.old)) (disk_of chains.old) (disk_of chains.new)) }
    ensures rise { OnOk result (IsTrue cached.changed → AreRecords 0 (map.entries cached.bucket.values)) }
    ensures answers { (pages : List (List ℕ)) → IsOpen pages chains.old → WritesBuckets pages (kept_of chains.old) (bucket_count chains.old) result }
    ensures leaves { LeavesChains chains.old chains.new result }
{
    if !cached.changed {
        return Ok(());
    }
    let Cached { bucket, changed: _ } = cached;
    let (before, bytes) = match bucket.into_bytes() {
        Ok(both) => both,
        Err(_) => return Err(StoreFault::OutOfMemory),
    };
    match chains.store_over(n, Bytes::from_vec(before), Bytes::from_vec(bytes)) {
        Ok(()) => Ok(()),
        Err(fault) => Err(fault),
    }
}
