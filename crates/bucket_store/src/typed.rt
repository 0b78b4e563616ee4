//! A value of a bucket that does not read.
ghost use Rattle.std.specs.Prelude.{◌≡◌, ◌≤◌, ◌<◌, true};
ghost use Rattle.chain_store.specs.Chains.{first_of};
ghost use Rattle.bucket_store.specs.Buckets.{bucket_count};
ghost use Rattle.bucket_store.specs.Image.{OnlyLooks};
ghost use Rattle.bucket_store.specs.Transaction.{cached_of, chains_of, has_refused};
ghost use Rattle.bucket_store.specs.Typed.{bucket_at, refusal_of};
ghost use Rattle.value_bytes.specs.StoreMap.{map_number};

use crate::Buckets;
use outside::Disk;
use page_journal::StoreFault;
use value_bytes::{StoreMap, ValueFault};

/// The refusal of a call that does not read the value of a key. From here on the transaction can only be begun anew.
pub fn refuse_value<D: Disk>(
    buckets: &mut Buckets<'_, D>,
    map: StoreMap,
    key: u64,
    fault: ValueFault,
) -> StoreFault
    requires some { 1 ≤ bucket_count (chains_of buckets.old) }
    ensures refusal { result ≡ refusal_of fault (first_of (chains_of buckets.old) (bucket_at buckets.old (map_number map) key)) }
    ensures refused { has_refused buckets.new ≡ true }
    ensures chains { chains_of buckets.new ≡ chains_of buckets.old }
    ensures cached { cached_of buckets.new ≡ cached_of buckets.old }
    ensures same { OnlyLooks buckets.old buckets.new }
{
    let page = buckets.page_of(map, key);
    buckets.refuse();
    match fault {
        ValueFault::NotSpelled => StoreFault::BadStore { page },
        ValueFault::OutOfMemory => StoreFault::OutOfMemory,
    }
}
