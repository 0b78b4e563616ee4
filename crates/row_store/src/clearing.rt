//! All rows are taken out of a store.
ghost use Rattle.std.specs.Prelude.{◌≡◌, ◌<◌, ◌%◌, ℕ, List, OnOk};
ghost use Rattle.std.specs.FinMap as finite;
ghost use Rattle.bucket_store.specs.Buckets.{bucket_count};
ghost use Rattle.bucket_store.specs.Image.{Has, Image, IsSoundAnswer};
ghost use Rattle.bucket_store.specs.Transaction.{IsOpenStore, IsReady, chains_of};
ghost use Rattle.row_store.specs.Clearing.{ClearsRows, TakesOut, without_rows};
ghost use Rattle.row_store.specs.Loading.{Among, Looks};
ghost use Rattle.row_store.specs.Tables.{HoldsTables};
ghost use Rattle.style_read.specs.declared.style.TableDef.{TableDef};
ghost use Rattle.value_bytes.specs.StoreMap.{map_number};

use bucket_store::Buckets;
use osm_base::Bytes;
use outside::Disk;
use page_journal::StoreFault;
use value_bytes::StoreMap;

/// Takes out all rows that the store has.
pub fn clear<D: Disk>(buckets: &mut Buckets<'_, D>) -> Result<(), StoreFault>
    requires ready { IsReady buckets.old }
    ensures cleared { OnOk result ((rest now : Image) → Has rest now buckets.old → Has rest (without_rows now) buckets.new) }
    ensures none { (now : Image) (definitions : List TableDef) → HoldsTables definitions (without_rows now).maps finite.empty }
    ensures answers { (pages : List (List ℕ)) → IsOpenStore pages buckets.old → ClearsRows pages buckets.old result }
    ensures sound { (rest now : Image) → Has rest now buckets.old → IsSoundAnswer result }
    ensures opens { (pages : List (List ℕ)) → IsOpenStore pages buckets.old → IsOpenStore pages buckets.new }
    ensures looks { Looks buckets.old buckets.new result }
{
    if let Err(fault) = clear_map(buckets, StoreMap::NodeRows) {
        return Err(fault);
    }
    match clear_map(buckets, StoreMap::OtherRows) {
        Ok(()) => Ok(()),
        Err(fault) => Err(fault),
    }
}

// Takes out all that a map has, bucket by bucket.
fn clear_map<D: Disk>(buckets: &mut Buckets<'_, D>, map: StoreMap) -> Result<(), StoreFault>
    requires ready { IsReady buckets.old }
    ensures out { TakesOut (map_number map) (λ key. Unit {0}) buckets.old buckets.new result }
{
    let count = buckets.root().buckets;
    let mut bucket = 0;
    while bucket < count {
        if let Err(fault) = clear_bucket(buckets, map, bucket) {
            return Err(fault);
        }
        bucket += 1;
    }
    Ok(())
}

// Takes out all that a bucket of a map has.
fn clear_bucket<D: Disk>(
    buckets: &mut Buckets<'_, D>,
    map: StoreMap,
    bucket: u64,
) -> Result<(), StoreFault>
    requires ready { IsReady buckets.old }
    ensures out { TakesOut (map_number map) (λ key. key % bucket_count (chains_of buckets.old) ≡ bucket % bucket_count (chains_of buckets.old)) buckets.old buckets.new result }
{
    let records = match buckets.records(map, bucket) {
        Ok(records) => records,
        Err(fault) => return Err(fault),
    };
    match remove_all(buckets, map, records.as_slice()) {
        Ok(()) => Ok(()),
        Err(fault) => Err(fault),
    }
}

// Takes out the keys of these records.
fn remove_all<D: Disk>(
    buckets: &mut Buckets<'_, D>,
    map: StoreMap,
    records: &[(u64, Bytes)],
) -> Result<(), StoreFault>
    requires ready { IsReady buckets.old }
    ensures out { TakesOut (map_number map) (Among records.now) buckets.old buckets.new result }
{
    for (key, _) in records {
        if let Err(fault) = buckets.remove(map, *key) {
            return Err(fault);
        }
    }
    Ok(())
}
