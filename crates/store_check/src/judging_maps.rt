//! Maps 0 to 2 are judged, a bucket at a time.
ghost use Rattle.std.specs.Prelude.{◌≡◌, ◌⊎◌, ◌%◌, Bool, ℕ, true, OnOk};
ghost use Rattle.bucket_store.specs.Image.{Has, Image};
ghost use Rattle.store_check.specs.Judging.{IsRightOf, Judges, Takes, map_for};
ghost use Rattle.store_check.specs.Finds.{Finds};
ghost use Rattle.store_check.specs.Wrong.{IsLeastOf, IsWrongIn};

use crate::Wrong;
use crate::held::Held;
use crate::judging::judge_all;
use crate::least::Least;
use crate::reading::Reading;
use osm_base::Kind;
use outside::Disk;
use page_journal::StoreFault;
use std::alloc::Global;
use value_bytes::StoreMap;

/// Holds what is right in maps 0 to 2, up to the first map that has a wrong value: its least key is answered.
pub(crate) fn judge_maps<D: Disk>(
    alloc: Global,
    reading: &mut Reading<'_, '_, D>,
    asked: bool,
    held: &mut Held,
) -> Result<Option<Wrong>, StoreFault>
    ensures judges { Finds reading.old reading.new result (λ rest found.
        Judges asked rest held.old held.new found) }
{
    match judge_map(alloc, reading, asked, Kind::Node, held) {
        Ok(None) => (),
        Ok(Some(wrong)) => return Ok(Some(wrong)),
        Err(fault) => return Err(fault),
    }
    match judge_map(alloc, reading, asked, Kind::Way, held) {
        Ok(None) => (),
        Ok(Some(wrong)) => return Ok(Some(wrong)),
        Err(fault) => return Err(fault),
    }
    match judge_map(alloc, reading, asked, Kind::Relation, held) {
        Ok(found) => Ok(found),
        Err(fault) => Err(fault),
    }
}

// Holds what is right in the map of a kind, and answers where the least key of what is not stands.
fn judge_map<D: Disk>(
    alloc: Global,
    reading: &mut Reading<'_, '_, D>,
    asked: bool,
    kind: Kind,
    held: &mut Held,
) -> Result<Option<Wrong>, StoreFault>
    ensures takes { OnOk result ((rest : Image) → Has rest rest reading.old.buckets.now → Takes asked rest kind (λ key. Unit {0}) held.old held.new) }
    ensures least { Finds reading.old reading.new result (λ rest found.
        IsWrongIn (λ map key. IsRightOf asked rest kind key) (map_for kind) found) }
{
    let mut least = Least::new();
    let count = reading.bucket_count();
    let mut bucket = 0;
    while bucket < count {
        if let Err(fault) = judge_bucket(alloc, reading, asked, kind, bucket, held, &mut least) {
            return Err(fault);
        }
        bucket += 1;
    }
    match least.key() {
        None => Ok(None),
        Some(key) => Ok(Some(Wrong {
            map: map_for(kind),
            key,
        })),
    }
}

// Holds what is right in a bucket of the map of a kind, and sees the keys of what is not.
fn judge_bucket<D: Disk>(
    alloc: Global,
    reading: &mut Reading<'_, '_, D>,
    asked: bool,
    kind: Kind,
    bucket: u64,
    held: &mut Held,
    least: &mut Least,
) -> Result<(), StoreFault>
    ensures takes { OnOk result ((rest : Image) → Has rest rest reading.old.buckets.now
        → Takes asked rest kind (λ key. key % rest.root.buckets ≡ bucket % rest.root.buckets) held.old held.new) }
    ensures least { Finds reading.old reading.new result (λ rest done. (was_seen : ℕ → Bool)
        → IsLeastOf (λ key. was_seen key ≡ true) (IsRightOf asked rest kind) least.old
        → IsLeastOf (λ key. (was_seen key ≡ true) ⊎ (key % rest.root.buckets ≡ bucket % rest.root.buckets)) (IsRightOf asked rest kind) least.new) }
{
    let records = match reading.records(map_for(kind), bucket) {
        Ok(records) => records,
        Err(fault) => return Err(fault),
    };
    reading.forget();
    match judge_all(alloc, asked, kind, records.as_slice(), held, least) {
        Ok(()) => Ok(()),
        Err(_) => Err(StoreFault::OutOfMemory),
    }
}

// The map of the objects of a kind.
fn map_for(kind: Kind) -> StoreMap
    ensures { result ≡ map_for kind }
{
    match kind {
        Kind::Node => StoreMap::Nodes,
        Kind::Way => StoreMap::Ways,
        Kind::Relation => StoreMap::Relations,
    }
}
