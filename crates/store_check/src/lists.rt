//! The lists of a store, maps 3 to 5, are compared with what its ways and relations list.
//!
//! Each list that is kept is judged by those that are told to list its id, and each id that somebody is told to list has to have one.
ghost use Rattle.std.specs.Prelude.{◌≡◌, ◌≤◌, ◌%◌, IsSome};
ghost use Rattle.std.specs.FinMap as finite;
ghost use Rattle.style_read.specs.Style.{StyleOf};
ghost use Rattle.value_bytes.specs.StoreMap.{map_number};
ghost use Rattle.back_index.specs.Filling.{IsKeptAt, mentions_tell};
ghost use Rattle.store_check.specs.Held.{IsHeldOf};
ghost use Rattle.store_check.specs.Least.{lesser_of};
ghost use Rattle.store_check.specs.Lists.{IsLacking};
ghost use Rattle.store_check.specs.Finds.{Finds};
ghost use Rattle.store_check.specs.Values.{NodeMap, ObjectMap, ReadsObjects};
ghost use Rattle.store_check.specs.Wrong.{IsLeast, IsLeastOf, IsRightIn};

use crate::held::Held;
use crate::least::Least;
use crate::list_judge::wrong_among;
use crate::mentions::Mentions;
use crate::reading::Reading;
use crate::told_lists::told_by_held;
use outside::Disk;
use page_journal::StoreFault;
use std::alloc::Global;
use value_bytes::StoreMap;

/// The least id of a map of lists whose list is not that of the ways or relations that are held.
pub(crate) fn first_wrong_list<D: Disk>(
    alloc: Global,
    reading: &mut Reading<'_, '_, D>,
    map: StoreMap,
    held: &Held,
) -> Result<Option<u64>, StoreFault>
    requires lists { (3 ≤ map_number map) × (map_number map ≤ 5) }
    ensures least { Finds reading.old reading.new result (λ rest found.
        (style : StyleOf) (nodes : NodeMap) (ways relations : ObjectMap) → ReadsObjects rest nodes ways relations
        → IsHeldOf nodes ways relations held.now → IsLeast (IsRightIn style rest nodes ways relations map) found) }
{
    match told_by_held(alloc, map, held) {
        Ok(mentions) => {
            let all = mentions.as_slice();
            wrong_list(alloc, reading, map, &Mentions { all })
        }
        Err(_) => Err(StoreFault::OutOfMemory),
    }
}

/// The least id of a map of lists whose list is not the one that is told.
fn wrong_list<D: Disk>(
    alloc: Global,
    reading: &mut Reading<'_, '_, D>,
    map: StoreMap,
    mentions: &Mentions,
) -> Result<Option<u64>, StoreFault>
    ensures least { Finds reading.old reading.new result (λ rest found.
        IsLeast (IsKeptAt (mentions_tell mentions.now.all.now) (rest.maps (map_number map))) found) }
{
    let kept = match wrong_kept(alloc, reading, map, mentions) {
        Ok(kept) => kept,
        Err(fault) => return Err(fault),
    };
    match lacking(reading, map, mentions) {
        Ok(other) => Ok(lesser_of(kept, other)),
        Err(fault) => Err(fault),
    }
}

/// The least id of the lists that a map keeps whose list is not the one that is told.
fn wrong_kept<D: Disk>(
    alloc: Global,
    reading: &mut Reading<'_, '_, D>,
    map: StoreMap,
    mentions: &Mentions,
) -> Result<Option<u64>, StoreFault>
    ensures least { Finds reading.old reading.new result (λ rest found.
        IsLeastOf (λ n. IsSome (finite.get (rest.maps (map_number map)) n))
        (IsKeptAt (mentions_tell mentions.now.all.now) (rest.maps (map_number map))) found) }
{
    let count = reading.bucket_count();
    let mut found = None;
    let mut bucket = 0;
    while bucket < count {
        match wrong_in_bucket(alloc, reading, map, bucket, mentions) {
            Ok(own) => found = lesser_of(found, own),
            Err(fault) => return Err(fault),
        }
        bucket += 1;
    }
    Ok(found)
}

/// The same of a bucket.
fn wrong_in_bucket<D: Disk>(
    alloc: Global,
    reading: &mut Reading<'_, '_, D>,
    map: StoreMap,
    bucket: u64,
    mentions: &Mentions,
) -> Result<Option<u64>, StoreFault>
    ensures least { Finds reading.old reading.new result (λ rest found.
        IsLeastOf (λ n. IsSome (finite.get (rest.maps (map_number map)) n) × (n % rest.root.buckets ≡ bucket % rest.root.buckets))
        (IsKeptAt (mentions_tell mentions.now.all.now) (rest.maps (map_number map))) found) }
{
    let records = match reading.records(map, bucket) {
        Ok(records) => records,
        Err(fault) => return Err(fault),
    };
    match wrong_among(alloc, mentions, records.as_slice()) {
        Ok(found) => Ok(found),
        Err(_) => Err(StoreFault::OutOfMemory),
    }
}

/// The least id that somebody is told to list, and of which a map keeps no list.
fn lacking<D: Disk>(
    reading: &mut Reading<'_, '_, D>,
    map: StoreMap,
    mentions: &Mentions,
) -> Result<Option<u64>, StoreFault>
    ensures least { Finds reading.old reading.new result (λ rest found.
        IsLeast (λ id. ¬ IsLacking (mentions_tell mentions.now.all.now) (rest.maps (map_number map)) id) found) }
{
    let mut least = Least::new();
    for mention in mentions.all {
        match reading.has(map, mention.id) {
            Ok(is_kept) => least.see(mention.id, is_kept),
            Err(fault) => return Err(fault),
        }
    }
    Ok(least.key())
}

/// The lesser of two ids, where both are told, or the one that is.
fn lesser_of(one: Option<u64>, other: Option<u64>) -> Option<u64>
    ensures lesser { result ≡ lesser_of one other }
{
    match (one, other) {
        (None, _) => other,
        (_, None) => one,
        (Some(id), Some(own)) => Some(if own < id { own } else { id }),
    }
}
