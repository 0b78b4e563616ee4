//! The index of a store, where an object comes, goes or changes.
ghost use Rattle.std.specs.Prelude.{◌≡◌, ℕ, List, if◌then◌else◌, OnOk};
ghost use Rattle.std.specs.FinMap as finite;
ghost use Rattle.osm_base.specs.values.Ids.{IsRising};
ghost use Rattle.osm_base.specs.values.Key.{IsId};
ghost use Rattle.bucket_store.specs.Image.{Has, Image};
ghost use Rattle.bucket_store.specs.Transaction.{IsReady};
ghost use Rattle.value_bytes.specs.StoreMap.{map_number};
ghost use Rattle.store_maps.specs.Asked.{MayEach, MayKey, MayList};
ghost use Rattle.store_maps.specs.Step.{with_id, without_id};
ghost use Rattle.store_maps.specs.Turns.{listed_by};
ghost use Rattle.back_index.specs.Calls.{TouchesLists, page_at};
ghost use Rattle.back_index.specs.Index.{Relists, all_visits};
ghost use Rattle.back_index.specs.Listed.{ids_in};
ghost use Rattle.back_index.specs.Relisting.{CanTurn, Turns, TurnsAt, kept_list, turned};
ghost use Rattle.back_index.specs.Visits.{IsFine, OnlyMap, Sets, StopsAt, visits, visits_at};

use crate::listed_ids::Forms;
use crate::lists::{keep_list, listers, refused};
use crate::visit::Visit;
use bucket_store::Buckets;
use object_fold::RisingIds;
use osm_base::{Key, Kind, Object, OutOfMemory};
use outside::Disk;
use page_journal::StoreFault;
use std::alloc::Global;
use value_bytes::{StoreMap, ValueFault};

/// The object of a key, which was of the one form, is of the other. A list that both forms are in is only
/// looked at. `BadStore` comes with the first page of the bucket of the first list that is not spelled, or
/// that lacks the object though its old form is in it.
pub fn relist<D: Disk>(
    alloc: Global,
    buckets: &mut Buckets<'_, D>,
    key: Key,
    old: &Option<Object>,
    new: &Option<Object>,
) -> Result<(), StoreFault>
    requires ready { IsReady buckets.old }
    ensures relists { OnOk result ((rest now : Image) → Has rest now buckets.old
        → (after : Image) × Has rest after buckets.new × Relists key old.now new.now now after) }
    ensures touches { TouchesLists (λ may. MayList may key old.now × MayList may key new.now)
        (λ now. StopsAt (IsFine now key.id) (page_at buckets.old) (all_visits key old.now new.now)) buckets.old buckets.new result }
{
    match key.kind {
        Kind::Node => Ok(()),
        Kind::Way => relist_map(alloc, buckets, StoreMap::WaysOfBlocks, key.id, old, new),
        Kind::Relation => {
            let nodes = StoreMap::RelationsOfNodes;
            if let Err(fault) = relist_map(alloc, buckets, nodes, key.id, old, new) {
                return Err(fault);
            }
            relist_map(alloc, buckets, StoreMap::RelationsOfWays, key.id, old, new)
        }
    }
}

/// The lists of one map.
fn relist_map<D: Disk>(
    alloc: Global,
    buckets: &mut Buckets<'_, D>,
    map: StoreMap,
    own: u64,
    old: &Option<Object>,
    new: &Option<Object>,
) -> Result<(), StoreFault>
    requires ready { IsReady buckets.old }
    requires own { IsId own }
    ensures turns { OnOk result ((rest now : Image) → Has rest now buckets.old → (after : Image) × Has rest after buckets.new
        × OnlyMap (map_number map) now after
        × Turns own (listed_by (ids_in map) old.now) (listed_by (ids_in map) new.now) (now.maps (map_number map)) (after.maps (map_number map))) }
    ensures touches { TouchesLists
        (λ may. MayEach may (map_number map) (listed_by (ids_in map) old.now) × MayEach may (map_number map) (listed_by (ids_in map) new.now))
        (λ now. StopsAt (IsFine now own) (page_at buckets.old) (visits map (listed_by (ids_in map) old.now) (listed_by (ids_in map) new.now)))
        buckets.old buckets.new result }
{
    match Forms::of(alloc, map, old, new) {
        Ok(forms) => {
            let ids = forms.all.as_slice();
            turn_all(alloc, buckets, map, own, ids, &forms.before, &forms.after)
        }
        Err(_) => Err(refused(buckets, 0, ValueFault::OutOfMemory)),
    }
}

/// The lists of these ids in one map are turned.
fn turn_all<D: Disk>(
    alloc: Global,
    buckets: &mut Buckets<'_, D>,
    map: StoreMap,
    own: u64,
    ids: &[u64],
    old: &RisingIds,
    new: &RisingIds,
) -> Result<(), StoreFault>
    requires ready { IsReady buckets.old }
    requires own { IsId own }
    requires rise { IsRising ids.now }
    ensures turns { OnOk result ((rest now : Image) → Has rest now buckets.old → (after : Image) × Has rest after buckets.new
        × OnlyMap (map_number map) now after × TurnsAt own old.now new.now ids.now (now.maps (map_number map)) (after.maps (map_number map))) }
    ensures touches { TouchesLists (λ may. MayEach may (map_number map) ids.now)
        (λ now. StopsAt (IsFine now own) (page_at buckets.old) (visits_at map old.now new.now ids.now)) buckets.old buckets.new result }
{
    for &id in ids {
        let visit = Visit {
            map,
            id,
            was: old.contains(id),
            is: new.contains(id),
        };
        if let Err(fault) = turn_list(alloc, buckets, visit, own) {
            return Err(fault);
        }
    }
    Ok(())
}

/// One list is turned: the id of an object goes out of it, comes in, or is looked for.
fn turn_list<D: Disk>(
    alloc: Global,
    buckets: &mut Buckets<'_, D>,
    visit: Visit,
    own: u64,
) -> Result<(), StoreFault>
    requires ready { IsReady buckets.old }
    requires own { IsId own }
    ensures turns { OnOk result ((rest now : Image) → Has rest now buckets.old → (after : Image) × Has rest after buckets.new
        × (ids : List ℕ) × CanTurn visit.was own (finite.get (now.maps (map_number visit.map)) visit.id) ids
        × Sets (map_number visit.map) visit.id (kept_list (turned visit.was visit.is own ids)) now after) }
    ensures touches { TouchesLists (λ may. MayKey may visit.map visit.id)
        (λ now at. (¬ IsFine now own visit) × (at ≡ page_at buckets.old visit)) buckets.old buckets.new result }
{
    let ids = match listers(alloc, buckets, visit.map, visit.id) {
        Ok(ids) => ids,
        Err(fault) => return Err(fault),
    };
    let mut ids = RisingIds::from_vec(ids.into_vec());
    if visit.was && !ids.contains(own) {
        let page = buckets.page_of(visit.map, visit.id);
        return Err(refused(buckets, page, ValueFault::NotSpelled));
    }
    if visit.was == visit.is {
        return Ok(());
    }
    if let Err(_) = turn(&mut ids, own, visit.is) {
        return Err(refused(buckets, 0, ValueFault::OutOfMemory));
    }
    keep_list(alloc, buckets, visit.map, visit.id, ids.as_slice())
}

/// An id comes in, or goes out.
fn turn(ids: &mut RisingIds, own: u64, comes: bool) -> Result<(), OutOfMemory>
    ensures turned { OnOk result (ids.new ≡ (if comes then with_id own ids.old else without_id own ids.old)) }
{
    if comes {
        return come(ids, own);
    }
    go(ids, own);
    Ok(())
}

/// An id comes in.
fn come(ids: &mut RisingIds, own: u64) -> Result<(), OutOfMemory>
    ensures comes { OnOk result (ids.new ≡ with_id own ids.old) }
{
    let _before = ids.as_slice();
    ids.add(own)?;
    let _after = ids.as_slice();
    Ok(())
}

/// An id goes out.
fn go(ids: &mut RisingIds, own: u64)
    ensures goes { ids.new ≡ without_id own ids.old }
{
    let _before = ids.as_slice();
    ids.take_out(own);
    let _after = ids.as_slice();
}
