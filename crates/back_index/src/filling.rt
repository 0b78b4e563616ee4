//! The index of a store that has none, where all objects come at once: each list is put once.
ghost use Rattle.std.specs.Prelude.{◌≡◌, ◌≤◌, ◌++◌, ◌∷◌, ℕ, List, [], false, length, OnOk};
ghost use Rattle.std.specs.List.Sorted.{IsNonDecreasingBy};
ghost use Rattle.osm_base.specs.values.Ids.{AreRisingIds, has};
ghost use Rattle.osm_base.specs.values.Key.{IsId};
ghost use Rattle.bucket_store.specs.Image.{Has, Image, with_value};
ghost use Rattle.bucket_store.specs.Transaction.{IsReady, has_refused};
ghost use Rattle.value_bytes.specs.StoreMap.{map_number};
ghost use Rattle.store_maps.specs.Asked.{MayKey};
ghost use Rattle.store_maps.specs.Filling.{MayListAll};
ghost use Rattle.back_index.specs.Calls.{NoDamage, NoKey, TouchesLists};
ghost use Rattle.back_index.specs.Filling.{AreIds, AreKept, ByIds, Fills, FillsMap, HasNoIndex, IsVoid, MayTold, MentionRuns, id_of, mentions_tell};
ghost use Rattle.back_index.specs.Listed.{map_told};
ghost use Rattle.back_index.specs.Relisting.{kept_list};
ghost use Rattle.back_index.specs.Visits.{OnlyMap};
ghost use Rattle.back_index.specs.declared.mentions.Mention.{Mention as MentionOf};

use crate::lists::{keep_list, refused};
use crate::mentions::{Mention, told};
use bucket_store::Buckets;
use object_fold::RisingIds;
use osm_base::Entry;
use outside::Disk;
use page_journal::StoreFault;
use std::alloc::Global;
use std::mem;
use value_bytes::{StoreMap, ValueFault};

/// The index of a store without a list is what the objects of these entries list.
pub fn fill<D: Disk>(
    alloc: Global,
    buckets: &mut Buckets<'_, D>,
    entries: &[Entry],
) -> Result<(), StoreFault>
    requires ready { IsReady buckets.old }
    ensures fills { OnOk result ((rest now : Image) → Has rest now buckets.old → HasNoIndex now
        → (after : Image) × Has rest after buckets.new × Fills entries.now now after) }
    ensures touches { TouchesLists (λ may. MayListAll may entries.now) NoDamage buckets.old buckets.new result }
{
    if let Err(fault) = fill_map(alloc, buckets, StoreMap::WaysOfBlocks, entries) {
        return Err(fault);
    }
    if let Err(fault) = fill_map(alloc, buckets, StoreMap::RelationsOfNodes, entries) {
        return Err(fault);
    }
    fill_map(alloc, buckets, StoreMap::RelationsOfWays, entries)
}

/// The lists of one map, where it has none.
fn fill_map<D: Disk>(
    alloc: Global,
    buckets: &mut Buckets<'_, D>,
    map: StoreMap,
    entries: &[Entry],
) -> Result<(), StoreFault>
    requires ready { IsReady buckets.old }
    ensures fills { OnOk result (FillsMap map (map_told map entries.now) buckets.old buckets.new) }
    ensures touches { TouchesLists (λ may. MayTold may (map_number map) (map_told map entries.now)) NoDamage buckets.old buckets.new result }
{
    match told(alloc, map, entries) {
        Ok(mentions) => keep_lists(alloc, buckets, map, mentions.as_slice()),
        Err(_) => Err(refused(buckets, 0, ValueFault::OutOfMemory)),
    }
}

/// A list that is not put yet.
#[derive(Drop)]
struct MentionRun {
    /// What is listed.
    id: u64,
    /// The ids of those that list it, as they were told.
    ids: Vec<u64>,
}

/// The lists of one map, where it has none, are those that are told in the order of what is listed.
fn keep_lists<D: Disk>(
    alloc: Global,
    buckets: &mut Buckets<'_, D>,
    map: StoreMap,
    mentions: &[Mention],
) -> Result<(), StoreFault>
    requires ready { IsReady buckets.old }
    requires order { IsNonDecreasingBy id_of mentions.now }
    requires ids { ByIds (mentions_tell mentions.now) }
    ensures fills { OnOk result (FillsMap map (mentions_tell mentions.now) buckets.old buckets.new) }
    ensures touches { TouchesLists (λ may. MayTold may (map_number map) (mentions_tell mentions.now)) NoDamage buckets.old buckets.new result }
{
    if mentions.is_empty() {
        return Ok(());
    }
    let mut run = MentionRun {
        id: mentions[0].id,
        ids: Vec::new(alloc),
    };
    for &mention in mentions {
        if let Err(fault) = add_mention(alloc, buckets, map, &mut run, mention) {
            return Err(fault);
        }
    }
    let MentionRun { id, ids } = run;
    keep_run(alloc, buckets, map, id, ids)
}

/// One more is told. Where it begins another list, the one before it is put.
fn add_mention<D: Disk>(
    alloc: Global,
    buckets: &mut Buckets<'_, D>,
    map: StoreMap,
    run: &mut MentionRun,
    mention: Mention,
) -> Result<(), StoreFault>
    requires ready { IsReady buckets.old }
    requires order { run.old.id ≤ mention.id }
    requires ids { AreIds run.old.ids.items }
    requires own { IsId mention.own }
    ensures runs { OnOk result ((rest now : Image) → Has rest now buckets.old → (after : Image) × Has rest after buckets.new × OnlyMap (map_number map) now after
        × ((done : List MentionOf) → MentionRuns done run.old.id run.old.ids.items (now.maps (map_number map))
        → MentionRuns (done ++ mention ∷ []) run.new.id run.new.ids.items (after.maps (map_number map)))) }
    ensures at { OnOk result (run.new.id ≡ mention.id) }
    ensures ids { OnOk result (AreIds run.new.ids.items) }
    ensures touches { TouchesLists (λ may. MayKey may map run.old.id) NoDamage buckets.old buckets.new result }
{
    if mention.id == run.id {
        return push(buckets, run, mention.own);
    }
    let ids = mem::replace(&mut run.ids, Vec::new(alloc));
    if let Err(fault) = keep_run(alloc, buckets, map, run.id, ids) {
        return Err(fault);
    }
    run.id = mention.id;
    push(buckets, run, mention.own)
}

/// One more id of a list that is not put yet.
fn push<D: Disk>(
    buckets: &mut Buckets<'_, D>,
    run: &mut MentionRun,
    own: u64,
) -> Result<(), StoreFault>
    requires going { has_refused buckets.old ≡ false }
    ensures at { run.new.id ≡ run.old.id }
    ensures ids { OnOk result (run.new.ids.items ≡ run.old.ids.items ++ own ∷ []) }
    ensures has { (rest now : Image) → Has rest now buckets.old → Has rest now buckets.new }
    ensures touches { TouchesLists NoKey NoDamage buckets.old buckets.new result }
{
    match run.ids.push(own) {
        Ok(()) => Ok(()),
        Err(_) => Err(refused(buckets, 0, ValueFault::OutOfMemory)),
    }
}

/// A list is put: of these ids, in any order and as often as they stand there.
fn keep_run<D: Disk>(
    alloc: Global,
    buckets: &mut Buckets<'_, D>,
    map: StoreMap,
    id: u64,
    ids: Vec<u64>,
) -> Result<(), StoreFault>
    requires ready { IsReady buckets.old }
    requires ids { AreIds ids.items }
    ensures keeps { OnOk result ((rest now : Image) → Has rest now buckets.old → (list : List ℕ) × AreRisingIds list × ((own : ℕ) → has list own ≡ has ids.items own)
        × Has rest (with_value (map_number map) id (kept_list list) now) buckets.new) }
    ensures touches { TouchesLists (λ may. MayKey may map id) NoDamage buckets.old buckets.new result }
{
    let ids = RisingIds::from_vec(ids);
    keep_list(alloc, buckets, map, id, ids.as_slice())
}
