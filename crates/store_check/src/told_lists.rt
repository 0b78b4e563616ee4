//! What the ways or the relations of a store list.
ghost use Rattle.std.specs.Prelude.{◌≡◌, ℕ, IfOk};
ghost use Rattle.std.specs.FinMap as finite;
ghost use Rattle.std.specs.Ordering.{nat_cmp};
ghost use Rattle.std.specs.List.Sorted.{IsNonDecreasingBy};
ghost use Rattle.osm_base.specs.values.Ids.{has};
ghost use Rattle.store_maps.specs.Turns.{listed_by};
ghost use Rattle.back_index.specs.Filling.{id_of, mentions_tell};
ghost use Rattle.back_index.specs.Listed.{ids_in};
ghost use Rattle.store_check.specs.Lists.{held_tell, listers_of};

use crate::held::Held;
use back_index::{Mention, add_listed, sort_mentions};
use osm_base::{Object, OutOfMemory};
use std::alloc::Global;
use std::collections::BTreeMap;
use value_bytes::StoreMap;

/// What the ways or the relations that are held list in a map of lists, in the order of what is listed.
pub(crate) fn told_by_held(
    alloc: Global,
    map: StoreMap,
    held: &Held,
) -> Result<Vec<Mention>, OutOfMemory>
    ensures told { IfOk result (λ mentions. (id by : ℕ) → mentions_tell mentions.items id by ≡ held_tell map held.now id by) }
    ensures order { IfOk result (λ mentions. IsNonDecreasingBy id_of mentions.items) }
{
    let mut mentions = told_in_turn(alloc, map, listers_of(map, held))?;
    sort_mentions(&mut mentions);
    Ok(mentions)
}

/// Those that list something in a map of lists.
fn listers_of(map: StoreMap, held: &Held) -> &BTreeMap<u64, Object>
    ensures listers { finite.from_entries {R = nat_cmp} result.now.entries ≡ listers_of map held.now }
{
    match map {
        StoreMap::WaysOfBlocks => &held.ways,
        _ => &held.relations,
    }
}

/// What these objects, each by its id, list in a map of lists, in their order.
fn told_in_turn(
    alloc: Global,
    map: StoreMap,
    objects: &BTreeMap<u64, Object>,
) -> Result<Vec<Mention>, OutOfMemory>
    ensures told { IfOk result (λ mentions. (id by : ℕ) → mentions_tell mentions.items id by
        ≡ has (listed_by (ids_in map) (finite.get (finite.from_entries {R = nat_cmp} objects.now.entries) by)) id) }
{
    let mut mentions = Vec::new(alloc);
    for (own, object) in objects {
        add_listed(alloc, map, *own, object, &mut mentions)?;
    }
    Ok(mentions)
}
