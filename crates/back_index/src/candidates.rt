//! The ways of a block, looked at for a node.
ghost use Rattle.std.specs.Prelude.{◌≡◌, ◌/◌, ℕ, List, [], ◌∷◌, ◌++◌, if◌then◌else◌, IfOk, IfErr, OnOk};
ghost use Rattle.std.specs.List.{filter};
ghost use Rattle.std.specs.FinMap as finite;
ghost use Rattle.osm_base.specs.values.Ids.{AreRisingIds, has};
ghost use Rattle.bucket_store.specs.Image.{Has, Image};
ghost use Rattle.bucket_store.specs.Transaction.{IsReady, IsThere};
ghost use Rattle.store_maps.specs.Asked.{MayEach, MayKey};
ghost use Rattle.store_maps.specs.Maps.{Maps};
ghost use Rattle.store_maps.specs.Named.{index_on, list_it};
ghost use Rattle.value_bytes.specs.Forms.{NeedsFor};
ghost use Rattle.value_bytes.specs.StoreMap.{map_number};
ghost use Rattle.value_bytes.specs.declared.store_map.StoreMap.TheVariants.{Ways};
ghost use Rattle.back_index.specs.Calls.{AsksLists, FindsIds};
ghost use Rattle.back_index.specs.Index.{AreThere, HasNodes, HasWays, HoldsIndex, HoldsWays, IsDamaged, IsNodeless, MayWays};
ghost use Rattle.back_index.specs.Visits.{StopsAt};

use crate::lists::{listers, refused};
use bucket_store::Buckets;
use object_fold::RisingIds;
use osm_base::{Ids, OutOfMemory};
use outside::Disk;
use page_journal::StoreFault;
use std::alloc::Global;
use store_maps::BLOCK;
use value_bytes::{StoreMap, ValueFault, ids_in_front};

/// The rising ids of the ways that list a node. `BadStore` comes with the first page of the bucket of the
/// list of its block, where that is not spelled, or one of the ways in it is not there or does not begin
/// with its nodes.
pub fn ways_of_node<D: Disk>(
    alloc: Global,
    buckets: &mut Buckets<'_, D>,
    id: u64,
) -> Result<Ids, StoreFault>
    requires ready { IsReady buckets.old }
    ensures ids { IfOk result (FindsIds (λ now ids. (maps : Maps) → HoldsIndex now maps → HoldsWays now maps → ids ≡ (index_on maps).ways_of_node id)
        buckets.old) }
    // A way that is not there is a refusal, and is never passed over.
    ensures there { OnOk result ((rest now : Image) → Has rest now buckets.old → HasWays now (id / BLOCK)) }
    ensures asks { AsksLists (MayWays buckets.old id) (IsDamaged buckets.old) buckets.old buckets.new result }
{
    let block = id / BLOCK;
    let ways = match listers(alloc, buckets, StoreMap::WaysOfBlocks, block) {
        Ok(ways) => ways,
        Err(fault) => return Err(fault),
    };
    let page = buckets.page_of(StoreMap::WaysOfBlocks, block);
    ways_with(alloc, buckets, ways.as_slice(), id, page)
}

/// The rising ids of those ways that list a node. `BadStore` comes with this page where one of them is not
/// there, or its value does not begin with its nodes.
fn ways_with<D: Disk>(
    alloc: Global,
    buckets: &mut Buckets<'_, D>,
    ways: &[u64],
    node: u64,
    page: u64,
) -> Result<Ids, StoreFault>
    requires ready { IsReady buckets.old }
    requires rising { AreRisingIds ways.now }
    ensures ids { IfOk result (FindsIds (λ now ids. (maps : Maps) → HoldsWays now maps → ids ≡ filter (list_it maps node) ways.now) buckets.old) }
    ensures there { OnOk result ((rest now : Image) → Has rest now buckets.old → AreThere now ways.now) }
    ensures asks { AsksLists (λ may. MayEach may (map_number Ways) ways.now)
        (λ now. StopsAt (λ way. (nodes : List ℕ) × HasNodes (finite.get (now.maps (map_number Ways)) way) nodes) (λ _. page) ways.now)
        buckets.old buckets.new result }
{
    let mut found = Vec::new(alloc);
    for &way in ways {
        let lists = match lists_node(alloc, buckets, way, node, page) {
            Ok(lists) => lists,
            Err(fault) => return Err(fault),
        };
        if let Err(_) = add_if(&mut found, lists, way) {
            return Err(refused(buckets, page, ValueFault::OutOfMemory));
        }
    }
    Ok(RisingIds::from_vec(found).into_ids())
}

/// Adds a way, if it lists the node.
fn add_if(found: &mut Vec<u64>, lists: bool, way: u64) -> Result<(), OutOfMemory>
    ensures found { OnOk result (found.new.items ≡ found.old.items ++ (if lists then way ∷ [] else [])) }
{
    if lists {
        found.push(way)?;
    }
    Ok(())
}

/// Whether a way lists a node.
fn lists_node<D: Disk>(
    alloc: Global,
    buckets: &mut Buckets<'_, D>,
    way: u64,
    node: u64,
    page: u64,
) -> Result<bool, StoreFault>
    requires ready { IsReady buckets.old }
    ensures lists { IfOk result (λ lists. (rest now : Image) → Has rest now buckets.old
        → (nodes : List ℕ) × HasNodes (finite.get (now.maps (map_number Ways)) way) nodes × (lists ≡ has nodes node)) }
    ensures asks { AsksLists (λ may. MayKey may Ways way)
        (λ now at. (¬ ((nodes : List ℕ) × HasNodes (finite.get (now.maps (map_number Ways)) way) nodes)) × (at ≡ page))
        buckets.old buckets.new result }
{
    if let Err(fault) = buckets.bring(StoreMap::Ways, way) {
        return Err(fault);
    }
    match read_nodes(alloc, buckets, way) {
        Ok(nodes) => Ok(nodes.as_slice().contains(&node)),
        Err(fault) => Err(refused(buckets, page, fault)),
    }
}

/// The nodes of a way whose bucket is there.
fn read_nodes<D: Disk>(alloc: Global, buckets: &Buckets<'_, D>, way: u64) -> Result<Ids, ValueFault>
    requires there { IsThere buckets.now (map_number Ways) way }
    ensures nodes { IfOk result (λ nodes. (rest now : Image) → Has rest now buckets.now → HasNodes (finite.get (now.maps (map_number Ways)) way) nodes) }
    ensures refused { IfErr result (NeedsFor ((rest now : Image) → Has rest now buckets.now → IsNodeless (finite.get (now.maps (map_number Ways)) way))) }
{
    match buckets.value(StoreMap::Ways, way) {
        Some(bytes) => ids_in_front(alloc, bytes),
        None => Err(ValueFault::NotSpelled),
    }
}
