//! What an object lists.
ghost use Rattle.std.specs.Prelude.{◌≡◌, ◌++◌, ℕ, [], IfOk, map};
ghost use Rattle.osm_base.specs.map.Listers.{listed, member_ids};
ghost use Rattle.osm_base.specs.values.Ids.{has};
ghost use Rattle.store_maps.specs.Maps.{block_of};
ghost use Rattle.store_maps.specs.Turns.{blocks_in, listed_by};
ghost use Rattle.back_index.specs.Listed.{ids_in};
ghost use Rattle.back_index.specs.Relisting.{in_order};

use object_fold::RisingIds;
use osm_base::{Kind, Member, Object, OutOfMemory};
use std::alloc::Global;
use store_maps::BLOCK;
use value_bytes::StoreMap;

/// What both forms of an object, that before a change and that after it, list in a map of the index.
#[derive(Drop)]
pub struct Forms {
    /// The ids that its old form lists.
    pub before: RisingIds,
    /// Those that its new form lists.
    pub after: RisingIds,
    /// All of them.
    pub all: RisingIds,
}

impl Forms {
    /// By these forms of the object.
    pub fn of(
        alloc: Global,
        map: StoreMap,
        old: &Option<Object>,
        new: &Option<Object>,
    ) -> Result<Self, OutOfMemory>
        ensures before { IfOk result (λ forms. (id : ℕ) → has forms.before id ≡ has (listed_by (ids_in map) old.now) id) }
        ensures after { IfOk result (λ forms. (id : ℕ) → has forms.after id ≡ has (listed_by (ids_in map) new.now) id) }
        ensures all { IfOk result (λ forms. forms.all ≡ in_order (forms.before ++ forms.after)) }
    {
        let before = RisingIds::from_vec(listed_in(alloc, map, old)?);
        let after = RisingIds::from_vec(listed_in(alloc, map, new)?);
        let all = both(alloc, &before, &after)?;
        Ok(Self { before, after, all })
    }
}

/// The ids that are among these or those.
fn both(alloc: Global, ids: &RisingIds, others: &RisingIds) -> Result<RisingIds, OutOfMemory>
    ensures both { IfOk result (λ all. all ≡ in_order (ids.now ++ others.now)) }
{
    let mut all = Vec::from_slice(alloc, ids.as_slice())?;
    all.extend_from_slice(others.as_slice())?;
    Ok(RisingIds::from_vec(all))
}

/// The ids that an object, if there is one, lists in a map of the index, in the order in which they stand there.
pub fn listed_in(
    alloc: Global,
    map: StoreMap,
    object: &Option<Object>,
) -> Result<Vec<u64>, OutOfMemory>
    ensures ids { IfOk result (λ ids. ids.items ≡ listed_by (ids_in map) object.now) }
{
    match object {
        Some(object) => ids_in(alloc, map, object),
        None => Ok(Vec::new(alloc)),
    }
}

/// The ids that an object lists in a map of the index, in the order in which they stand there.
pub fn ids_in(alloc: Global, map: StoreMap, object: &Object) -> Result<Vec<u64>, OutOfMemory>
    ensures ids { IfOk result (λ ids. ids.items ≡ ids_in map object.now) }
{
    match map {
        StoreMap::WaysOfBlocks => blocks(alloc, object),
        StoreMap::RelationsOfNodes => listed(alloc, object, Kind::Node),
        StoreMap::RelationsOfWays => listed(alloc, object, Kind::Way),
        _ => Ok(Vec::new(alloc)),
    }
}

/// The ids of one kind that an object lists, in the order in which they stand there.
fn listed(alloc: Global, object: &Object, kind: Kind) -> Result<Vec<u64>, OutOfMemory>
    ensures ids { IfOk result (λ ids. ids.items ≡ listed kind object.now) }
{
    match object {
        Object::Way { nodes, .. } if kind == Kind::Node => {
            Ok(Vec::from_slice(alloc, nodes.as_slice())?)
        }
        Object::Relation { members, .. } => member_ids(alloc, members.as_slice(), kind),
        _ => Ok(Vec::new(alloc)),
    }
}

/// The blocks of the nodes that an object lists, in their order.
fn blocks(alloc: Global, object: &Object) -> Result<Vec<u64>, OutOfMemory>
    ensures blocks { IfOk result (λ blocks. blocks.items ≡ blocks_in object.now) }
{
    let nodes = listed(alloc, object, Kind::Node)?;
    blocks_of(alloc, nodes.as_slice())
}

/// The blocks of these nodes.
fn blocks_of(alloc: Global, nodes: &[u64]) -> Result<Vec<u64>, OutOfMemory>
    ensures blocks { IfOk result (λ blocks. blocks.items ≡ map block_of nodes.now) }
{
    let mut blocks = Vec::with_capacity(alloc, nodes.len())?;
    for node in nodes {
        blocks.push(*node / BLOCK)?;
    }
    Ok(blocks)
}

/// The ids of the members of one kind.
fn member_ids(alloc: Global, members: &[Member], kind: Kind) -> Result<Vec<u64>, OutOfMemory>
    ensures ids { IfOk result (λ ids. ids.items ≡ member_ids kind members.now) }
{
    let mut ids = Vec::new(alloc);
    for member in members {
        if member.key.kind == kind {
            ids.push(member.key.id)?;
        }
    }
    Ok(ids)
}
