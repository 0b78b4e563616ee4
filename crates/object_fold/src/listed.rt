//! What an object lists.
ghost use Rattle.std.specs.Prelude.{◌≡◌, ◌++◌, [], take, IfOk};
ghost use Rattle.osm_base.specs.declared.values.key.Kind.TheVariants as kinds;
ghost use Rattle.osm_base.specs.map.Listers.{member_ids};
ghost use Rattle.object_fold.specs.Listings.{AreListed};

use crate::RisingIds;
use osm_base::{Kind, Member, Object, OutOfMemory};
use std::alloc::Global;

/// The ids of the nodes and of the ways that an object lists.
#[derive(Drop)]
pub struct Listed {
    pub nodes: RisingIds,
    pub ways: RisingIds,
}

/// The ids of the members of one kind.
fn member_ids(alloc: Global, members: &[Member], kind: Kind) -> Result<Vec<u64>, OutOfMemory>
    ensures ids { IfOk result (λ ids. ids.items ≡ member_ids kind members.now) }
{
    let mut ids = Vec::new(alloc);
    for member in members {
        if member.key.kind == kind {
            ids.push(member.key.id)?;
        }
    }
    Ok(ids)
}

impl Listed {
    /// No id.
    pub fn none(alloc: Global) -> Self
        ensures nodes { result.nodes ≡ [] }
        ensures ways { result.ways ≡ [] }
    {
        Self {
            nodes: RisingIds::new(alloc),
            ways: RisingIds::new(alloc),
        }
    }

    /// What an object lists: a way its nodes, a relation its members.
    pub fn of(alloc: Global, object: &Object) -> Result<Self, OutOfMemory>
        ensures ids { IfOk result (AreListed object.now) }
    {
        match object {
            Object::Node { .. } => Ok(Self::none(alloc)),
            Object::Way { nodes, .. } => Ok(Self {
                nodes: RisingIds::from_vec(Vec::from_slice(alloc, nodes.as_slice())?),
                ways: RisingIds::new(alloc),
            }),
            Object::Relation { members, .. } => Ok(Self {
                nodes: RisingIds::from_vec(member_ids(alloc, members.as_slice(), Kind::Node)?),
                ways: RisingIds::from_vec(member_ids(alloc, members.as_slice(), Kind::Way)?),
            }),
        }
    }
}
