//! The objects whose rows a change may change.
ghost use Rattle.std.specs.Prelude.{◌≡◌, IfOk};
ghost use Rattle.osm_base.specs.values.Ids.{AreRisingIds};

use crate::{Ids, OutOfMemory, TryCopy};
use std::alloc::Global;
use std::marker::Model;

/// Nodes, ways and relations that wait until their rows are built anew, each list by rising ids.
#[derive(Drop)]
pub struct PendingSet {
    nodes: Ids,
    ways: Ids,
    relations: Ids,
}

impl Model for PendingSet {
    ghost use Rattle.osm_base.specs.values.Ids.{AreRisingIds};
    ghost use Rattle.osm_base.specs.map.Pending.{PendingOf};

    ghost Value = { PendingOf };

    ghost view = { λ set. record { nodes = set.nodes; ways = set.ways; relations = set.relations } };

    ghost invariant = { λ set. AreRisingIds set.nodes × AreRisingIds set.ways × AreRisingIds set.relations };
}

impl PendingSet {
    /// The set of these ids.
    pub fn new(nodes: Ids, ways: Ids, relations: Ids) -> Self
        requires nodes { AreRisingIds nodes }
        requires ways { AreRisingIds ways }
        requires relations { AreRisingIds relations }
        ensures ids { result ≡ record { nodes = nodes; ways = ways; relations = relations } }
    {
        Self {
            nodes,
            ways,
            relations,
        }
    }

    /// The nodes.
    pub fn nodes(&self) -> &[u64]
        ensures ids { result.now ≡ self.now.nodes }
        ensures rising { AreRisingIds result.now }
    {
        self.nodes.as_slice()
    }

    /// The ways.
    pub fn ways(&self) -> &[u64]
        ensures ids { result.now ≡ self.now.ways }
        ensures rising { AreRisingIds result.now }
    {
        self.ways.as_slice()
    }

    /// The relations.
    pub fn relations(&self) -> &[u64]
        ensures ids { result.now ≡ self.now.relations }
        ensures rising { AreRisingIds result.now }
    {
        self.relations.as_slice()
    }
}

impl TryCopy for PendingSet {
    fn copy(&self, alloc: Global) -> Result<Self, OutOfMemory> {
        Ok(Self {
            nodes: self.nodes.copy(alloc)?,
            ways: self.ways.copy(alloc)?,
            relations: self.relations.copy(alloc)?,
        })
    }
}
