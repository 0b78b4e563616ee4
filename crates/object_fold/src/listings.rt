//! The index of the objects of a map, in memory.
ghost use Rattle.std.specs.Prelude.{◌≡◌, OnOk, OnErr};
ghost use Rattle.std.specs.FinMap as map;
ghost use Rattle.object_fold.specs.Listings.{Turns, AddsSome, added, taken};

use crate::listed::Listed;
use crate::listing::Listing;
use osm_base::{Key, Kind, OutOfMemory};
use std::alloc::Global;

/// Who lists the nodes and the ways of a map.
#[derive(Drop)]
pub struct Listings {
    pub ways_of_nodes: Listing,
    pub relations_of_nodes: Listing,
    pub relations_of_ways: Listing,
}

impl Listings {
    /// Nothing is listed.
    pub fn new(alloc: Global) -> Self
        ensures ways_of_nodes { result.ways_of_nodes ≡ map.empty }
        ensures relations_of_nodes { result.relations_of_nodes ≡ map.empty }
        ensures relations_of_ways { result.relations_of_ways ≡ map.empty }
    {
        Self {
            ways_of_nodes: Listing::new(alloc),
            relations_of_nodes: Listing::new(alloc),
            relations_of_ways: Listing::new(alloc),
        }
    }

    /// These ids are listed by the object of this key too. After `Err` some of them are.
    pub fn add(&mut self, alloc: Global, key: Key, ids: &Listed) -> Result<(), OutOfMemory>
        ensures ok { OnOk result (Turns (added key ids.now) self.old self.new) }
        ensures err { OnErr result (AddsSome key ids.now self.old self.new) }
    {
        match key.kind {
            Kind::Node => Ok(()),
            Kind::Way => self
                .ways_of_nodes
                .list_all(alloc, ids.nodes.as_slice(), key.id),
            Kind::Relation => {
                self.relations_of_nodes
                    .list_all(alloc, ids.nodes.as_slice(), key.id)?;
                self.relations_of_ways
                    .list_all(alloc, ids.ways.as_slice(), key.id)
            }
        }
    }

    /// These ids but for those are no longer listed by the object of this key.
    pub fn take_out(&mut self, key: Key, ids: &Listed, but: &Listed)
        ensures turns { Turns (taken key ids.now but.now) self.old self.new }
    {
        match key.kind {
            Kind::Node => {}
            Kind::Way => self
                .ways_of_nodes
                .unlist_all(ids.nodes.as_slice(), &but.nodes, key.id),
            Kind::Relation => {
                self.relations_of_nodes
                    .unlist_all(ids.nodes.as_slice(), &but.nodes, key.id);
                self.relations_of_ways
                    .unlist_all(ids.ways.as_slice(), &but.ways, key.id);
            }
        }
    }
}
