//! The objects of a store as they are kept in memory while its lists and its rows are judged.
ghost use Rattle.std.specs.Prelude.{◌≡◌, OnErr, OnOk};
ghost use Rattle.osm_base.specs.values.Key.{IsId};
ghost use Rattle.store_check.specs.Held.{held_known, nothing_held, with_place, with_relation, with_way};

use crate::places::Places;
use object_fold::Objects;
use osm_base::{Entry, Key, Kind, Lookup, Object, OutOfMemory, Place, TryCopy};
use std::alloc::Global;
use std::collections::BTreeMap;
use std::marker::Model;

/// The place of each node that has one, the ways, and the relations with the index of who lists what.
#[derive(Drop)]
pub struct Held {
    alloc: Global,
    pub(crate) places: Places,
    pub(crate) ways: BTreeMap<u64, Object>,
    pub(crate) relations: BTreeMap<u64, Object>,
    pub(crate) members: Objects,
}

impl Model for Held {
    ghost use Rattle.std.specs.FinMap as finite;
    ghost use Rattle.store_check.specs.Held.{HeldOf, held_coded};

    ghost Value = { HeldOf };

    ghost coded = { held_coded };

    ghost view = { λ own. record {
      places = own.places;
      ways = finite.from_entries own.ways.entries;
      relations = finite.from_entries own.relations.entries;
      members = own.members;
    } };
}

impl Held {
    /// No object. The nodes are to come from so many buckets.
    pub(crate) fn new(alloc: Global, buckets: u64) -> Self
        ensures nothing { result ≡ nothing_held }
    {
        Self {
            alloc,
            places: Places::new(alloc, buckets),
            ways: BTreeMap::new(alloc),
            relations: BTreeMap::new(alloc),
            members: Objects::new(alloc),
        }
    }

    /// Keeps the place of a node.
    pub(crate) fn put_place(&mut self, id: u64, place: Place) -> Result<(), OutOfMemory>
        ensures ok { OnOk result (self.new ≡ with_place self.old id place) }
        ensures err { OnErr result (self.new ≡ self.old) }
    {
        self.places.put(id, place)?;
        Ok(())
    }

    /// Keeps a way.
    pub(crate) fn put_way(&mut self, id: u64, way: Object) -> Result<(), OutOfMemory>
        ensures ok { OnOk result (self.new ≡ with_way self.old id way) }
    {
        self.ways.insert(id, way)?;
        Ok(())
    }

    /// Keeps a relation, and lists its members.
    pub(crate) fn put_relation(&mut self, id: u64, relation: Object) -> Result<(), OutOfMemory>
        requires id { IsId id }
        ensures ok { OnOk result (self.new ≡ with_relation self.old id relation) }
    {
        let copy = relation.copy(self.alloc)?;
        self.members.apply(Entry {
            key: Key::new(Kind::Relation, id),
            object: Some(copy),
        })?;
        self.relations.insert(id, relation)?;
        Ok(())
    }
}

impl Lookup for Held {
    ghost known = { held_known };

    fn place_of(&self, id: u64) -> Option<Place> {
        self.places.get(id)
    }

    fn object_of(&self, key: Key) -> Option<&Object> {
        match key.kind {
            Kind::Node => None,
            Kind::Way => self.ways.get(&key.id),
            Kind::Relation => self.members.object_of(key),
        }
    }

    fn relations_of_way(&self, id: u64) -> &[u64] {
        Lookup::relations_of_way(&self.members, id)
    }

    fn relations_of_node(&self, id: u64) -> &[u64] {
        Lookup::relations_of_node(&self.members, id)
    }
}
