//! The objects that a first file makes, before anybody asks who lists them.
ghost use Rattle.std.specs.Prelude.{◌≡◌, IfOk, OnOk, OnErr};
ghost use Rattle.std.specs.FinMap as map;
ghost use Rattle.osm_base.specs.map.Objects.{folded};
ghost use Rattle.placed_objects.specs.Objects.{looked_up_alone};

use crate::PlacedObjects;
use crate::node_places::NodePlaces;
use crate::objects::{is_node, put_plain};
use object_fold::UnlistedObjects;
use osm_base::{Entry, Key, Lookup, Object, OutOfMemory, Place};
use std::alloc::Global;
use std::marker::Model;

/// The objects of a map by their keys, of which nobody asks yet who lists them.
#[derive(Drop)]
pub struct PlacedImport {
    /// Nodes with a place and without a tag.
    places: NodePlaces,
    /// All other objects, and nodes that came out of order.
    others: UnlistedObjects,
}

impl Model for PlacedImport {
    ghost use Rattle.std.specs.FinMap as map;
    ghost use Rattle.osm_base.specs.declared.values.object.Object.{Object};
    ghost use Rattle.osm_base.specs.values.KeyOrder.{key_cmp};
    ghost use Rattle.osm_base.specs.contracts.values.key.Key as key;
    ghost use Rattle.osm_base.specs.contracts.values.object.Object as object;
    ghost use Rattle.placed_objects.specs.Objects.{joined_objects};

    ghost Value = { map.FinMap key_cmp Object };

    ghost coded = { map.code key.the_row.coded object.the_row.coded };

    ghost view = { λ own. joined_objects own.places own.others };
}

impl PlacedImport {
    /// No object.
    pub fn new(alloc: Global) -> Self
        ensures empty { result ≡ map.empty }
    {
        Self {
            places: NodePlaces::new(alloc),
            others: UnlistedObjects::new(alloc),
        }
    }

    /// What an entry says is so from now on. After `Err` nothing has changed.
    pub fn apply(&mut self, entry: Entry) -> Result<(), OutOfMemory>
        ensures ok { OnOk result (self.new ≡ folded self.old entry) }
        ensures err { OnErr result (self.new ≡ self.old) }
    {
        let key = entry.key;
        if !is_node(key) {
            return self.others.apply(entry);
        }
        if put_plain(&mut self.places, &entry)? {
            return Ok(());
        }
        self.others.apply(entry)?;
        self.places.take_out(key.id);
        Ok(())
    }

    /// The same objects, with the index of who lists them.
    pub fn into_placed(self) -> Result<PlacedObjects, OutOfMemory>
        ensures same { IfOk result (λ placed. placed ≡ self) }
    {
        let Self { places, others } = self;
        let others = others.into_objects()?;
        Ok(PlacedObjects { places, others })
    }
}

impl Lookup for PlacedImport {
    ghost known = { looked_up_alone };

    fn place_of(&self, id: u64) -> Option<Place> {
        match self.places.get(id) {
            Some(place) => Some(place),
            None => self.others.place_of(id),
        }
    }

    // A node that is known by its place is not lent.
    fn object_of(&self, key: Key) -> Option<&Object> {
        if is_node(key) {
            return None;
        }
        self.others.object_of(key)
    }

    // Who lists an object is told by `PlacedObjects` alone.
    fn relations_of_way(&self, id: u64) -> &[u64] {
        &[]
    }

    fn relations_of_node(&self, id: u64) -> &[u64] {
        &[]
    }
}
