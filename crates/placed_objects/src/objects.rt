//! The objects of a map, of which most nodes are known by their places alone.
ghost use Rattle.std.specs.Prelude.{◌≡◌, ℕ, true, Some, cond, take, IfOk, IfSome, OnOk, OnErr};
ghost use Rattle.std.specs.FinMap as map;
ghost use Rattle.osm_base.specs.declared.values.key.Kind.TheVariants as kinds;
ghost use Rattle.osm_base.specs.map.Listers.{index_of, is_kind};
ghost use Rattle.osm_base.specs.map.Objects.{ObjectSet, folded, folded_all};
ghost use Rattle.placed_objects.specs.Objects.{joined_objects, looked_up, plain};

use crate::node_places::NodePlaces;
use object_fold::{Change, ObjectIndex, Objects};
use osm_base::{Entry, Key, Kind, Lookup, Object, OutOfMemory, Place};
use std::alloc::Global;
use std::marker::Model;

/// The objects of a map by their keys, with the index of who lists them.
#[derive(Drop)]
pub struct PlacedObjects {
    /// Nodes with a place and without a tag.
    pub(crate) places: NodePlaces,
    /// All other objects, and nodes that came out of order.
    pub(crate) others: Objects,
}

impl Model for PlacedObjects {
    ghost use Rattle.std.specs.FinMap as map;
    ghost use Rattle.osm_base.specs.declared.values.object.Object.{Object};
    ghost use Rattle.osm_base.specs.values.KeyOrder.{key_cmp};
    ghost use Rattle.osm_base.specs.contracts.values.key.Key as key;
    ghost use Rattle.osm_base.specs.contracts.values.object.Object as object;
    ghost use Rattle.placed_objects.specs.Objects.{joined_objects};

    ghost Value = { map.FinMap key_cmp Object };

    ghost coded = { map.code key.the_row.coded object.the_row.coded };

    ghost view = { λ own. joined_objects own.places own.others };
}

impl PlacedObjects {
    /// No object.
    pub fn new(alloc: Global) -> Self
        ensures empty { result ≡ map.empty }
    {
        Self {
            places: NodePlaces::new(alloc),
            others: Objects::new(alloc),
        }
    }

    /// What an entry says is so from now on. After `Err` nothing has changed.
    pub fn apply(&mut self, entry: Entry) -> Result<(), OutOfMemory>
        ensures ok { OnOk result (self.new ≡ folded self.old entry) }
        ensures err { OnErr result (self.new ≡ self.old) }
    {
        let key = entry.key;
        if !is_node(key) {
            return self.others.apply(entry);
        }
        if put_plain(&mut self.places, &entry)? {
            return Ok(());
        }
        self.others.apply(entry)?;
        self.places.take_out(key.id);
        Ok(())
    }

    /// What the entries of a change say is so from now on. After `Err` some first of them were taken.
    pub fn fold(&mut self, change: Change) -> Result<(), OutOfMemory>
        ensures ok { OnOk result (self.new ≡ folded_all self.old change) }
        ensures err { OnErr result ((count : ℕ) × (self.new ≡ folded_all self.old (take count change))) }
    {
        for entry in change.into_entries() {
            self.apply(entry)?;
        }
        Ok(())
    }

    /// The index of who lists them.
    pub fn index(&self) -> ObjectIndex<'_>
        ensures same { index_of result ≡ index_of self.now }
    {
        ObjectIndex::new(&self.others)
    }
}

/// Whether a key is that of a node.
pub(crate) fn is_node(key: Key) -> bool
    ensures { result ≡ is_kind key.kind kinds.Node }
{
    key.kind == Kind::Node
}

/// Puts the node that an entry makes among the places, where it is no more than its place. `false`: it is, or it came out of order.
pub(crate) fn put_plain(places: &mut NodePlaces, entry: &Entry) -> Result<bool, OutOfMemory>
    requires { is_kind entry.now.key.kind kinds.Node ≡ true }
    ensures ok { IfOk result (λ put. (others : ObjectSet) → joined_objects places.new others
        ≡ cond put (folded (joined_objects places.old others) entry.now) (joined_objects places.old others)) }
    ensures err { OnErr result (places.new ≡ places.old) }
{
    let key = entry.key;
    match plain_place(entry) {
        Some(place) => places.put(key.id, place),
        None => Ok(false),
    }
}

/// The place of the node that an entry makes, where it has no tag.
fn plain_place(entry: &Entry) -> Option<Place>
    ensures plain { IfSome result (λ place. entry.now.object ≡ Some (plain place)) }
{
    match &entry.object {
        Some(Object::Node { place, tags }) if tags.is_empty() => *place,
        _ => None,
    }
}

impl Lookup for PlacedObjects {
    ghost known = { looked_up };

    fn place_of(&self, id: u64) -> Option<Place> {
        match self.places.get(id) {
            Some(place) => Some(place),
            None => Lookup::place_of(&self.others, id),
        }
    }

    // A node that is known by its place is not lent.
    fn object_of(&self, key: Key) -> Option<&Object> {
        if is_node(key) {
            return None;
        }
        self.others.object_of(key)
    }

    fn relations_of_way(&self, id: u64) -> &[u64] {
        Lookup::relations_of_way(&self.others, id)
    }

    fn relations_of_node(&self, id: u64) -> &[u64] {
        Lookup::relations_of_node(&self.others, id)
    }
}
