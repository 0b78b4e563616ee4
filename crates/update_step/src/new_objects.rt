//! The objects that a change makes of a map without any.
ghost use Rattle.std.specs.Prelude.{◌≡◌, IfOk, OnOk};
ghost use Rattle.std.specs.FinMap as finite;
ghost use Rattle.std.specs.Option.{option_copied};
ghost use Rattle.osm_base.specs.map.Listers.{known_of};
ghost use Rattle.osm_base.specs.map.Objects.{folded_all};
ghost use Rattle.object_fold.specs.Change.{IsChange};
ghost use Rattle.update_step.specs.Named.{key_named};
ghost use Rattle.update_step.specs.NewObjects.{relation_folded, relations_folded};

use crate::named::{named_at, place_of};
use object_fold::{Change, Objects};
use osm_base::{Entry, Key, Kind, Lookup, Object, OutOfMemory, Place, TryCopy};
use std::alloc::Global;
use std::marker::Model;

/// The objects that a change makes of a map without any: the change itself, in whose entries a key is searched, and its
/// relations, which are known by their members. `nodes` is how many of the entries are of nodes: where a search begins.
#[derive(Drop)]
pub(crate) struct NewObjects<'c> {
    change: &'c Change,
    relations: Objects,
    nodes: usize,
}

impl<'c> Model for NewObjects<'c> {
    ghost use Rattle.std.specs.Prelude.{◌≡◌};
    ghost use Rattle.std.specs.FinMap as map;
    ghost use Rattle.osm_base.specs.declared.values.object.Object.{Object};
    ghost use Rattle.osm_base.specs.values.KeyOrder.{key_cmp};
    ghost use Rattle.osm_base.specs.contracts.values.key.Key as key;
    ghost use Rattle.osm_base.specs.contracts.values.object.Object as object;
    ghost use Rattle.osm_base.specs.map.Objects.{folded_all};
    ghost use Rattle.update_step.specs.NewObjects.{relations_folded};

    ghost Value = { map.FinMap key_cmp Object };

    ghost coded = { map.code key.the_row.coded object.the_row.coded };

    ghost view = { λ new. folded_all map.empty new.change.now };

    ghost invariant = { λ new. new.relations ≡ relations_folded new.change.now };
}

impl<'c> NewObjects<'c> {
    /// The objects that this change makes.
    pub(crate) fn of(alloc: Global, change: &'c Change) -> Result<Self, OutOfMemory>
        ensures objects { IfOk result (λ objects. objects ≡ folded_all finite.empty change.now) }
    {
        let relations = relations_of(alloc, change)?;
        let nodes = place_of(change.entries(), 0, Kind::Way, 0);
        Ok(Self {
            change,
            relations,
            nodes,
        })
    }
}

/// The relations among the objects that a change makes.
fn relations_of(alloc: Global, change: &Change) -> Result<Objects, OutOfMemory>
    ensures objects { IfOk result (λ objects. objects ≡ relations_folded change.now) }
{
    let mut relations = Objects::new(alloc);
    for entry in change.entries() {
        add_relation(alloc, &mut relations, entry)?;
    }
    Ok(relations)
}

/// Adds what an entry says, where it is one of a relation.
fn add_relation(alloc: Global, relations: &mut Objects, entry: &Entry) -> Result<(), OutOfMemory>
    ensures ok { OnOk result (relations.new ≡ relation_folded relations.old entry.now) }
{
    if entry.key.kind == Kind::Relation {
        let own = entry.copy(alloc)?;
        return relations.apply(own);
    }
    Ok(())
}

/// The object of this kind with this id.
fn object_at(entries: &[Entry], start: usize, kind: Kind, id: u64) -> Option<&Object>
    requires { IsChange entries.now }
    ensures object { option_copied result ≡ finite.get (folded_all finite.empty entries.now) (key_named kind id) }
{
    match named_at(entries, start, kind, id) {
        Some(object) => object.as_ref(),
        None => None,
    }
}

/// The place of a node, where there is one that has a place.
fn place_at(entries: &[Entry], start: usize, id: u64) -> Option<Place>
    requires { IsChange entries.now }
    ensures place { result ≡ (known_of (folded_all finite.empty entries.now)).place id }
{
    match object_at(entries, start, Kind::Node, id) {
        Some(Object::Node { place, .. }) => *place,
        _ => None,
    }
}

impl Lookup for NewObjects<'_> {
    ghost known = { known_of };

    fn place_of(&self, id: u64) -> Option<Place> {
        place_at(self.change.entries(), self.nodes, id)
    }

    fn object_of(&self, key: Key) -> Option<&Object> {
        object_at(self.change.entries(), self.nodes, key.kind, key.id)
    }

    fn relations_of_way(&self, id: u64) -> &[u64] {
        Lookup::relations_of_way(&self.relations, id)
    }

    fn relations_of_node(&self, id: u64) -> &[u64] {
        Lookup::relations_of_node(&self.relations, id)
    }
}
