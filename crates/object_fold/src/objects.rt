//! The objects of a map, in memory.
ghost use Rattle.std.specs.Prelude.{◌≡◌, ℕ, false, Some, take, IfOk, OnOk, OnErr};
ghost use Rattle.std.proofs.Common.{◌∙◌};
ghost use Rattle.std.specs.FinMap as map;
ghost use Rattle.osm_base.specs.values.Ids.{AreRisingIds};
ghost use Rattle.osm_base.specs.values.KeyOrder.{key_cmp};
ghost use Rattle.osm_base.specs.map.Objects.{folded, folded_all, objects_in, place_in};
ghost use Rattle.osm_base.specs.map.Listers.{index_of, known_of};
ghost use Rattle.osm_base.specs.values.Ids.{has};
ghost use Rattle.object_fold.specs.Listings.{AreListingsOf, AreListedBy, HasIds, AreListed, AddsSome, Turns, added};
ghost use Rattle.object_fold.specs.Objects.{MakesOrKeeps};

mod unlisted;

use crate::Change;
use crate::listed::Listed;
use crate::listings::Listings;
use osm_base::{Back, Entry, Ids, Key, Kind, Lookup, MAX_ID, Object, OutOfMemory, Place};
use std::alloc::Global;
use std::collections::BTreeMap;
use std::marker::Model;
pub use unlisted::UnlistedObjects;

/// The objects of a map by their keys, with the index of who lists them.
#[derive(Drop)]
pub struct Objects {
    alloc: Global,
    objects: BTreeMap<Key, Object>,
    listings: Listings,
}

impl Model for Objects {
    ghost use Rattle.std.specs.FinMap as map;
    ghost use Rattle.osm_base.specs.declared.values.object.Object.{Object};
    ghost use Rattle.osm_base.specs.values.KeyOrder.{key_cmp};
    ghost use Rattle.osm_base.specs.contracts.values.key.Key as key;
    ghost use Rattle.osm_base.specs.contracts.values.object.Object as object;

    ghost Value = { map.FinMap key_cmp Object };

    ghost coded = { map.code key.the_row.coded object.the_row.coded };

    ghost use Rattle.osm_base.specs.map.Objects.{objects_in};
    ghost use Rattle.object_fold.specs.Listings.{AreListingsOf};

    ghost view = { λ objects. objects_in objects.objects };

    ghost invariant = { λ objects. AreListingsOf (objects_in objects.objects) objects.listings };
}

impl Objects {
    /// No object.
    pub fn new(alloc: Global) -> Self
        ensures empty { result ≡ map.empty }
    {
        Self {
            alloc,
            objects: BTreeMap::new(alloc),
            listings: Listings::new(alloc),
        }
    }

    /// What an entry says is so from now on. After `Err` nothing has changed.
    pub fn apply(&mut self, entry: Entry) -> Result<(), OutOfMemory>
        ensures ok { OnOk result (self.new ≡ folded self.old entry) }
        ensures err { OnErr result (self.new ≡ self.old) }
    {
        let Entry { key, object } = entry;
        match object {
            Some(object) => put(
                self.alloc,
                &mut self.objects,
                &mut self.listings,
                key,
                object,
            ),
            None => take_out(self.alloc, &mut self.objects, &mut self.listings, key),
        }
    }

    /// What the entries of a change say is so from now on. After `Err` some first of them were taken.
    /// For callers outside: the program does not use it.
    pub fn fold(&mut self, change: Change) -> Result<(), OutOfMemory>
        ensures ok { OnOk result (self.new ≡ folded_all self.old change) }
        ensures err { OnErr result ((count : ℕ) × (self.new ≡ folded_all self.old (take count change))) }
    {
        for entry in change.into_entries() {
            self.apply(entry)?;
        }
        Ok(())
    }
}

/// What the object of a key lists, if it has one.
fn listed_at(
    alloc: Global,
    objects: &BTreeMap<Key, Object>,
    key: Key,
) -> Result<Listed, OutOfMemory>
    ensures ids { IfOk result (AreListedBy (map.get (objects_in objects.now) key)) }
{
    match objects.get(&key) {
        Some(object) => Listed::of(alloc, object),
        None => Ok(Listed::none(alloc)),
    }
}

/// The place of a node, where there is one that has a place.
fn place_at(objects: &BTreeMap<Key, Object>, id: u64) -> Option<Place>
    requires { HasIds (objects_in objects.now) }
    ensures place { result ≡ (known_of (objects_in objects.now)).place id }
{
    if id < 1 || id > MAX_ID {
        return None;
    }
    match objects.get(&Key::new(Kind::Node, id)) {
        Some(object) => place_in(object),
        None => None,
    }
}

/// The place of an object that is a node.
fn place_in(object: &Object) -> Option<Place>
    ensures place { result ≡ place_in (Some object.now) }
{
    match object {
        Object::Node { place, .. } => *place,
        _ => None,
    }
}

/// Gives a key this object in the tree.
fn set_object(
    objects: &mut BTreeMap<Key, Object>,
    key: Key,
    object: Object,
) -> Result<(), OutOfMemory>
    ensures objects { MakesOrKeeps result (objects_in objects.old) (map.insert (objects_in objects.old) key object)
        (objects_in objects.new) }
{
    objects.insert(key, object)?;
    Ok(())
}

/// Takes the object of a key out of the tree, if it has one.
fn remove_object(objects: &mut BTreeMap<Key, Object>, key: Key)
    ensures { objects_in objects.new ≡ map.remove (objects_in objects.old) key }
{
    objects.remove(&key);
}

/// Gives a key this object, and lists what it lists beside what was listed before. After `Err` only
/// some of that is listed too.
fn insert(
    alloc: Global,
    objects: &mut BTreeMap<Key, Object>,
    listings: &mut Listings,
    key: Key,
    object: Object,
    ids: &Listed,
) -> Result<(), OutOfMemory>
    ensures objects { MakesOrKeeps result (objects_in objects.old) (map.insert (objects_in objects.old) key object)
        (objects_in objects.new) }
    ensures listed { OnOk result (Turns (added key ids.now) listings.old listings.new) }
    ensures some { OnErr result (AddsSome key ids.now listings.old listings.new) }
{
    listings.add(alloc, key, ids)?;
    set_object(objects, key, object)?;
    Ok(())
}

/// Gives a key this object. What a node lists is asked by nobody, so for a node the listings stay.
fn put(
    alloc: Global,
    objects: &mut BTreeMap<Key, Object>,
    listings: &mut Listings,
    key: Key,
    object: Object,
) -> Result<(), OutOfMemory>
    requires { AreListingsOf (objects_in objects.old) listings.old }
    ensures objects { MakesOrKeeps result (objects_in objects.old) (map.insert (objects_in objects.old) key object)
        (objects_in objects.new) }
    ensures listings { AreListingsOf (objects_in objects.new) listings.new }
{
    prove!(1 <= key.id && key.id <= MAX_ID);
    if key.kind == Kind::Node {
        set_object(objects, key, object)?;
        return Ok(());
    }
    let old = listed_at(alloc, objects, key)?;
    let new = Listed::of(alloc, &object)?;
    if let Err(why) = insert(alloc, objects, listings, key, object, &new) {
        listings.take_out(key, &new, &old);
        return Err(why);
    }
    listings.take_out(key, &old, &new);
    Ok(())
}

/// Takes the object of a key away, if it has one.
fn take_out(
    alloc: Global,
    objects: &mut BTreeMap<Key, Object>,
    listings: &mut Listings,
    key: Key,
) -> Result<(), OutOfMemory>
    requires { AreListingsOf (objects_in objects.old) listings.old }
    ensures objects { MakesOrKeeps result (objects_in objects.old) (map.remove (objects_in objects.old) key) (objects_in objects.new) }
    ensures listings { AreListingsOf (objects_in objects.new) listings.new }
{
    if key.kind == Kind::Node {
        remove_object(objects, key);
        return Ok(());
    }
    let old = listed_at(alloc, objects, key)?;
    remove_object(objects, key);
    listings.take_out(key, &old, &Listed::none(alloc));
    Ok(())
}

impl Lookup for Objects {
    ghost known = { known_of };

    fn place_of(&self, id: u64) -> Option<Place> {
        place_at(&self.objects, id)
    }

    fn object_of(&self, key: Key) -> Option<&Object> {
        self.objects.get(&key)
    }

    fn relations_of_way(&self, id: u64) -> &[u64] {
        self.listings.relations_of_ways.listers(id)
    }

    fn relations_of_node(&self, id: u64) -> &[u64] {
        self.listings.relations_of_nodes.listers(id)
    }
}

impl Objects {
    /// The rising ids of the ways that list a node.
    fn ways_at(&self, id: u64) -> Result<Ids, OutOfMemory>
        ensures ids { IfOk result (λ ids. ids ≡ (index_of self.now).ways_of_node id) }
        ensures rising { IfOk result AreRisingIds }
    {
        copied(self.alloc, self.listings.ways_of_nodes.listers(id))
    }

    /// The rising ids of the relations that have a node as a member.
    fn relations_at(&self, id: u64) -> Result<Ids, OutOfMemory>
        ensures ids { IfOk result (λ ids. ids ≡ (index_of self.now).relations_of_node id) }
        ensures rising { IfOk result AreRisingIds }
    {
        copied(self.alloc, self.listings.relations_of_nodes.listers(id))
    }

    /// The rising ids of the relations that have a way as a member.
    fn relations_along(&self, id: u64) -> Result<Ids, OutOfMemory>
        ensures ids { IfOk result (λ ids. ids ≡ (index_of self.now).relations_of_way id) }
        ensures rising { IfOk result AreRisingIds }
    {
        copied(self.alloc, self.listings.relations_of_ways.listers(id))
    }
}

impl Back for Objects {
    type Refusal = OutOfMemory;

    ghost knows = { λ objects index. index ≡ index_of objects };

    ghost faults = { λ _. 0 };

    ghost spent = { λ _. false };

    ghost bears = { λ _ _ _. Unit {0} };

    // Being asked changes nothing.
    ghost asks = { λ old _ new. new ≡ old };

    fn ways_of_node(&mut self, id: u64) -> Result<Ids, OutOfMemory> {
        self.ways_at(id)
    }

    fn relations_of_node(&mut self, id: u64) -> Result<Ids, OutOfMemory> {
        self.relations_at(id)
    }

    fn relations_of_way(&mut self, id: u64) -> Result<Ids, OutOfMemory> {
        self.relations_along(id)
    }

    ghost bears_fewer = { λ _ _ _ _ _ _. tt };

    ghost asks_none = { λ back i. back };

    ghost asks_then = { λ _ _ _ _ _ once again. again ∙ once };
}

/// The index of objects that are only read.
#[derive(Drop)]
pub struct ObjectIndex<'o> {
    objects: &'o Objects,
}

impl<'o> Model for ObjectIndex<'o> {
    ghost use Rattle.std.specs.FinMap as map;
    ghost use Rattle.osm_base.specs.declared.values.object.Object.{Object};
    ghost use Rattle.osm_base.specs.values.KeyOrder.{key_cmp};
    ghost use Rattle.osm_base.specs.contracts.values.key.Key as key;
    ghost use Rattle.osm_base.specs.contracts.values.object.Object as object;

    ghost Value = { map.FinMap key_cmp Object };

    ghost coded = { map.code key.the_row.coded object.the_row.coded };

    ghost view = { λ index. index.objects.now };
}

impl<'o> ObjectIndex<'o> {
    /// The index of these objects.
    pub fn new(objects: &'o Objects) -> Self
        ensures objects { result ≡ objects.now }
    {
        Self { objects }
    }
}

impl Back for ObjectIndex<'_> {
    type Refusal = OutOfMemory;

    ghost knows = { λ objects index. index ≡ index_of objects };

    ghost faults = { λ _. 0 };

    ghost spent = { λ _. false };

    ghost bears = { λ _ _ _. Unit {0} };

    // Being asked changes nothing.
    ghost asks = { λ old _ new. new ≡ old };

    fn ways_of_node(&mut self, id: u64) -> Result<Ids, OutOfMemory> {
        self.objects.ways_at(id)
    }

    fn relations_of_node(&mut self, id: u64) -> Result<Ids, OutOfMemory> {
        self.objects.relations_at(id)
    }

    fn relations_of_way(&mut self, id: u64) -> Result<Ids, OutOfMemory> {
        self.objects.relations_along(id)
    }

    ghost bears_fewer = { λ _ _ _ _ _ _. tt };

    ghost asks_none = { λ back i. back };

    ghost asks_then = { λ _ _ _ _ _ once again. again ∙ once };
}

/// A list of these ids.
fn copied(alloc: Global, ids: &[u64]) -> Result<Ids, OutOfMemory>
    ensures ids { IfOk result (λ copy. copy ≡ ids.now) }
{
    Ok(Ids::from_vec(Vec::from_slice(alloc, ids)?))
}
