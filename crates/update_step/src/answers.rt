//! What a change says and a store answered, for the rows that are built of it.
ghost use Rattle.std.specs.Prelude.{◌≡◌, is_some, false, OnOk};
ghost use Rattle.std.specs.Option.{option_copied};
ghost use Rattle.update_step.specs.Gather.{AtNode, OfKey, gathered_in, flattened, known_in, said_by, was_asked, with_along, with_around, with_form, with_place};
ghost use Rattle.update_step.specs.Named.{key_named, named_in};

use crate::asks::Ask;
use crate::listers::Listers;
use crate::named::{named_at, place_in, place_of};
use object_fold::Change;
use osm_base::{Key, Kind, Lookup, Object, OutOfMemory, Place};
use std::alloc::Global;
use std::collections::BTreeMap;

/// Places of nodes, objects of keys, and the relations that have a way or a node as a member. What the change names is looked up
/// in it, and the answers of a store to what else was asked are kept. `nodes` is how many of its entries are of nodes: where a
/// search begins.
#[derive(Drop)]
pub(crate) struct StoreAnswers<'c> {
    change: &'c Change,
    nodes: usize,
    places: BTreeMap<u64, Option<Place>>,
    forms: BTreeMap<Key, Option<Object>>,
    along_ways: BTreeMap<u64, Listers>,
    around_nodes: BTreeMap<u64, Listers>,
}

impl<'c> StoreAnswers<'c> {
    /// Those that a change has.
    pub(crate) fn new(alloc: Global, change: &'c Change) -> Self
        ensures said { gathered_in result ≡ said_by change.now }
    {
        let nodes = place_of(change.entries(), 0, Kind::Way, 0);
        Self {
            change,
            nodes,
            places: BTreeMap::new(alloc),
            forms: BTreeMap::new(alloc),
            along_ways: BTreeMap::new(alloc),
            around_nodes: BTreeMap::new(alloc),
        }
    }

    /// What the change says of the object of this kind with this id. `None`: it does not name it.
    fn named(&self, kind: Kind, id: u64) -> Option<&Option<Object>>
        ensures named { option_copied result ≡ named_in self.now.change.now (key_named kind id) }
    {
        named_at(self.change.entries(), self.nodes, kind, id)
    }

    /// Whether the place of a node is there.
    fn has_place(&self, id: u64) -> bool
        ensures there { result ≡ is_some ((gathered_in self.now).places id) }
    {
        match self.named(Kind::Node, id) {
            Some(_) => true,
            None => self.places.contains_key(&id),
        }
    }

    /// Whether the object of a key is there.
    fn has_form(&self, key: Key) -> bool
        ensures there { result ≡ is_some ((gathered_in self.now).forms key) }
    {
        match self.named(key.kind, key.id) {
            Some(_) => true,
            None => self.forms.contains_key(&key),
        }
    }

    /// Whether the answer to this is there.
    pub(crate) fn has(&self, ask: &Ask) -> bool
        ensures asked { result ≡ was_asked (gathered_in self.now) ask.now }
    {
        match *ask {
            Ask::AtNode(id) => self.has_place(id),
            Ask::OfKey(key) => self.has_form(key),
            Ask::AlongWay(id) => self.along_ways.contains_key(&id),
            Ask::AroundNode(id) => self.around_nodes.contains_key(&id),
        }
    }

    /// The object of a key. `None`: it was not asked.
    pub(crate) fn form(&self, key: Key) -> Option<&Option<Object>>
        ensures form { flattened (option_copied result) ≡ (known_in (gathered_in self.now)).object key }
    {
        match self.named(key.kind, key.id) {
            Some(form) => Some(form),
            None => self.forms.get(&key),
        }
    }

    /// Keeps the place of a node, which was not there.
    pub(crate) fn put_place(&mut self, id: u64, place: Option<Place>) -> Result<(), OutOfMemory>
        requires anew { was_asked (gathered_in self.old) (AtNode id) ≡ false }
        ensures ok { OnOk result (gathered_in self.new ≡ with_place (gathered_in self.old) id place) }
    {
        self.places.insert(id, place)?;
        Ok(())
    }

    /// Keeps the object of a key, which was not there.
    pub(crate) fn put_form(&mut self, key: Key, form: Option<Object>) -> Result<(), OutOfMemory>
        requires anew { was_asked (gathered_in self.old) (OfKey key) ≡ false }
        ensures ok { OnOk result (gathered_in self.new ≡ with_form (gathered_in self.old) key form) }
    {
        self.forms.insert(key, form)?;
        Ok(())
    }

    /// Keeps the relations that have a way as a member.
    pub(crate) fn put_along(&mut self, id: u64, ids: Listers) -> Result<(), OutOfMemory>
        ensures ok { OnOk result (gathered_in self.new ≡ with_along (gathered_in self.old) id ids) }
    {
        self.along_ways.insert(id, ids)?;
        Ok(())
    }

    /// Keeps the relations that have a node as a member.
    pub(crate) fn put_around(&mut self, id: u64, ids: Listers) -> Result<(), OutOfMemory>
        ensures ok { OnOk result (gathered_in self.new ≡ with_around (gathered_in self.old) id ids) }
    {
        self.around_nodes.insert(id, ids)?;
        Ok(())
    }
}

impl Lookup for StoreAnswers<'_> {
    ghost known = { λ answers. known_in (gathered_in answers) };

    fn place_of(&self, id: u64) -> Option<Place> {
        match self.named(Kind::Node, id) {
            Some(form) => place_in(form),
            None => match self.places.get(&id) {
                Some(place) => *place,
                None => None,
            },
        }
    }

    fn object_of(&self, key: Key) -> Option<&Object> {
        match self.form(key) {
            Some(form) => form.as_ref(),
            None => None,
        }
    }

    fn relations_of_way(&self, id: u64) -> &[u64] {
        match self.along_ways.get(&id) {
            Some(ids) => ids.as_slice(),
            None => &[],
        }
    }

    fn relations_of_node(&self, id: u64) -> &[u64] {
        match self.around_nodes.get(&id) {
            Some(ids) => ids.as_slice(),
            None => &[],
        }
    }
}
