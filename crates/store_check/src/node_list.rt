//! The places of nodes, in a list by rising ids.
ghost use Rattle.std.specs.Prelude.{◌≡◌, ◌∷◌, ◌++◌, ◌≤◌, ◌<◌, [], ℕ, None, IsTrue, OnErr, OnOk, get_or, length};
ghost use Rattle.std.specs.FinMap as finite;
ghost use Rattle.std.specs.List.Sorted.{IsNonDecreasingBy};
ghost use Rattle.std.specs.Ordering.{nat_cmp};
ghost use Rattle.osm_base.specs.values.Place.{PlaceOf};
ghost use Rattle.store_check.specs.Places.{id_of};

use osm_base::{OutOfMemory, Place};
use std::alloc::Global;
use std::collections::BTreeMap;
use std::marker::Model;

/// The places of nodes by their ids. Those that come by rising ids take little room and are found fast.
#[derive(Drop)]
pub(crate) struct NodeList {
    listed: Vec<(u64, Place)>,
    /// Those that came behind a greater id, and all that came then.
    rest: BTreeMap<u64, Place>,
}

impl Model for NodeList {
    ghost use Rattle.std.specs.Prelude.{◌++◌};
    ghost use Rattle.std.specs.Coded.{coded_ℕ};
    ghost use Rattle.std.specs.FinMap as finite;
    ghost use Rattle.std.specs.List.Sorted.{IsNonDecreasingBy};
    ghost use Rattle.osm_base.specs.contracts.values.place.Place as place;
    ghost use Rattle.store_check.specs.Places.{PlaceMap, id_of};

    ghost Value = { PlaceMap };

    ghost coded = { finite.code coded_ℕ place.the_row.coded };

    ghost view = { λ own. finite.from_entries (own.rest.entries ++ own.listed.items) };

    ghost invariant = { λ own. IsNonDecreasingBy id_of own.listed.items };
}

impl NodeList {
    /// No node.
    pub(crate) fn new(alloc: Global) -> Self
        ensures empty { result ≡ finite.empty }
    {
        Self {
            listed: Vec::new(alloc),
            rest: BTreeMap::new(alloc),
        }
    }

    /// The place of a node.
    pub(crate) fn get(&self, id: u64) -> Option<Place>
        ensures place { result ≡ finite.get self.now id }
    {
        match self.rest.get(&id).copied() {
            Some(place) => Some(place),
            None => listed_at(&self.listed, id),
        }
    }

    /// Gives a node this place.
    pub(crate) fn put(&mut self, id: u64, place: Place) -> Result<(), OutOfMemory>
        ensures ok { OnOk result (self.new ≡ finite.insert self.old id place) }
        ensures err { OnErr result (self.new ≡ self.old) }
    {
        if self.rest.is_empty() && is_behind(&self.listed, id) {
            self.listed.push((id, place))?;
        } else {
            self.rest.insert(id, place)?;
        }
        Ok(())
    }
}

/// Whether an id comes behind all of these.
fn is_behind(listed: &[(u64, Place)], id: u64) -> bool
    requires order { IsNonDecreasingBy id_of listed.now }
    ensures none { IsTrue result → finite.find nat_cmp id listed.now ≡ None }
    ensures order { IsTrue result → (place : PlaceOf) → IsNonDecreasingBy id_of (listed.now ++ (id, place) ∷ []) }
{
    match listed.last() {
        Some(last) => last.0 < id,
        None => true,
    }
}

/// The place of a node among these.
fn listed_at(listed: &[(u64, Place)], id: u64) -> Option<Place>
    requires order { IsNonDecreasingBy id_of listed.now }
    ensures found { result ≡ finite.find nat_cmp id listed.now }
{
    let at = first_at(listed, id);
    if at >= listed.len() {
        return None;
    }
    let (own, place) = listed[at];
    if own == id { Some(place) } else { None }
}

/// Where an id stands among these, or would.
fn first_at(listed: &[(u64, Place)], id: u64) -> usize
    requires order { IsNonDecreasingBy id_of listed.now }
    ensures before { (at : ℕ) (own : ℕ × PlaceOf) → at < result → at < length listed.now → (get_or listed.now at own).0 < id }
    ensures behind { (at : ℕ) (own : ℕ × PlaceOf) → result ≤ at → at < length listed.now → id ≤ (get_or listed.now at own).0 }
{
    listed.partition_point(|one| one.0 < id)
}
