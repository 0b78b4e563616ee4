//! The places of nodes, in a list by rising ids.
ghost use Rattle.std.specs.Prelude.{◌≡◌, ◌∷◌, ◌++◌, [], Some, IfOk, IsTrue, OnOk, OnErr, cond, false};
ghost use Rattle.std.specs.FinMap as map;
ghost use Rattle.osm_base.specs.values.Ids.{IsRising, has};

use crate::search::stand_of;
use osm_base::{OutOfMemory, Place};
use std::alloc::Global;
use std::marker::Model;

/// The places of nodes by their ids. It grows at its end alone.
#[derive(Drop)]
pub(crate) struct NodePlaces {
    ids: Vec<u64>,
    /// One for each id; `None`: it was taken out.
    places: Vec<Option<Place>>,
}

impl Model for NodePlaces {
    ghost use Rattle.std.specs.Coded.{coded_ℕ};
    ghost use Rattle.std.specs.FinMap as map;
    ghost use Rattle.std.specs.Ordering.{nat_cmp};
    ghost use Rattle.osm_base.specs.values.Place.{PlaceOf};
    ghost use Rattle.osm_base.specs.contracts.values.place.Place as place;
    ghost use Rattle.placed_objects.specs.NodePlaces.{placed, AreNodePlaces};

    ghost Value = { map.FinMap nat_cmp PlaceOf };

    ghost coded = { map.code coded_ℕ place.the_row.coded };

    ghost view = { λ own. map.from_entries (placed own.ids.items own.places.items) };

    ghost invariant = { λ own. AreNodePlaces own.ids.items own.places.items };
}

impl NodePlaces {
    /// No node.
    pub(crate) fn new(alloc: Global) -> Self
        ensures empty { result ≡ map.empty }
    {
        Self {
            ids: Vec::new(alloc),
            places: Vec::new(alloc),
        }
    }

    /// The place of a node.
    pub(crate) fn get(&self, id: u64) -> Option<Place>
        ensures place { result ≡ map.get self.now id }
    {
        match stand_of(&self.ids, id) {
            Some(at) => self.places[at],
            None => None,
        }
    }

    /// Gives a node this place, where its id is known or comes behind all. `false`: it is neither, and nothing has changed.
    pub(crate) fn put(&mut self, id: u64, place: Place) -> Result<bool, OutOfMemory>
        ensures ok { IfOk result (λ put. self.new ≡ cond put (map.insert self.old id place) self.old) }
        ensures err { OnErr result (self.new ≡ self.old) }
    {
        if is_behind(&self.ids, id) {
            push_both(&mut self.ids, &mut self.places, id, place)?;
            return Ok(true);
        }
        match stand_of(&self.ids, id) {
            Some(at) => {
                self.places[at] = Some(place);
                Ok(true)
            }
            None => Ok(false),
        }
    }

    /// Takes the place of a node out, if it has one.
    pub(crate) fn take_out(&mut self, id: u64)
        ensures left { self.new ≡ map.remove self.old id }
    {
        if let Some(at) = stand_of(&self.ids, id) {
            self.places[at] = None;
        }
    }
}

/// Whether an id comes behind all of these.
fn is_behind(ids: &[u64], id: u64) -> bool
    requires { IsRising ids.now }
    ensures none { IsTrue result → has ids.now id ≡ false }
    ensures rise { IsTrue result → IsRising (ids.now ++ id ∷ []) }
{
    match ids.last() {
        Some(last) => *last < id,
        None => true,
    }
}

/// Appends to both lists, or to neither.
fn push_both(
    ids: &mut Vec<u64>,
    places: &mut Vec<Option<Place>>,
    id: u64,
    place: Place,
) -> Result<(), OutOfMemory>
    ensures ids { OnOk result (ids.new.items ≡ ids.old.items ++ id ∷ []) }
    ensures places { OnOk result (places.new.items ≡ places.old.items ++ Some place ∷ []) }
    ensures same_ids { OnErr result (ids.new.items ≡ ids.old.items) }
    ensures same_places { OnErr result (places.new.items ≡ places.old.items) }
{
    places.push(Some(place))?;
    if let Err(_) = ids.push(id) {
        places.pop();
        return Err(OutOfMemory);
    }
    Ok(())
}
