//! The places of nodes, in a list for each bucket.
ghost use Rattle.std.specs.Prelude.{◌≡◌, ◌≤◌, ◌<◌, ℕ, OnErr, OnOk, length};
ghost use Rattle.std.specs.FinMap as finite;
ghost use Rattle.store_check.specs.Places.{AreOwn, joined_lists};

use crate::node_list::NodeList;
use osm_base::{OutOfMemory, Place};
use std::alloc::Global;
use std::marker::Model;

/// The places of nodes by their ids. A node is in the list of the remainder that its id leaves, so that the nodes of a bucket come
/// by rising ids in one list.
#[derive(Drop)]
pub(crate) struct Places {
    alloc: Global,
    count: u64,
    /// Those of the remainders so far, from 0 on.
    lists: Vec<NodeList>,
}

impl Model for Places {
    ghost use Rattle.std.specs.Coded.{coded_ℕ};
    ghost use Rattle.std.specs.FinMap as finite;
    ghost use Rattle.osm_base.specs.contracts.values.place.Place as place;
    ghost use Rattle.store_check.specs.Places.{AreLists, PlaceMap, joined_lists};

    ghost Value = { PlaceMap };

    ghost coded = { finite.code coded_ℕ place.the_row.coded };

    ghost view = { λ own. joined_lists own.lists.items };

    ghost invariant = { λ own. AreLists own.count own.lists.items };
}

impl Places {
    /// No node. The nodes are to come from so many buckets.
    pub(crate) fn new(alloc: Global, buckets: u64) -> Self
        ensures empty { result ≡ finite.empty }
    {
        Self {
            alloc,
            count: at_least_one(buckets),
            lists: Vec::new(alloc),
        }
    }

    /// The place of a node.
    pub(crate) fn get(&self, id: u64) -> Option<Place>
        ensures place { result ≡ finite.get self.now id }
    {
        let at = (id % self.count) as usize;
        if at >= self.lists.len() {
            return None;
        }
        self.lists[at].get(id)
    }

    /// Gives a node this place.
    pub(crate) fn put(&mut self, id: u64, place: Place) -> Result<(), OutOfMemory>
        ensures ok { OnOk result (self.new ≡ finite.insert self.old id place) }
        ensures err { OnErr result (self.new ≡ self.old) }
    {
        let at = (id % self.count) as usize;
        reach(self.alloc, &mut self.lists, at)?;
        self.lists[at].put(id, place)?;
        Ok(())
    }
}

/// This number, or 1 in place of 0.
fn at_least_one(number: u64) -> u64
    ensures { 1 ≤ result }
{
    if number == 0 { 1 } else { number }
}

/// Makes empty lists up to this one.
fn reach(alloc: Global, lists: &mut Vec<NodeList>, at: usize) -> Result<(), OutOfMemory>
    ensures there { OnOk result (at < length lists.new.items) }
    ensures same { joined_lists lists.new.items ≡ joined_lists lists.old.items }
    ensures own { (count : ℕ) → AreOwn count 0 lists.old.items → AreOwn count 0 lists.new.items }
{
    while lists.len() <= at {
        lists.push(NodeList::new(alloc))?;
    }
    Ok(())
}
