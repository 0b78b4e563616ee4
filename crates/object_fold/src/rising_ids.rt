//! Ids in their order.
ghost use Rattle.std.specs.Prelude.{◌≡◌, ℕ, [], IfOk, IfErr, OnOk, OnErr, IsTrue, ◌↔◌};
ghost use Rattle.osm_base.specs.values.Ids.{IsRising, has};
ghost use Rattle.object_fold.specs.RisingIds.{Joins, Leaves, StandsAt, IsGapAt};

use osm_base::{Ids, OutOfMemory};
use std::alloc::Global;
use std::marker::Model;

/// Ids, each once, from the least to the greatest.
#[derive(Drop)]
pub struct RisingIds {
    ids: Vec<u64>,
}

impl Model for RisingIds {
    ghost use Rattle.std.specs.Prelude.{ℕ, List};
    ghost use Rattle.osm_base.specs.values.Ids.{IsRising};

    ghost Value = { List ℕ };

    ghost view = { λ rising. rising.ids.items };

    ghost invariant = { λ rising. IsRising rising.ids.items };
}

impl RisingIds {
    /// No id.
    pub fn new(alloc: Global) -> Self
        ensures empty { result ≡ [] }
    {
        Self {
            ids: Vec::new(alloc),
        }
    }

    /// The ids of a vector, in any order there and as often as they stand there.
    pub fn from_vec(ids: Vec<u64>) -> Self
        ensures same { (id : ℕ) → has result id ≡ has ids.items id }
        ensures rise { IsRising result }
    {
        let mut ids = ids;
        ids.sort_unstable();
        ids.dedup();
        Self { ids }
    }

    /// The ids from the least to the greatest.
    pub fn as_slice(&self) -> &[u64]
        ensures ids { result.now ≡ self.now }
        ensures rise { IsRising self.now }
    {
        self.ids.as_slice()
    }

    /// The same; takes no memory.
    pub fn into_ids(self) -> Ids
        ensures ids { result ≡ self }
        ensures rise { IsRising self }
    {
        let Self { ids } = self;
        Ids::from_vec(ids)
    }

    /// Whether there is none.
    pub fn is_empty(&self) -> bool
        ensures value { IsTrue result ↔ (self.now ≡ []) }
    {
        self.ids.is_empty()
    }

    /// Whether this id is among them.
    pub fn contains(&self, id: u64) -> bool
        ensures value { result ≡ has self.now id }
    {
        place_of(self.ids.as_slice(), id).is_ok()
    }

    /// Adds an id, where it is not there yet.
    pub fn add(&mut self, id: u64) -> Result<(), OutOfMemory>
        ensures ok { OnOk result (Joins id self.old self.new) }
        ensures err { OnErr result (self.new ≡ self.old) }
    {
        if let Err(at) = place_of(self.ids.as_slice(), id) {
            self.ids.insert(at, id)?;
        }
        Ok(())
    }

    /// Takes an id away, where it is there.
    pub fn take_out(&mut self, id: u64)
        ensures left { Leaves id self.old self.new }
    {
        if let Ok(at) = place_of(self.ids.as_slice(), id) {
            self.ids.remove(at);
        }
    }
}

/// Where an id stands among rising ones, or where it would.
fn place_of(ids: &[u64], id: u64) -> Result<usize, usize>
    requires { IsRising ids.now }
    ensures ok { IfOk result (StandsAt ids.now id) }
    ensures err { IfErr result (IsGapAt ids.now id) }
{
    ids.binary_search(&id)
}
