//! Which calls of an object in memory are to fail.
ghost use Rattle.std.specs.Prelude.{◌≡◌, ℕ, [], IsTrue, ◌↔◌};
ghost use Rattle.doubles.specs.Fails.{Names};

use osm_base::Ids;
use std::alloc::Global;
use std::marker::Model;

/// The calls of an object in memory that are to fail, by their numbers from 1 on: each whose number
/// stands in a list and, from some number on, every one.
#[derive(Drop)]
pub struct Fails {
    at: Ids,
    from: u64,
}

impl Model for Fails {
    ghost use Rattle.doubles.specs.Fails.{FailPlan};

    ghost Value = { FailPlan };

    ghost view = { λ fails. record { at = fails.at; from = fails.from } };
}

impl Fails {
    /// The calls whose numbers stand in `at` and, where `from` is not 0, each call from number `from` on.
    pub fn new(at: Ids, from: u64) -> Self
        ensures plan { result ≡ record { at = at; from = from } }
    {
        Self { at, from }
    }

    /// No call at all.
    pub fn never(alloc: Global) -> Self
        ensures plan { result ≡ record { at = []; from = 0 } }
    {
        Self {
            at: Ids::new(alloc),
            from: 0,
        }
    }

    /// Whether the call with this number is to fail.
    pub fn names(&self, call: u64) -> bool
        ensures names { IsTrue result ↔ Names self.now call }
    {
        self.at.as_slice().contains(&call) || (self.from != 0 && self.from <= call)
    }
}
