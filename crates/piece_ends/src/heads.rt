//! The head of a list of pieces at each place.
ghost use Rattle.std.specs.Prelude.{◌≡◌, IfOk, OnOk, OnErr};
ghost use Rattle.std.specs.FinMap as map;
ghost use Rattle.piece_ends.specs.Heads.{heads_in};

use osm_base::{OutOfMemory, Place};
use std::alloc::Global;
use std::collections::BTreeMap;
use std::marker::Model;

/// The number of a piece for each place that has one.
#[derive(Drop)]
pub struct Heads {
    heads: BTreeMap<Place, usize>,
}

impl Model for Heads {
    ghost use Rattle.std.specs.Coded.{coded_ℕ};
    ghost use Rattle.std.specs.FinMap as map;
    ghost use Rattle.osm_base.specs.contracts.values.place.Place as place;
    ghost use Rattle.piece_ends.specs.Heads.{HeadMap, heads_in};

    ghost Value = { HeadMap };

    ghost coded = { map.code place.the_row.coded coded_ℕ };

    ghost view = { λ heads. heads_in heads.heads };
}

impl Heads {
    /// No number.
    pub fn new(alloc: Global) -> Self
        ensures empty { result ≡ map.empty }
    {
        Self {
            heads: BTreeMap::new(alloc),
        }
    }

    /// The number for a place.
    pub fn at(&self, place: Place) -> Option<usize>
        ensures number { result ≡ map.get self.now place }
    {
        self.heads.get(&place).copied()
    }

    /// Gives a place this number, and hands back the one that it had.
    pub fn put(&mut self, place: Place, number: usize) -> Result<Option<usize>, OutOfMemory>
        ensures old { IfOk result (λ old. old ≡ map.get self.old place) }
        ensures ok { OnOk result (self.new ≡ map.insert self.old place number) }
        ensures err { OnErr result (self.new ≡ self.old) }
    {
        Ok(put(&mut self.heads, place, number)?)
    }
}

fn put(
    heads: &mut BTreeMap<Place, usize>,
    place: Place,
    number: usize,
) -> Result<Option<usize>, OutOfMemory>
    ensures old { IfOk result (λ old. old ≡ map.get (heads_in heads.old) place) }
    ensures ok { OnOk result (heads_in heads.new ≡ map.insert (heads_in heads.old) place number) }
    ensures err { OnErr result (heads_in heads.new ≡ heads_in heads.old) }
{
    Ok(heads.insert(place, number)?)
}
