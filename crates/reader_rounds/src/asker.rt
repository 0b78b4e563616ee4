//! A reader that asks in rounds.
ghost use Rattle.std.specs.Prelude.{◌≡◌, ◌≢◌, ◌+◌, ℕ, [], None, IfOk};
ghost use Rattle.std.specs.Bool.{OnFalse, OnTrue};
ghost use Rattle.table_versions.specs.Fronts.{Begins, FrontOf};
ghost use Rattle.style_read.specs.Style.{StyleOf};
ghost use Rattle.table_versions.specs.Versions.{tables_of, version_of};
ghost use Rattle.reader_rounds.specs.Asking.{AreAnswered, AsksRound, HasAsked, begin_of};
ghost use Rattle.reader_rounds.specs.Rounds.{AreServed};

use crate::settling::{Rounds, all_last, settle_rounds};
use map_query::Queries;
use osm_base::{Items, OutOfMemory, Tables};
use outside::Gate;
use std::alloc::Global;
use style_read::Style;
use table_versions::{LookRefused, MapReader, Told, ask};

/// A reader with its number, and what it answered in each round.
#[derive(Drop)]
pub(crate) struct Asker {
    pub(crate) number: u64,
    pub(crate) reader: MapReader,
    pub(crate) rounds: Rounds,
    /// Why it asks no more.
    pub(crate) stopped: Option<LookRefused>,
}

impl Asker {
    /// One that has not asked yet.
    pub(crate) fn new(alloc: Global, number: u64, reader: MapReader) -> Self
        ensures reader { result.reader ≡ reader }
        ensures rounds { result.rounds ≡ [] }
        ensures stopped { result.stopped ≡ None }
    {
        Self {
            number,
            reader,
            rounds: Items::new(alloc),
            stopped: None,
        }
    }

    /// Asks the list so many times, one round after the other, unless it is not let in or memory runs out.
    pub(crate) fn ask_rounds<G: Gate>(
        &mut self,
        alloc: Global,
        queries: &Queries,
        rounds: u32,
        gate: &G,
    )
        ensures asked { (style : StyleOf) (front : FrontOf) → HasAsked style front queries.now 0 self.old → HasAsked style front queries.now rounds self.new }
    {
        for _ in 0..rounds {
            if !self.ask_round(alloc, queries, gate) {
                return;
            }
        }
    }

    /// Is told of what was published, asks once more behind the rounds that it asked before, and gives what it answered in
    /// all of them. The tables are those of the last version.
    pub(crate) fn finish<G: Gate>(
        self,
        alloc: Global,
        told: Told,
        style: &Style,
        tables: &Tables,
        version: u64,
        queries: &Queries,
        rounds: u32,
        gate: &G,
    ) -> Result<Rounds, OutOfMemory>
        requires asked { HasAsked style.now (begin_of told) queries.now rounds self }
        requires tables { tables.now ≡ tables_of told }
        requires version { version ≡ version_of told }
        ensures served { IfOk result (AreServed style.now told queries.now rounds) }
    {
        let mut asker = self;
        asker.ask_last(alloc, told, queries, gate);
        let queries = queries.as_slice();
        match asker.stopped {
            None => settle_rounds(alloc, style, tables, version, queries, asker.rounds),
            Some(LookRefused::Shut) => all_last(alloc, style, tables, version, queries, rounds),
            Some(LookRefused::OutOfMemory) => Err(OutOfMemory),
        }
    }

    /// Is told of what was published, and asks once more.
    fn ask_last<G: Gate>(&mut self, alloc: Global, told: Told, queries: &Queries, gate: &G)
        requires same { told.book ≡ self.old.reader.seen.book }
        ensures answered { (style : StyleOf) (front : FrontOf) (rounds : ℕ) → HasAsked style front queries.now rounds self.old
            → self.new.stopped ≡ None → AreAnswered style front told queries.now rounds self.new.rounds }
    {
        if self.stopped.is_some() {
            return;
        }
        self.reader.learn(told);
        let _answered = self.ask_round(alloc, queries, gate);
    }

    /// Asks the list once, and says whether each query was answered.
    fn ask_round<G: Gate>(&mut self, alloc: Global, queries: &Queries, gate: &G) -> bool
        ensures round { OnTrue result (AsksRound queries.now self.old self.new) }
        ensures stopped { OnFalse result (self.new.stopped ≢ None) }
        ensures style { self.new.reader.style ≡ self.old.reader.style }
        ensures told { self.new.reader.told ≡ self.old.reader.told }
        ensures seen { Begins self.old.reader.seen self.new.reader.seen }
    {
        let round = match ask(alloc, &mut self.reader, queries, self.number, gate) {
            Ok(round) => round,
            Err(_) => {
                self.stopped = Some(LookRefused::OutOfMemory);
                return false;
            }
        };
        if round.shut {
            self.stopped = Some(LookRefused::Shut);
            return false;
        }
        if self.rounds.push(round.answers).is_err() {
            self.stopped = Some(LookRefused::OutOfMemory);
            return false;
        }
        true
    }
}
