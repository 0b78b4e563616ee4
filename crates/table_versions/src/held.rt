//! A reader that is shown one version for good.
ghost use Rattle.std.specs.Prelude.{◌≡◌, ◌≤◌, ◌↔◌, [], true, IfErr, IfNone, IfOk, IfSome, IsErrOf, IsNone, IsTrue, OnOk, OnSome};
ghost use Rattle.std.specs.Bool.{OnFalse, OnTrue};
ghost use Rattle.outside.specs.Causes.{Rose};
ghost use Rattle.doubles.specs.Fails.{Names};
ghost use Rattle.table_versions.specs.Fronts.{Begins};
ghost use Rattle.table_versions.specs.Answers.{IsAnswer, IsCount, IsRefused};
ghost use Rattle.table_versions.specs.Views.{next_call};
ghost use Rattle.table_versions.specs.declared.answers.LookRefused.TheVariants.{Shut};

use crate::answers::{Answer, Counted, LookRefused};
use crate::front::{Front, open_history};
use crate::looking::Reads;
use doubles::Fails;
use map_query::{Query, answer};
use osm_base::{OutOfMemory, Tables};
use row_text::count_rows;
use std::alloc::Global;
use std::marker::Model;
use style_read::Style;

/// A reader of one version, of which the calls fail that are to fail.
#[derive(Drop)]
pub struct HeldReader {
    style: Style,
    tables: Tables,
    version: u64,
    front: Front,
    calls: u64,
    fails: Fails,
    refusals: u64,
}

impl Model for HeldReader {
    ghost use Rattle.std.specs.Prelude.{◌≡◌, ◌≤◌, ◌↔◌, [], true, IfErr, IfNone, IfOk, IfSome, IsErrOf, IsNone, IsTrue, OnOk, OnSome};
    ghost use Rattle.outside.specs.Causes.{Rose};
    ghost use Rattle.doubles.specs.Fails.{Names};
    ghost use Rattle.table_versions.specs.Fronts.{Begins};
    ghost use Rattle.table_versions.specs.Answers.{IsAnswer, IsCount, IsRefused};
    ghost use Rattle.table_versions.specs.Views.{next_call};
    ghost use Rattle.table_versions.specs.declared.answers.LookRefused.TheVariants.{Shut};
    ghost use Rattle.table_versions.specs.Views.{HeldOf, held_code};

    ghost Value = { HeldOf };

    ghost coded = { held_code };

    ghost view = { λ own. record { reader = record { style = own.style; has_handle = true; seen = own.front; told = own.front; refusals = own.refusals }; calls = own.calls; plan = own.fails } };

    ghost invariant = { λ own. (own.front.first ≡ own.tables) × (own.front.base ≡ own.version) × (own.front.log ≡ []) };
}

impl HeldReader {
    /// A reader of these tables, which have seen so many changes.
    pub fn new(style: Style, tables: Tables, version: u64, fails: Fails) -> Self
        ensures style { result.reader.style ≡ style }
        ensures first { result.reader.seen.first ≡ tables }
        ensures base { result.reader.seen.base ≡ version }
        ensures empty { result.reader.seen.log ≡ [] }
        ensures told { result.reader.told ≡ result.reader.seen }
        ensures handle { result.reader.has_handle ≡ true }
        ensures calls { result.calls ≡ 0 }
        ensures plan { result.plan ≡ fails }
    {
        let (_head, front) = open_history(&tables, version);
        Self {
            style,
            tables,
            version,
            front,
            calls: 0,
            fails,
            refusals: 0,
        }
    }

    /// Counts a call, and says whether it fails.
    fn is_shut(&mut self) -> bool
        ensures shut { IsTrue result ↔ Names self.old.plan (next_call self.old) }
        ensures calls { self.new ≡ record self.old { calls = next_call self.old; reader = record self.old.reader { refusals = self.new.reader.refusals } } }
        ensures open { OnFalse result (self.new.reader.refusals ≡ self.old.reader.refusals) }
        ensures rose { OnTrue result (Rose self.old.reader.refusals self.new.reader.refusals) }
        ensures later { self.old.reader.refusals ≤ self.new.reader.refusals }
    {
        self.calls = self.calls.saturating_add(1);
        if !self.fails.names(self.calls) {
            return false;
        }
        self.refusals = self.refusals.saturating_add(1);
        true
    }
}

impl Reads for HeldReader {
    ghost state = { λ held. held.reader };

    #[tactic(auto, using(crate::proofs::Answered::answered, crate::proofs::Answered::first_tables, crate::proofs::Answered::first_number, crate::proofs::Answered::begins_self))]
    fn look(&mut self, alloc: Global, query: &Query) -> Result<Answer, LookRefused>
        ensures same { self.new.reader ≡ record self.old.reader { seen = self.new.reader.seen; refusals = self.new.reader.refusals } }
        ensures seen { Begins self.old.reader.seen self.new.reader.seen }
        ensures told { OnOk result (Begins self.old.reader.told self.new.reader.seen) }
        ensures handle { OnOk result (self.old.reader.has_handle ≡ true) }
        ensures answer { IfOk result (IsAnswer self.old.reader.style self.new.reader.seen query.now) }
        ensures shut { IfErr result (IsRefused self.old.reader.refusals self.new.reader.refusals (self.new.reader.seen ≡ self.old.reader.seen)) }
        ensures later { self.old.reader.refusals ≤ self.new.reader.refusals }
        ensures exact { IsErrOf result Shut ↔ Names self.old.plan (next_call self.old) }
    {
        if self.is_shut() {
            return Err(LookRefused::Shut);
        }
        match answer(alloc, &self.style, &self.tables, query) {
            Ok(found) => Ok(Answer {
                version: self.version,
                found,
            }),
            Err(OutOfMemory) => Err(LookRefused::OutOfMemory),
        }
    }

    #[tactic(auto, using(crate::proofs::Answered::counted, crate::proofs::Answered::first_tables, crate::proofs::Answered::first_number, crate::proofs::Answered::begins_self))]
    fn count(&mut self, table: u32) -> Option<Counted>
        ensures same { self.new.reader ≡ record self.old.reader { seen = self.new.reader.seen; refusals = self.new.reader.refusals } }
        ensures seen { Begins self.old.reader.seen self.new.reader.seen }
        ensures told { OnSome result (Begins self.old.reader.told self.new.reader.seen) }
        ensures handle { OnSome result (self.old.reader.has_handle ≡ true) }
        ensures counted { IfSome result (IsCount self.new.reader.seen table) }
        ensures shut { IfNone result (Rose self.old.reader.refusals self.new.reader.refusals × (self.new.reader.seen ≡ self.old.reader.seen)) }
        ensures later { self.old.reader.refusals ≤ self.new.reader.refusals }
        ensures exact { IsNone result ↔ Names self.old.plan (next_call self.old) }
    {
        if self.is_shut() {
            return None;
        }
        Some(Counted {
            version: self.version,
            rows: count_rows(&self.tables, table) as u64,
        })
    }
}
