//! All readers that ask.
ghost use Rattle.std.specs.Prelude.{◌≡◌, ◌≤◌, [], All, IfOk, List, length};
ghost use Rattle.style_read.specs.Style.{StyleOf};
ghost use Rattle.table_versions.specs.Fronts.{FrontOf};
ghost use Rattle.map_query.specs.declared.query.Query.{Query};
ghost use Rattle.table_versions.specs.Versions.{tables_of, version_of};
ghost use Rattle.table_versions.specs.Views.{IsNewReader};
ghost use Rattle.reader_rounds.specs.Asking.{AreAsking, Asks, begin_of, count_of};
ghost use Rattle.reader_rounds.specs.Rounds.{AreServed};

use crate::asker::Asker;
use crate::settling::Rounds;
use map_query::Queries;
use osm_base::{Items, OutOfMemory, Tables, TryCopy};
use outside::Gate;
use std::alloc::Global;
use std::sync::Wait;
use std::thread::{Threads, for_each_mut, join_mut};
use style_read::Style;
use table_versions::{MapReaders, Publisher, versions};

/// A publisher of these tables, which have seen so many changes, and its readers, which have not asked yet. It may wait for
/// readers.
pub fn publish_first<R: Wait>(
    rt: &R,
    alloc: Global,
    style: &Style,
    tables: &Tables,
    version: u64,
    readers: u32,
) -> Result<(Publisher, Askers), OutOfMemory>
    requires least { 1 ≤ readers }
    requires most { readers ≤ 64 }
    ensures front { IfOk result (λ (publisher, _). publisher.front ≡ record { book = publisher.front.book; first = tables.now; base = version; log = [] }) }
    ensures asking { (queries : List Query) → IfOk result (λ (publisher, askers). AreAsking style.now (begin_of publisher.front) queries 0 askers) }
    ensures count { IfOk result (λ (_, askers). count_of askers ≡ readers) }
{
    let own = style.copy(alloc)?;
    let first = tables.copy(alloc)?;
    let (publisher, made) = versions(rt, alloc, own, first, version, readers)?;
    match Askers::of(alloc, made) {
        Ok(askers) => Ok((publisher, askers)),
        Err(error) => {
            publisher.end(rt);
            Err(error)
        }
    }
}

/// What each reader answers.
pub type Blocks = Items<Rounds>;

/// The most threads that readers have.
const MAX_THREADS: usize = 64;

/// Readers, numbered from 1, and what each answered in the rounds so far.
#[derive(Drop)]
pub struct Askers {
    askers: Vec<Asker>,
}

impl Askers {
    /// Readers that have not asked yet.
    pub fn of(alloc: Global, readers: MapReaders) -> Result<Self, OutOfMemory>
        ensures asking { (style : StyleOf) (front : FrontOf) (queries : List Query) → All (IsNewReader style front) readers → IfOk result (AreAsking style front queries 0) }
        ensures count { IfOk result (λ askers. count_of askers ≡ length readers) }
    {
        let mut readers = readers;
        let mut askers = Vec::new(alloc);
        while let Some(reader) = readers.pop() {
            let number = askers.len() as u64 + 1;
            askers.push(Asker::new(alloc, number, reader))?;
        }
        Ok(Self { askers })
    }

    /// Each asks the list so many times, in a thread.
    fn ask_in_threads<R: Threads + Sync, G: Gate>(
        &mut self,
        rt: &R,
        alloc: Global,
        queries: &Queries,
        rounds: u32,
        gate: &G,
    )
        ensures asking { (style : StyleOf) (front : FrontOf) → AreAsking style front queries.now 0 self.old → AreAsking style front queries.now rounds self.new }
        ensures count { count_of self.new ≡ count_of self.old }
    {
        for_each_mut(
            rt,
            self.askers.as_mut_slice(),
            MAX_THREADS,
            &|_, asker| asker.ask_rounds(alloc, queries, rounds, gate),
        );
    }

    /// The same.
    fn ask_rounds<R: Threads + Sync, G: Gate>(
        &mut self,
        rt: &R,
        alloc: Global,
        queries: &Queries,
        rounds: u32,
        gate: &G,
    )
        ensures asks { Asks queries.now rounds self.old self.new }
    {
        self.ask_in_threads(rt, alloc, queries, rounds, gate);
    }

    /// Each asks the list so many times, in a thread, while the calling thread makes this call. Of what is published meanwhile
    /// it is shown whole versions.
    pub fn ask_beside<R: Threads + Sync, F: FnMut() -> A, A, G: Gate>(
        &mut self,
        rt: &R,
        alloc: Global,
        queries: &Queries,
        rounds: u32,
        gate: &G,
        call: &mut F,
    ) -> A
        requires call { F.pre call.old }
        ensures call { F.step call.old result call.new }
        ensures asks { Asks queries.now rounds self.old self.new }
    {
        let (_, answer) = join_mut(
            rt,
            &mut || self.ask_rounds(rt, alloc, queries, rounds, gate),
            call,
        );
        answer
    }

    /// Each is told of all that was published, and asks once more, behind the rounds that it asked before. The tables are
    /// those of the last version.
    pub fn finish<G: Gate>(
        self,
        alloc: Global,
        publisher: &mut Publisher,
        style: &Style,
        tables: &Tables,
        version: u64,
        queries: &Queries,
        rounds: u32,
        gate: &G,
    ) -> Result<Blocks, OutOfMemory>
        requires asking { AreAsking style.now (begin_of publisher.old.front) queries.now rounds self }
        requires tables { tables.now ≡ tables_of publisher.old.front }
        requires version { version ≡ version_of publisher.old.front }
        ensures served { IfOk result (λ blocks. All (AreServed style.now publisher.old.front queries.now rounds) blocks) }
        ensures count { IfOk result (λ blocks. length blocks ≡ count_of self) }
        ensures same { publisher.new ≡ publisher.old }
    {
        let mut blocks = Items::new(alloc);
        for asker in self.askers {
            let told = publisher.tell();
            blocks.push(asker.finish(alloc, told, style, tables, version, queries, rounds, gate)?)?;
        }
        Ok(blocks)
    }
}
