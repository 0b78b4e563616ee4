//! The chains of an open store, and one transaction over them.
ghost use Rattle.std.specs.Prelude.{◌≡◌, ◌≢◌, ◌≤◌, List, ℕ, false, IsTrue};
ghost use Rattle.std.specs.FinMap as map;
ghost use Rattle.std.specs.Int.{is_power_of_two};
ghost use Rattle.page_journal.specs.Journal.{home_count, is_broken, loan_of};
ghost use Rattle.page_journal.specs.Journal.{disk_of as disk_under};
ghost use Rattle.chain_store.specs.Answers.{RestsWith};
ghost use Rattle.chain_store.specs.Directories.{IsString};
ghost use Rattle.chain_store.specs.Kept.{AreAllBehindRoot, buckets_in};
ghost use Rattle.chain_store.specs.Known.{AreGone, AreHeld, AreKnown, AreStored};
ghost use Rattle.chain_store.specs.Store.{Keeps, kept_first};
ghost use Rattle.chain_store.specs.Directories.{root_in};

mod committing;
mod listing;
mod loading;

use crate::number_map::NumberMap;
use crate::walking::{Walked, walk};
use crate::{Kept, Root};
use osm_base::{Bytes, Ids, TryCopy};
use outside::Disk;
use page_journal::{Journal, StoreFault};
use std::alloc::Global;

/// The chains of an open store, and one transaction over them. What is written stands once `commit` has answered
/// `Ok`; `begin` forgets it. A transaction that has refused a call can only be begun anew.
#[derive(Drop)]
pub struct Chains<'d, D: Disk> {
    journal: Journal<'d, D>,
    alloc: Global,
    kept: Kept,
    root: Root,
    read: NumberMap<Ids>,
    written: NumberMap<Bytes>,
    before: NumberMap<Bytes>,
    texts: NumberMap<Bytes>,
    refused: bool,
    ghost known: { AreKnown (home_count journal) read },
    ghost behind: { AreAllBehindRoot (home_count journal) kept.directories.items },
    ghost held: { AreHeld read texts },
    ghost stored: { AreStored root.buckets read written },
    ghost gone: { AreGone (buckets_in kept.front.items) root.buckets (kept_first kept) written },
    ghost few: { root.buckets ≤ 65536 },
    ghost count: { root.buckets ≢ buckets_in kept.front.items → IsTrue (is_power_of_two root.buckets) },
}

impl<'d, D: Disk> Chains<'d, D> {
    ghost use Rattle.chain_store.specs.Chains.{IsOpen, MaySet, first_of, is_refused, journal_of, kept_of, read_of, root_of, written_of};

    /// The chains of an open store of which this was read, with a transaction begun.
    pub fn over(alloc: Global, journal: Journal<'d, D>, kept: Kept) -> Self
        requires { AreAllBehindRoot (home_count journal) kept.directories.items }
        ensures open { (pages : List (List ℕ)) → RestsWith pages journal.entry → Keeps pages kept → IsOpen pages result }
        ensures journal { journal_of result ≡ journal.entry }
        ensures kept { kept_of result ≡ kept }
        ensures read { read_of result ≡ map.empty }
        ensures written { written_of result ≡ map.empty }
        ensures root { root_of result ≡ root_in kept.front.items }
        ensures going { is_refused result ≡ false }
    {
        let root = kept.root();
        Chains {
            journal,
            alloc,
            kept,
            root,
            read: NumberMap::new(alloc),
            written: NumberMap::new(alloc),
            before: NumberMap::new(alloc),
            texts: NumberMap::new(alloc),
            refused: false,
        }
    }

    /// Hands the journal back.
    pub fn close(self) -> Journal<'d, D>
        ensures same_disk { loan_of result ≡ loan_of (journal_of self.entry) }
        ensures disk { disk_under result ≡ disk_under (journal_of self.entry) }
    {
        let (journal, _) = self.into_parts();
        journal
    }

    /// Hands back the journal, and what was read of the store: `over` takes both again.
    pub fn into_parts(self) -> (Journal<'d, D>, Kept)
        ensures journal { result.0 ≡ journal_of self.entry }
        ensures kept { result.1 ≡ kept_of self.entry }
        ensures inside { AreAllBehindRoot (home_count result.0) result.1.directories.items }
    {
        let Chains {
            journal,
            alloc: _,
            kept,
            root: _,
            read: _,
            written: _,
            before: _,
            texts: _,
            refused: _,
        } = self;
        (journal, kept)
    }

    /// Begins a transaction anew. What another has written and not committed is forgotten.
    pub fn begin(&mut self)
        ensures open { (pages : List (List ℕ)) → IsOpen pages self.old → IsOpen pages self.new }

        // Whatever the transaction before it has met.
        ensures anew { (pages : List (List ℕ)) → RestsWith pages (journal_of self.old) → Keeps pages (kept_of self.old) → IsOpen pages self.new }
        ensures journal { journal_of self.new ≡ journal_of self.old }
        ensures kept { kept_of self.new ≡ kept_of self.old }
        ensures read { read_of self.new ≡ map.empty }
        ensures written { written_of self.new ≡ map.empty }
        ensures root { root_of self.new ≡ root_in (kept_of self.old).front.items }
        ensures going { is_refused self.new ≡ false }
    {
        let root = self.kept.root();
        self.written = NumberMap::new(self.alloc);
        self.read = NumberMap::new(self.alloc);
        self.before = NumberMap::new(self.alloc);
        self.texts = NumberMap::new(self.alloc);
        self.root = root;
        self.refused = false;
    }

    /// How many home pages the store has. For callers outside: the program does not use it.
    pub fn pages(&self) -> u64
        ensures { result ≡ home_count (journal_of self.now) }
    {
        self.journal.pages()
    }

    /// Whether an earlier call met a disk fault.
    pub fn is_broken(&self) -> bool
        ensures { result ≡ is_broken (journal_of self.now) }
    {
        self.journal.is_broken()
    }

    /// The fields that the transaction gives the store.
    pub fn root(&self) -> Root
        ensures { result ≡ root_of self.now }
    {
        self.root
    }

    /// Gives the store these fields. The number of buckets changes only where all buckets are empty.
    pub fn set_root(&mut self, root: Root)
        requires root { MaySet self.old root }
        requires going { is_refused self.old ≡ false }
        ensures open { (pages : List (List ℕ)) → IsOpen pages self.old → IsOpen pages self.new }
        ensures root { root_of self.new ≡ root }
        ensures journal { journal_of self.new ≡ journal_of self.old }
        ensures kept { kept_of self.new ≡ kept_of self.old }
        ensures read { read_of self.new ≡ read_of self.old }
        ensures written { written_of self.new ≡ written_of self.old }
        ensures going { is_refused self.new ≡ false }
    {
        self.root = root;
    }

    /// The first page that a chain has in the store, or 0 where it is empty there.
    pub fn first_page(&self, n: u32) -> u64
        requires { IsString (root_of self.now).buckets n }
        ensures { result ≡ first_of self.now n }
    {
        self.kept.first(n)
    }
}
