//! The buckets of an open store, and one transaction over them.
ghost use Rattle.std.specs.Prelude.{◌≡◌, ◌*◌, ◌≤◌, ◌<◌, List, ℕ, None, Some, false, true, not, is_some, IfSome};
ghost use Rattle.std.specs.FinMap as finite;
ghost use Rattle.page_journal.specs.Journal.{is_broken, loan_of, page_limit};
ghost use Rattle.page_journal.specs.Journal.{disk_of as disk_under};
ghost use Rattle.chain_store.specs.Chains.{IsOpen, disk_of, first_of, is_refused, journal_of, kept_of, read_of, root_of};
ghost use Rattle.chain_store.specs.Directories.{IsString};
ghost use Rattle.chain_store.specs.declared.root.Root.{Root};
ghost use Rattle.bucket_store.specs.Buckets.{AreBuckets, AreRead, IsBucketChain, bucket_count};

mod changing;
mod gathering;
mod installing;
mod listing;
mod looking;

use crate::cache::Cache;
use crate::reading::chain_of;
use crate::resting::Resting;
use chain_store::{Chains, Root};
use osm_base::Limits;
use outside::Disk;
use page_journal::Journal;
use std::alloc::Global;
use value_bytes::StoreMap;

/// The buckets of an open store, and one transaction over them.
#[derive(Drop)]
pub struct Buckets<'d, D: Disk> {
    chains: Chains<'d, D>,
    alloc: Global,
    cache: Cache,
    refused: bool,
    ghost going: { refused ≡ false → is_refused chains ≡ false },
    ghost own: { AreBuckets (bucket_count chains) cache },
    ghost once: { refused ≡ false → AreRead (read_of chains) cache },
}

impl<'d, D: Disk> Buckets<'d, D> {
    ghost use Rattle.bucket_store.specs.Calls.{IsBegun};
    ghost use Rattle.bucket_store.specs.Image.{Has, HoldsImage, Image, OnlyLooks, RestsAt};
    ghost use Rattle.bucket_store.specs.Opening.{Fits, FitsPages, IsOver};
    ghost use Rattle.bucket_store.specs.Transaction.{IsOpenStore, bucket_at, cached_of, chains_of, has_refused};
    ghost use Rattle.value_bytes.specs.StoreMap.{map_number};

    /// The buckets over these chains, of which none was read yet. Reads nothing.
    pub fn over(alloc: Global, chains: Chains<'d, D>) -> Self
        requires going { is_refused chains ≡ false }
        requires unread { read_of chains ≡ finite.empty }
        ensures chains { chains_of result ≡ chains.entry }
        ensures none { cached_of result ≡ finite.empty }
        ensures going { has_refused result ≡ false }
        ensures open { (pages : List (List ℕ)) → IsOpen pages chains.entry → IsOpenStore pages result }
    {
        Buckets {
            chains,
            alloc,
            cache: Cache::new(alloc),
            refused: false,
        }
    }

    /// The buckets of the store on this disk, of which this was read, with a transaction begun. Reads nothing.
    pub fn on(alloc: Global, disk: &'d mut D, limits: &Limits, opened: Resting) -> Self
        ensures same_disk { loan_of (journal_of (chains_of result)) ≡ disk.entry.ghost_name }
        ensures disk { disk_under (journal_of (chains_of result)) ≡ disk.entry.now }
        ensures limit { page_limit (journal_of (chains_of result)) ≡ limits.now.pages }
        ensures whole { is_broken (journal_of (chains_of result)) ≡ false }
        ensures going { has_refused result ≡ false }
        ensures read { read_of (chains_of result) ≡ finite.empty }
        ensures over { IsOver opened (D.view disk.entry.now) result }
        ensures rests { (image : Image) → Fits opened (D.view disk.entry.now) → HoldsImage image (D.view disk.entry.now) → RestsAt image result }
        ensures has { (image : Image) → Fits opened (D.view disk.entry.now) → HoldsImage image (D.view disk.entry.now) → Has image image result }
    {
        let Resting { pages, kept } = opened;
        let journal = Journal::over(disk, pages, limits);
        Self::over(alloc, Chains::over(alloc, journal, kept))
    }

    /// Hands the disk back, and leaves behind `kept` what is kept of the store, for `on`: nothing once a call of the disk has failed.
    pub fn hand_back(self, kept: &mut Option<Resting>) -> &'d mut D
        ensures same_disk { result.ghost_name ≡ loan_of (journal_of (chains_of self.entry)) }
        ensures disk { result.now ≡ disk_under (journal_of (chains_of self.entry)) }
        ensures whole { is_some kept.new ≡ not (is_broken (journal_of (chains_of self.entry))) }
        ensures fits { IfSome kept.new (λ opened. (image : Image) → RestsAt image self.entry → Fits opened (disk_of (chains_of self.entry))) }
        ensures pages { IfSome kept.new (λ opened. (pages : List (List ℕ)) → IsOpenStore pages self.entry
            → FitsPages pages opened (disk_of (chains_of self.entry))) }
    {
        let broken = self.is_broken();
        let (journal, own) = self.close().into_parts();
        if broken {
            *kept = None;
            return journal.close();
        }
        let pages = journal.pages();
        *kept = Some(Resting { pages, kept: own });
        journal.close()
    }

    /// Hands the chains back.
    pub fn close(self) -> Chains<'d, D>
        ensures { result ≡ chains_of self.entry }
    {
        let Buckets {
            chains,
            alloc: _,
            cache: _,
            refused: _,
        } = self;
        chains
    }

    /// Begins a transaction anew. What another has changed and not committed is forgotten.
    pub fn begin(&mut self)
        ensures begun { IsBegun self.new }
        ensures open { (pages : List (List ℕ)) → IsOpenStore pages self.old → IsOpenStore pages self.new }
        ensures journal { journal_of (chains_of self.new) ≡ journal_of (chains_of self.old) }
        ensures kept { kept_of (chains_of self.new) ≡ kept_of (chains_of self.old) }
        ensures going { has_refused self.new ≡ false }
        ensures same { OnlyLooks self.old self.new }
        ensures has { is_broken (journal_of (chains_of self.old)) ≡ false → (rest : Image) → RestsAt rest self.old → Has rest rest self.new }
    {
        self.cache = Cache::new(self.alloc);
        self.chains.begin();
        self.refused = false;
    }

    /// Refuses the transaction: from here on it can only be begun anew.
    pub fn refuse(&mut self)
        ensures refused { has_refused self.new ≡ true }
        ensures chains { chains_of self.new ≡ chains_of self.old }
        ensures cached { cached_of self.new ≡ cached_of self.old }
        ensures same { OnlyLooks self.old self.new }
    {
        self.refused = true;
    }

    /// Whether an earlier call met a disk fault.
    pub fn is_broken(&self) -> bool
        ensures { result ≡ is_broken (journal_of (chains_of self.now)) }
    {
        self.chains.is_broken()
    }

    /// The fields that the transaction gives the store.
    pub fn root(&self) -> Root
        ensures { result ≡ root_of (chains_of self.now) }
    {
        self.chains.root()
    }

    /// The first page that the bucket of a key has in the store, or 0 where it is empty there. Reads nothing.
    pub fn page_of(&self, map: StoreMap, key: u64) -> u64
        requires some { 1 ≤ bucket_count (chains_of self.now) }
        ensures { result ≡ first_of (chains_of self.now) (bucket_at self.now (map_number map) key) }
    {
        self.chains.first_page(self.chain_of(map, key))
    }

    // The chain of the bucket of a key.
    fn chain_of(&self, map: StoreMap, key: u64) -> u32
        requires some { 1 ≤ bucket_count (chains_of self.now) }
        ensures chain { result ≡ bucket_at self.now (map_number map) key }
        ensures string { IsString (bucket_count (chains_of self.now)) result }
        ensures is { IsBucketChain (bucket_count (chains_of self.now)) result }
    {
        chain_of(map, key, self.chains.root().buckets)
    }
}
