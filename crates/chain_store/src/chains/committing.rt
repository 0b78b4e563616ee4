//! What a transaction has written is made to stand.
ghost use Rattle.std.specs.Prelude.{◌≡◌, ◌⊎◌, ◌≤◌, ◌<◌, List, ℕ, false, is_err, IfOk, IsSome, OnOk, Some};
ghost use Rattle.std.specs.FinMap as map;
ghost use Rattle.outside.specs.Disk.{Goes};
ghost use Rattle.page_journal.specs.Journal.{home_count, page_limit};
ghost use Rattle.chain_store.specs.Ends.{Ends, ReadsFree};
ghost use Rattle.chain_store.specs.Known.{changed};
ghost use Rattle.chain_store.specs.Needed.{FitsNeeded, needed};
ghost use Rattle.chain_store.specs.State.{HasState, IsState};
ghost use Rattle.chain_store.specs.Taken.{Plans};
ghost use Rattle.chain_store.specs.declared.root.Root.{Root};

use super::Chains;
use crate::gathering::gather;
use crate::layout::FREE;
use crate::number_map::NumberMap;
use crate::planning::Plan;
use crate::walking::walk;
use crate::{Kept, Root};
use osm_base::{Bytes, Ids, OutOfMemory};
use outside::Disk;
use page_journal::StoreFault;
use std::alloc::Global;
use std::mem;

/// What a transaction has written, with marks for the pages that stay, and read, and the fields that it gives the store.
#[derive(Drop)]
pub(crate) struct Taken {
    written: NumberMap<Bytes>,
    read: NumberMap<Ids>,
    before: NumberMap<Bytes>,
    root: Root,
}

impl<'d, D: Disk> Chains<'d, D> {
    ghost use Rattle.chain_store.specs.Chains.{IsOpen, IsOpenStore, before_of, disk_of, is_refused, journal_of, kept_of, read_of, root_of, texts_of, written_of};
    ghost use Rattle.chain_store.specs.StoreCalls.{CommitsStore, IsBegun};
    ghost use Rattle.chain_store.specs.Taken.{MayCommit};

    /// Makes what was written stand, all of it or nothing, and begins a transaction anew. At every moment a crash
    /// leaves the store as it was, or as it is to be.
    pub fn commit(&mut self) -> Result<(), StoreFault>
        requires { is_refused self.old ≡ false }
        ensures any_moment { (root : Root) (strings : ℕ → List ℕ) (pages : List (List ℕ)) → IsOpen pages self.old → IsState root strings pages
            → Goes (λ left. HasState root strings left ⊎ HasState (root_of self.old) (changed strings (written_of self.old)) left)
            (disk_of self.old).crashes (disk_of self.new).crashes }
        ensures done { OnOk result ((root : Root) (strings : ℕ → List ℕ) (pages : List (List ℕ)) → IsOpen pages self.old → IsState root strings pages
            → (new : List (List ℕ)) × IsOpen new self.new × IsState (root_of self.old) (changed strings (written_of self.old)) new) }
        ensures answers { (pages : List (List ℕ)) → IsOpen pages self.old
            → Ends pages (kept_of self.old) (root_of self.old) (written_of self.old) (read_of self.old) (before_of self.old)
            (page_limit (journal_of self.old)) (home_count (journal_of self.new)) result }
        ensures needs { (root : Root) (strings : ℕ → List ℕ) (pages : List (List ℕ)) → IsOpen pages self.old → IsState root strings pages
            → FitsNeeded (needed (home_count (journal_of self.old)) (root_of self.old).buckets (changed strings (written_of self.old)))
            (page_limit (journal_of self.old)) (home_count (journal_of self.new)) result }
        ensures reads { OnOk result (ReadsFree (journal_of self.old) (kept_of self.old) (journal_of self.new)) }
        ensures begun { IsBegun self.new }
        ensures refused { is_refused self.new ≡ is_err result }
        ensures commits { CommitsStore self.old self.new result }
    {
        let taken = self.take();
        let outcome = self.write(taken);
        self.refused = outcome.is_err();
        outcome
    }

    // Begins anew, and hands out what was written and read.
    fn take(&mut self) -> Taken
        ensures may { MayCommit (journal_of self.old) (kept_of self.old) result }
        ensures was_written { result.written ≡ written_of self.old }
        ensures was_read { result.read ≡ read_of self.old }
        ensures was_before { result.before ≡ before_of self.old }
        ensures was_root { result.root ≡ root_of self.old }
        ensures journal { journal_of self.new ≡ journal_of self.old }
        ensures kept { kept_of self.new ≡ kept_of self.old }
        ensures begun { IsBegun self.new }
    {
        let root = self.kept.root();
        let taken = Taken {
            written: mem::replace(&mut self.written, NumberMap::new(self.alloc)),
            read: mem::replace(&mut self.read, NumberMap::new(self.alloc)),
            before: mem::replace(&mut self.before, NumberMap::new(self.alloc)),
            root: self.root,
        };
        self.texts = NumberMap::new(self.alloc);
        self.root = root;
        taken
    }

    // Writes what was taken out of the transaction.
    fn write(&mut self, taken: Taken) -> Result<(), StoreFault>
        requires may { MayCommit (journal_of self.old) (kept_of self.old) taken }
        requires begun { IsBegun self.old }
        ensures any_moment { (root : Root) (strings : ℕ → List ℕ) (pages : List (List ℕ))
            → IsOpenStore pages (journal_of self.old) (kept_of self.old) taken.read (texts_of self.old) taken.written taken.before → IsState root strings pages
            → Goes (λ left. HasState root strings left ⊎ HasState taken.root (changed strings taken.written) left)
            (disk_of self.old).crashes (disk_of self.new).crashes }
        ensures done { OnOk result ((root : Root) (strings : ℕ → List ℕ) (pages : List (List ℕ))
            → IsOpenStore pages (journal_of self.old) (kept_of self.old) taken.read (texts_of self.old) taken.written taken.before → IsState root strings pages
            → (new : List (List ℕ)) × IsOpen new self.new × IsState taken.root (changed strings taken.written) new) }
        ensures answers { (pages : List (List ℕ)) → IsOpenStore pages (journal_of self.old) (kept_of self.old) taken.read (texts_of self.old) taken.written taken.before
            → Ends pages (kept_of self.old) taken.root taken.written taken.read taken.before
            (page_limit (journal_of self.old)) (home_count (journal_of self.new)) result }
        ensures needs { (root : Root) (strings : ℕ → List ℕ) (pages : List (List ℕ))
            → IsOpenStore pages (journal_of self.old) (kept_of self.old) taken.read (texts_of self.old) taken.written taken.before → IsState root strings pages
            → FitsNeeded (needed (home_count (journal_of self.old)) taken.root.buckets (changed strings taken.written))
            (page_limit (journal_of self.old)) (home_count (journal_of self.new)) result }
        ensures reads { OnOk result (ReadsFree (journal_of self.old) (kept_of self.old) (journal_of self.new)) }
        ensures still { IsBegun self.new }
        ensures commits { CommitsStore self.old self.new result }
    {
        let root = taken.root;
        let home = self.journal.pages();
        let free = match walk(self.alloc, &mut self.journal, self.kept.first(FREE), FREE) {
            Ok(free) => free,
            Err(fault) => return Err(fault),
        };
        let plan = planned(self.alloc, &self.kept, taken, &free.pages, home)?;
        let Plan { set, home, kept } = plan;
        if let Err(fault) = self.journal.commit(&set, home) {
            return Err(fault);
        }
        self.root = root;
        self.kept = kept;
        Ok(())
    }
}

// What it takes to make this stand, over a store of which that is kept and whose free pages these are.
fn planned(
    alloc: Global,
    kept: &Kept,
    taken: Taken,
    free: &[u64],
    home: u64,
) -> Result<Plan, OutOfMemory>
    requires few { taken.root.buckets ≤ 65536 }
    requires known { (n : ℕ) (bytes : List ℕ) → map.get taken.written n ≡ Some bytes → IsSome (map.get taken.read n) }
    ensures { IfOk result (λ plan. Plans kept.now taken free.now home plan) }
{
    let Taken {
        written,
        read,
        before,
        root,
    } = taken;
    let parts = gather(alloc, written, read, before)?;
    Plan::of(alloc, kept, &root, parts, free, home)
}
