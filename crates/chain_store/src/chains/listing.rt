//! Which pages the chains of an open store have.
ghost use Rattle.std.specs.Prelude.{◌≡◌, ◌*◌, ◌<◌, List, ℕ, Some, false, is_err, length, IfOk, IsSome, OnOk};
ghost use Rattle.outside.specs.Disk.{ReadsAtMost};
ghost use Rattle.chain_store.specs.declared.layout.TheConstants.{FREE};
ghost use Rattle.std.specs.FinMap as map;
ghost use Rattle.page_journal.specs.Journal.{home_count};
ghost use Rattle.chain_store.specs.Directories.{IsChain};
ghost use Rattle.chain_store.specs.Known.{MayRead};

use super::Chains;
use crate::layout::FREE;
use crate::walking::walk;
use osm_base::{Ids, OutOfMemory, TryCopy};
use outside::Disk;
use page_journal::StoreFault;

impl<'d, D: Disk> Chains<'d, D> {
    ghost use Rattle.chain_store.specs.Chains.{IsOpen, ListsPages, disk_of, first_of, is_refused, journal_of, read_of};
    ghost use Rattle.chain_store.specs.StoreCalls.{LooksAtStore};

    /// The pages that a chain has in the store, in their order.
    /// For callers outside: the program does not use it.
    pub fn pages_of(&mut self, n: u32) -> Result<Ids, StoreFault>
        requires chain { IsChain n }
        requires going { is_refused self.old ≡ false }
        ensures answers { (pages : List (List ℕ)) → IsOpen pages self.old → ListsPages pages n (first_of self.old n) result }
        ensures reads { OnOk result (MayRead (4096 * home_count (journal_of self.old)) n (read_of self.old) (read_of self.new)
            (disk_of self.old) (disk_of self.new)) }
        ensures looks { LooksAtStore (is_err result) self.old self.new result }
    {
        if let Err(fault) = self.bring(n) {
            self.refused = true;
            return Err(fault);
        }
        match self.known_pages(n) {
            Ok(pages) => Ok(pages),
            Err(_) => {
                self.refused = true;
                Err(StoreFault::OutOfMemory)
            }
        }
    }

    /// The free pages of the store, in their order. A commit reads them again.
    /// For callers outside: the program does not use it.
    pub fn free_pages(&mut self) -> Result<Ids, StoreFault>
        requires going { is_refused self.old ≡ false }
        ensures answers { (pages : List (List ℕ)) → IsOpen pages self.old → ListsPages pages FREE (first_of self.old FREE) result }
        ensures read { read_of self.new ≡ read_of self.old }
        ensures reads { IfOk result (λ ns. ReadsAtMost (length ns) (4096 * home_count (journal_of self.old)) (disk_of self.old) (disk_of self.new)) }
        ensures looks { LooksAtStore (is_err result) self.old self.new result }
    {
        let first = self.kept.first(FREE);
        match walk(self.alloc, &mut self.journal, first, FREE) {
            Ok(free) => Ok(Ids::from_vec(free.pages)),
            Err(fault) => {
                self.refused = true;
                Err(fault)
            }
        }
    }

    /// The pages of a chain that the transaction has read, in their order. Reads nothing.
    /// For callers outside: the program does not use it.
    pub fn known_pages(&self, n: u32) -> Result<Ids, OutOfMemory>
        requires there { IsSome (map.get (read_of self.now) n) }
        ensures pages { IfOk result (λ pages. map.get (read_of self.now) n ≡ Some pages) }
    {
        let Some(pages) = self.read.get(n) else {
            unreachable!()
        };
        pages.copy(self.alloc)
    }
}
