//! The home pages of an open store.
ghost use Rattle.std.specs.Prelude.{◌≡◌, ◌+◌, ◌*◌, ◌^◌, ◌<◌, ◌≤◌, ◌↔◌, IsTrue, List, ℕ, false, length, option_map, is_ok, MatchResult, Ok, Err, IfOk, OnOk, IsErr, if◌then◌else◌};
ghost use Rattle.outside.specs.Disk.{one_read, Tells, Goes};
ghost use Rattle.page_journal.specs.Answers.{Commits, IsOpenAnswer, Opens, Reads, ReadsFrom, answers_disk_fault};
ghost use Rattle.page_journal.specs.Crash.{AllHome, IsAtRest, IsLikeOne, LeavesEither};
ghost use Rattle.page_journal.specs.Home.{Home};
ghost use Rattle.page_journal.specs.PageSet.{CanCommit, overwritten};
ghost use Rattle.page_journal.specs.Pages.{page_from};

use crate::committing::write_through;
use crate::layout::{PAGE, PAGE_LEN};
use crate::opening::open;
use crate::{PageSet, StoreFault};
use osm_base::Limits;
use outside::{Disk, Failed};

/// The home pages of an open store, over the disk that it borrows.
#[derive(Drop)]
pub struct Journal<'d, D: Disk> {
    disk: &'d mut D,
    pages: u64,
    limit: u64,
    broken: bool,
    ghost some: { 2 ≤ pages },
    ghost small: { 4096 * pages ≤ 2 ^ 62 },
    ghost limited: { limit ≤ 2 ^ 28 },
}

impl<'d, D: Disk> Journal<'d, D> {
    ghost use Rattle.page_journal.specs.Journal.{disk_of, home_count, is_broken, loan_of, page_limit, view_of};
    ghost use Rattle.page_journal.specs.JournalCalls.{KeepsJournal, LooksAtJournal};

    /// Opens the store on this disk. It is the call of `open`, which says what a refusal leaves on the
    /// disk, and then `over`. For callers outside: the program does not use it.
    pub fn attach(disk: &'d mut D, limits: &Limits) -> Result<Self, StoreFault>
        ensures same_disk { IfOk result (λ journal. loan_of journal ≡ disk.entry.ghost_name) }
        ensures answers { (bytes : List ℕ) → Tells (D.view disk.entry.now) bytes
            → MatchResult result (λ journal. Opens bytes (Ok (home_count journal))) (λ fault. Opens bytes (Err fault)) }
        ensures alone { IsOpenAnswer result }
        ensures done { IfOk result (λ journal. (bytes : List ℕ) → Tells (D.view disk.entry.now) bytes
            → (pages : List (List ℕ)) × Home pages bytes × (length pages + 1 ≡ home_count journal)
            × IsAtRest pages (view_of journal)) }
        ensures any_moment { IfOk result (λ journal. (bytes : List ℕ) → Tells (D.view disk.entry.now) bytes
            → AllHome (D.view disk.entry.now).crashes
            → Goes (IsLikeOne (D.view disk.entry.now).crashes) (D.view disk.entry.now).crashes (view_of journal).crashes) }
        ensures limit { IfOk result (λ journal. page_limit journal ≡ limits.now.pages) }
        ensures whole { IfOk result (λ journal. is_broken journal ≡ false) }
    {
        match open(disk) {
            Ok(pages) => Ok(Self::over(disk, pages, limits)),
            Err(fault) => Err(fault),
        }
    }

    /// The journal of a disk that `open` has opened, which answered so many home pages.
    pub fn over(disk: &'d mut D, pages: u64, limits: &Limits) -> Self
        requires some { 2 ≤ pages }
        requires small { 4096 * pages ≤ 2 ^ 62 }
        ensures same_disk { loan_of result ≡ disk.entry.ghost_name }
        ensures disk { disk_of result ≡ disk.entry.now }
        ensures pages { home_count result ≡ pages }
        ensures limit { page_limit result ≡ limits.now.pages }
        ensures whole { is_broken result ≡ false }
    {
        Journal {
            disk,
            pages,
            limit: limits.pages(),
            broken: false,
        }
    }

    /// Hands the disk back.
    pub fn close(self) -> &'d mut D
        ensures same_disk { result.ghost_name ≡ loan_of self.entry }
        ensures disk { result.now ≡ disk_of self.entry }
    {
        let Journal {
            disk,
            pages: _,
            limit: _,
            broken: _,
        } = self;
        disk
    }

    /// How many home pages there are, page 0 among them.
    pub fn pages(&self) -> u64
        ensures pages { result ≡ home_count self.now }
        ensures some { 2 ≤ result }
    {
        self.pages
    }

    /// Whether an earlier call met a disk fault.
    pub fn is_broken(&self) -> bool
        ensures { result ≡ is_broken self.now }
    {
        self.broken
    }

    /// Whether the set may be committed, so that there are `home` home pages from then on.
    /// For callers outside: the program does not use it.
    pub fn can_commit(&self, set: &PageSet, home: u64) -> bool
        ensures { IsTrue result ↔ CanCommit set.now (home_count self.now) home }
    {
        set.can_commit(self.pages, home)
    }

    /// Reads a home page. A page in which the disk ends is refused.
    #[tactic(auto, using(crate::proofs::Moments::looks))]
    pub fn read_page(&mut self, page: u64, buf: &mut [u8; 4096]) -> Result<(), StoreFault>
        requires { page < home_count self.old }
        ensures page { OnOk result ((bytes : List ℕ) → Tells (view_of self.old) bytes → buf.new ≡ page_from bytes (4096 * page)) }
        ensures answers { Reads (is_broken self.old) page result }
        ensures bounds { (bytes : List ℕ) → Tells (view_of self.old) bytes → ReadsFrom bytes page result }
        ensures reads { (view_of self.new).reads ≡ (if is_broken self.old then (view_of self.old).reads
            else option_map (one_read (4096 * page) 4096) (view_of self.old).reads) }
        ensures looks { LooksAtJournal self.old self.new result }
    {
        if self.broken {
            return Err(StoreFault::Broken);
        }
        match self.disk.read_at(page * PAGE_LEN, buf.as_mut_slice()) {
            Ok(count) => {
                if count < PAGE {
                    return Err(StoreFault::BadStore { page });
                }
                Ok(())
            }
            Err(Failed) => {
                self.broken = true;
                Err(StoreFault::DiskFault)
            }
        }
    }

    /// Writes the pages of the set over the home pages, of which there are `home` from then on. At every
    /// moment a crash leaves the old home pages or the new ones, and after `Ok` the new ones alone.
    pub fn commit(&mut self, set: &PageSet, home: u64) -> Result<(), StoreFault>
        requires { CanCommit set.now (home_count self.old) home }
        ensures answers { Commits (is_broken self.old) (page_limit self.old) home result }
        ensures any_moment { (old : List (List ℕ)) → IsAtRest old (view_of self.old) → length old + 1 ≡ home_count self.old
            → LeavesEither old (overwritten set.now home old) (view_of self.old) (view_of self.new) }
        ensures done { OnOk result ((old : List (List ℕ)) → IsAtRest old (view_of self.old) → length old + 1 ≡ home_count self.old
            → IsAtRest (overwritten set.now home old) (view_of self.new)) }
        ensures untouched { IsErr result → answers_disk_fault result ≡ false → disk_of self.new ≡ disk_of self.old }
        ensures reads { (view_of self.new).reads ≡ (view_of self.old).reads }
        ensures pages { home_count self.new ≡ (if is_ok result then home else home_count self.old) }
        ensures keeps { KeepsJournal self.old self.new result }
    {
        if self.broken {
            return Err(StoreFault::Broken);
        }
        if home > self.limit {
            return Err(StoreFault::StoreFull { pages: home });
        }
        match write_through(self.disk, &set.pages, home) {
            Ok(()) => {
                self.pages = home;
                Ok(())
            }
            Err(Failed) => {
                self.broken = true;
                Err(StoreFault::DiskFault)
            }
        }
    }
}
