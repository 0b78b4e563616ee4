//! A store is opened on a disk that stays with its owner.
ghost use Rattle.std.specs.Prelude.{◌≡◌, ◌≢◌, ◌+◌, ◌*◌, ◌^◌, ◌≤◌, List, ℕ, false, length, IfOk, OnOk};
ghost use Rattle.outside.specs.Disk.{ReadsAtMost, Stays, Tells};
ghost use Rattle.page_journal.specs.Answers.{HasDiskCause};
ghost use Rattle.page_journal.specs.Crash.{IsAtRest};
ghost use Rattle.page_journal.specs.Home.{Home};
ghost use Rattle.page_journal.specs.Pages.{gate};
ghost use Rattle.page_journal.specs.declared.layout.TheConstants.{OPEN};
ghost use Rattle.chain_store.specs.Answers.{IsReadAnswer, ReadsKept};
ghost use Rattle.chain_store.specs.Directories.{IsCount};
ghost use Rattle.chain_store.specs.Kept.{AreAllBehindRoot, page_total};
ghost use Rattle.bucket_store.specs.Opening.{FindsImage, Fits, LeavesDisk, directory_pages, IsOpeningAnswer, OpensStore, opened_root};

use crate::resting::Resting;
use chain_store::{Kept, read_kept};
use osm_base::Limits;
use outside::Disk;
use page_journal::{Journal, StoreFault};
use std::alloc::Global;

/// Opens the store on this disk: finishes a journal that a crash has left open, and reads the root page and the
/// directories.
pub fn open<D: Disk>(alloc: Global, disk: &mut D, limits: &Limits) -> Result<Resting, StoreFault>
    ensures fits { IfOk result (λ opened. (bytes : List ℕ) → Tells (D.view disk.old) bytes → Fits opened (D.view disk.new)) }
    ensures answers { (bytes : List ℕ) → Tells (D.view disk.old) bytes → OpensStore bytes result }
    ensures alone { IsOpeningAnswer result }
    ensures count { IfOk result (λ opened. (bytes : List ℕ) → Tells (D.view disk.old) bytes → IsCount (opened_root opened).buckets) }

    // Its home pages are those of the bytes as they were, once a journal that was left open is finished.
    ensures home { OnOk result ((bytes : List ℕ) → Tells (D.view disk.old) bytes
        → (pages : List (List ℕ)) × Home pages bytes × IsAtRest pages (D.view disk.new)) }

    ensures image { FindsImage (D.view disk.old) (D.view disk.new) result }
    ensures leaves { LeavesDisk (D.view disk.old) (D.view disk.new) result }

    // Where no journal is open, each page is read once: the first two in one read, the root, and those of the directories.
    ensures reads { IfOk result (λ opened. (bytes : List ℕ) → Tells (D.view disk.old) bytes → gate bytes ≢ OPEN
        → ReadsAtMost (2 + directory_pages opened) (length bytes) (D.view disk.old) (D.view disk.new)) }
{
    let pages = match page_journal::open(disk) {
        Ok(pages) => pages,
        Err(fault) => return Err(fault),
    };
    match kept_on(alloc, disk, limits, pages) {
        Ok(kept) => Ok(Resting { pages, kept }),
        Err(fault) => Err(fault),
    }
}

// What is kept of a store with so many home pages.
fn kept_on<D: Disk>(
    alloc: Global,
    disk: &mut D,
    limits: &Limits,
    pages: u64,
) -> Result<Kept, StoreFault>
    requires some { 2 ≤ pages }
    requires small { 4096 * pages ≤ 2 ^ 62 }
    ensures answers { (home : List (List ℕ)) → IsAtRest home (D.view disk.old) → length home + 1 ≡ pages → ReadsKept home result }
    ensures alone { IsReadAnswer false result }
    ensures inside { IfOk result (λ kept. AreAllBehindRoot pages kept.directories.items) }
    ensures stays { Stays (D.view disk.old) (D.view disk.new) }
    ensures reads { IfOk result (λ kept. ReadsAtMost (1 + page_total kept.directories.items) (4096 * pages) (D.view disk.old) (D.view disk.new)) }
    ensures cause { HasDiskCause (D.view disk.old).faults (D.view disk.new).faults result }
{
    let mut journal = Journal::over(disk, pages, limits);
    let kept = read_kept(alloc, &mut journal);
    let _disk = journal.close();
    kept
}
