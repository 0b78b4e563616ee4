//! What is kept of a store is read.
ghost use Rattle.std.specs.Prelude.{◌≡◌, ◌+◌, ◌*◌, ◌<◌, ◌≤◌, ◌↔◌, List, ℕ, length, IfOk, IsTrue};
ghost use Rattle.outside.specs.Disk.{ReadsAtMost};
ghost use Rattle.page_journal.specs.Journal.{home_count, view_of};
ghost use Rattle.page_journal.specs.JournalCalls.{LooksAtJournal};
ghost use Rattle.chain_store.specs.Answers.{ReadsDirectories, ReadsDirectory, ReadsKept, RestsWith, first_or_root};
ghost use Rattle.chain_store.specs.Chain.{AreBehindRoot};
ghost use Rattle.chain_store.specs.Directories.{IsCount};
ghost use Rattle.chain_store.specs.Kept.{AreAllBehindRoot, AreLong, buckets_in, page_total};
ghost use Rattle.chain_store.specs.Links.{page_in};

use crate::Kept;
use crate::layout::{BUCKETS_AT, DIRECTORY, FIRSTS_AT, MAPS, MAX_BUCKETS, PAGE};
use crate::numbers::number_at;
use crate::walking::{Walked, walk};
use outside::Disk;
use page_journal::{Journal, StoreFault};
use std::alloc::Global;

/// Reads the root page and the directories of a store, each of their pages once.
pub fn read_kept<D: Disk>(alloc: Global, journal: &mut Journal<'_, D>) -> Result<Kept, StoreFault>
    ensures answers { (pages : List (List ℕ)) → RestsWith pages journal.old → ReadsKept pages result }
    ensures inside { IfOk result (λ kept. AreAllBehindRoot (home_count journal.old) kept.directories.items) }
    ensures reads { IfOk result (λ kept. ReadsAtMost (1 + page_total kept.directories.items) (4096 * home_count journal.old)
        (view_of journal.old) (view_of journal.new)) }
    ensures looks { LooksAtJournal journal.old journal.new result }
{
    let mut front = [0; PAGE];
    if let Err(fault) = journal.read_page(1, &mut front) {
        return Err(fault);
    }
    let buckets = number_at(&front, BUCKETS_AT);
    if !is_count(buckets) {
        return Err(StoreFault::BadStore { page: 1 });
    }
    let directories = match read_directories(alloc, journal, &front, buckets) {
        Ok(directories) => directories,
        Err(fault) => return Err(fault),
    };
    let front = Vec::from_slice(alloc, &front)?;
    Ok(Kept::of(front, directories))
}

// Reads the directories of all maps, one after another.
fn read_directories<D: Disk>(
    alloc: Global,
    journal: &mut Journal<'_, D>,
    front: &[u8; PAGE],
    buckets: u64,
) -> Result<Vec<Walked>, StoreFault>
    requires buckets { buckets ≡ buckets_in front.now }
    requires few { buckets ≤ 65536 }
    ensures answers { (pages : List (List ℕ)) → RestsWith pages journal.old → front.now ≡ page_in pages 1
        → ReadsDirectories pages result }
    ensures eight { IfOk result (λ directories. length directories.items ≡ 8) }
    ensures long { IfOk result (λ directories. AreLong directories.items buckets) }
    ensures inside { IfOk result (λ directories. AreAllBehindRoot (home_count journal.old) directories.items) }
    ensures reads { IfOk result (λ directories. ReadsAtMost (page_total directories.items) (4096 * home_count journal.old)
        (view_of journal.old) (view_of journal.new)) }
    ensures looks { LooksAtJournal journal.old journal.new result }
{
    let mut directories = Vec::new(alloc);
    for m in 0..MAPS {
        let directory = match read_directory(alloc, journal, front, m, buckets) {
            Ok(directory) => directory,
            Err(fault) => return Err(fault),
        };
        directories.push(directory)?;
    }
    Ok(directories)
}

// Reads the directory of a map.
fn read_directory<D: Disk>(
    alloc: Global,
    journal: &mut Journal<'_, D>,
    front: &[u8; PAGE],
    m: u32,
    buckets: u64,
) -> Result<Walked, StoreFault>
    requires map { m < 8 }
    requires buckets { buckets ≡ buckets_in front.now }
    requires few { buckets ≤ 65536 }
    ensures answers { (pages : List (List ℕ)) → RestsWith pages journal.old → front.now ≡ page_in pages 1
        → ReadsDirectory pages m result }
    ensures long { IfOk result (λ walked. length walked.bytes.items ≡ 8 * buckets) }
    ensures inside { IfOk result (λ walked. AreBehindRoot (home_count journal.old) walked.pages.items) }
    ensures reads { IfOk result (λ walked. ReadsAtMost (length walked.pages.items) (4096 * home_count journal.old)
        (view_of journal.old) (view_of journal.new)) }
    ensures looks { LooksAtJournal journal.old journal.new result }
{
    let first = number_at(front, FIRSTS_AT + 8 * (DIRECTORY + m) as usize);
    let walked = match walk(alloc, journal, first, DIRECTORY + m) {
        Ok(walked) => walked,
        Err(fault) => return Err(fault),
    };
    if walked.bytes.len() as u64 != 8 * buckets {
        return Err(StoreFault::BadStore {
            page: first_or_root(first),
        });
    }
    Ok(walked)
}

// The first page of a directory, or the root page where it has none.
fn first_or_root(first: u64) -> u64
    ensures { result ≡ first_or_root first }
{
    if first == 0 { 1 } else { first }
}

// Whether there may be so many buckets.
fn is_count(buckets: u64) -> bool
    ensures count { IsTrue result ↔ IsCount buckets }
    ensures few { IsTrue result → buckets ≤ 65536 }
{
    if buckets == 0 {
        return true;
    }
    buckets.is_power_of_two() && buckets <= MAX_BUCKETS as u64
}
