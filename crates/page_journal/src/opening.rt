//! A store is opened: a journal that a crash has left open is finished.
ghost use Rattle.std.specs.Prelude.{◌≡◌, ◌≢◌, ◌↔◌, ◌+◌, ◌*◌, ◌^◌, ◌<◌, ◌≤◌, List, ℕ, None, false, length, IfOk, IfSome, OnOk, IsErrOf, IsTrue};
ghost use Rattle.outside.specs.Bytes.{IfTold};
ghost use Rattle.outside.specs.Disk.{Elapses, Follows, Only, Tells, Torn, overlaid, Goes, Stays, Within, ReadsAtMost};
ghost use Rattle.page_journal.specs.Answers.{Counts, Finishes, Looks, Opens, Prepares};
ghost use Rattle.page_journal.specs.Crash.{AllHome, BesidePages, IsAtRest, IsLikeOne, Spares};
ghost use Rattle.page_journal.specs.DiskCalls.{CopiesOnDisk, LooksAtDisk, MovesHome, OpensDisk, ReadsDisk};
ghost use Rattle.page_journal.specs.Home.{AreRising, HasOpenJournal, Home, IsFormatted, IsWellFormed};
ghost use Rattle.page_journal.specs.Pages.{body_at, entry, first_page, gate, head_of, number, number_pages, page_count, page_from};
ghost use Rattle.page_journal.specs.Written.{Finished, HomePut};
ghost use Rattle.page_journal.specs.declared.fault.StoreFault.TheVariants.{NotFormatted};
ghost use Rattle.page_journal.specs.declared.layout.TheConstants.{OPEN, ROOT_AT};

use crate::StoreFault;
use crate::formatting::zeros;
use crate::layout::{
    COUNT_AT, FIRST_AT, HEAD, MARK, OPEN, PAGE, PAGE_LEN, ROOT_AT, SHUT, number_page_count,
};
use crate::pages::set_gate;
use crate::reading::{gate_in, head_number, read_head, read_number};
use outside::{Disk, Failed};

/// Opens a store, and answers how many home pages it has, page 0 among them. A journal that was left
/// open is finished. It begins with a sync, so that nothing older is pending from then on.
pub fn open<D: Disk>(disk: &mut D) -> Result<u64, StoreFault>
    ensures answers { (bytes : List ℕ) → Tells (D.view disk.old) bytes → Opens bytes result }
    ensures done { IfOk result (λ home. (bytes : List ℕ) → Tells (D.view disk.old) bytes
        → (pages : List (List ℕ)) × Home pages bytes × (length pages + 1 ≡ home)
        × IsAtRest pages (D.view disk.new)) }

    // Each outcome of a crash during the call has the home pages of one at its entry.
    ensures any_moment { (bytes : List ℕ) → Tells (D.view disk.old) bytes → AllHome (D.view disk.old).crashes
        → Goes (IsLikeOne (D.view disk.old).crashes) (D.view disk.old).crashes (D.view disk.new).crashes }

    ensures opens { OpensDisk (D.view disk.old) (D.view disk.new) result }
    ensures one_read { IfTold (D.view disk.old).content (λ bytes. gate bytes ≢ OPEN
        → ReadsAtMost 1 (length bytes) (D.view disk.old) (D.view disk.new)) }
    ensures reads { IfTold (D.view disk.old).content (λ bytes.
        ReadsAtMost (2 + 3 * page_count bytes) (length bytes) (D.view disk.old) (D.view disk.new)) }
    ensures small { IfOk result (λ home. (2 ≤ home) × (4096 * home ≤ 2 ^ 62)) }
{
    let mut head = zeros();
    let len = match prepare(disk, &mut head) {
        Ok(len) => len,
        Err(fault) => return Err(fault),
    };
    let moved = match finish(disk, &head, len) {
        Ok(moved) => moved,
        Err(fault) => return Err(fault),
    };
    match count_home(disk, &head, moved, len) {
        Ok(home) => Ok(home),
        Err(fault) => Err(fault),
    }
}

// Syncs the disk, reads its first two pages, and answers how long it is. What does not begin as a store is refused.
#[tactic(auto, using(crate::proofs::Moments::looks))]
fn prepare<D: Disk>(disk: &mut D, head: &mut [u8; HEAD]) -> Result<u64, StoreFault>
    ensures answers { (bytes : List ℕ) → Tells (D.view disk.old) bytes → Prepares bytes result }
    ensures head { OnOk result ((bytes : List ℕ) → Tells (D.view disk.old) bytes → head.new ≡ head_of bytes) }
    ensures durable { OnOk result ((bytes : List ℕ) → Tells (D.view disk.old) bytes → Only bytes (D.view disk.new).crashes) }
    ensures small { IfOk result (λ len. len ≤ 2 ^ 62) }
    ensures reads { (bytes : List ℕ) → Tells (D.view disk.old) bytes
        → ReadsAtMost 1 (length bytes) (D.view disk.old) (D.view disk.new) }
    ensures looks { LooksAtDisk (D.view disk.old) (D.view disk.new) result }
{
    disk.sync()?;
    let len = disk.len()?;
    if len < HEAD as u64 {
        return Err(StoreFault::NotFormatted);
    }
    read_head(disk, head)?;
    let mark = head_number(head, 0);
    if mark != MARK {
        return Err(StoreFault::NotFormatted);
    }
    Ok(len)
}

// How many home pages there are, where no journal is open. Where one was finished the root is read again.
#[tactic(auto, using(crate::proofs::Moments::looks))]
fn count_home<D: Disk>(
    disk: &mut D,
    head: &[u8; HEAD],
    moved: bool,
    len: u64,
) -> Result<u64, StoreFault>
    requires { len ≤ 2 ^ 62 }
    ensures answers { (bytes : List ℕ) → Tells (D.view disk.old) bytes → 8192 ≤ length bytes
        → (moved ≡ false → head.now ≡ head_of bytes) → Counts bytes len result }
    ensures small { IfOk result (λ home. (2 ≤ home) × (4096 * home ≤ len)) }
    ensures formatted { IsErrOf result NotFormatted → ⊥ }
    ensures unread { moved ≡ false → (D.view disk.new).reads ≡ (D.view disk.old).reads }
    ensures reads { ReadsAtMost 1 8192 (D.view disk.old) (D.view disk.new) }
    ensures looks { LooksAtDisk (D.view disk.old) (D.view disk.new) result }
{
    let home = home_number(disk, head, moved)?;
    if !holds(home, len) {
        return Err(StoreFault::BadStore { page: 1 });
    }
    Ok(home)
}

// The number of home pages as the root tells it.
fn home_number<D: Disk>(disk: &mut D, head: &[u8; HEAD], moved: bool) -> Result<u64, Failed>
    ensures value { IfOk result (λ value. (bytes : List ℕ) → Tells (D.view disk.old) bytes → 8192 ≤ length bytes
        → (moved ≡ false → head.now ≡ head_of bytes) → value ≡ number bytes ROOT_AT) }
    ensures unread { moved ≡ false → (D.view disk.new).reads ≡ (D.view disk.old).reads }
    ensures reads { ReadsDisk 1 8192 (D.view disk.old) (D.view disk.new) result }
{
    if moved {
        let home = read_number(disk, ROOT_AT)?;
        return Ok(home);
    }
    Ok(head_number(head, ROOT_AT as usize))
}

// Whether so many bytes hold so many pages, at least two.
fn holds(home: u64, len: u64) -> bool
    requires { len ≤ 2 ^ 62 }
    ensures { IsTrue result ↔ ((2 ≤ home) × (4096 * home ≤ len)) }
{
    2 <= home && home <= len / PAGE_LEN
}

// Finishes the journal, where the gate is open.
fn finish<D: Disk>(disk: &mut D, head: &[u8; HEAD], len: u64) -> Result<bool, StoreFault>
    requires { len ≤ 2 ^ 62 }
    ensures answers { (bytes : List ℕ) → Tells (D.view disk.old) bytes → IsFormatted bytes → len ≡ length bytes
        → head.now ≡ head_of bytes → Finishes bytes result }
    ensures done { OnOk result ((bytes : List ℕ) → Tells (D.view disk.old) bytes → Only bytes (D.view disk.old).crashes
        → IsFormatted bytes → len ≡ length bytes → head.now ≡ head_of bytes
        → (now : List ℕ) × Tells (D.view disk.new) now × Only now (D.view disk.new).crashes × Finished bytes now) }
    ensures any_moment { (bytes : List ℕ) (pages : List (List ℕ)) → Tells (D.view disk.old) bytes
        → Only bytes (D.view disk.old).crashes → len ≡ length bytes → Home pages bytes → head.now ≡ head_of bytes
        → Goes (Home pages) (D.view disk.old).crashes (D.view disk.new).crashes }
    ensures looked { (bytes : List ℕ) → Tells (D.view disk.old) bytes → IsFormatted bytes → len ≡ length bytes
        → head.now ≡ head_of bytes → ¬ HasOpenJournal bytes → Stays (D.view disk.old) (D.view disk.new) }
    ensures shut { (bytes : List ℕ) → IsFormatted bytes → head.now ≡ head_of bytes → gate bytes ≢ OPEN
        → IfOk result (λ moved. moved ≡ false) × ((D.view disk.new).reads ≡ (D.view disk.old).reads) }
    ensures reads { (bytes : List ℕ) → IsFormatted bytes → len ≡ length bytes → head.now ≡ head_of bytes
        → ReadsAtMost (3 * page_count bytes) (length bytes) (D.view disk.old) (D.view disk.new) }
    ensures formatted { IsErrOf result NotFormatted → ⊥ }
    ensures moves { MovesHome (D.view disk.old) (D.view disk.new) result }
{
    match look(disk, head, len) {
        Ok(None) => Ok(false),
        Ok(Some((first, count))) => match copy_and_shut(disk, first, count) {
            Ok(()) => Ok(true),
            Err(Failed) => Err(StoreFault::DiskFault),
        },
        Err(fault) => Err(fault),
    }
}

// The first page of the journal and the number of its pages, where the gate is open.
#[tactic(auto, using(crate::proofs::Moments::looks))]
fn look<D: Disk>(
    disk: &mut D,
    head: &[u8; HEAD],
    len: u64,
) -> Result<Option<(u64, u64)>, StoreFault>
    requires { len ≤ 2 ^ 62 }
    ensures answers { (bytes : List ℕ) → Tells (D.view disk.old) bytes → IsFormatted bytes → len ≡ length bytes
        → head.now ≡ head_of bytes → Looks bytes result }
    ensures found { (bytes : List ℕ) → IsFormatted bytes → head.now ≡ head_of bytes
        → IfOk result (λ found. IfSome found (λ (first, count). (first ≡ first_page bytes) × (count ≡ page_count bytes))) }
    ensures shut { (bytes : List ℕ) → IsFormatted bytes → head.now ≡ head_of bytes → gate bytes ≢ OPEN
        → IfOk result (λ found. found ≡ None) × ((D.view disk.new).reads ≡ (D.view disk.old).reads) }
    ensures reads { (bytes : List ℕ) → IsFormatted bytes → len ≡ length bytes → head.now ≡ head_of bytes
        → ReadsAtMost (page_count bytes) (length bytes) (D.view disk.old) (D.view disk.new) }
    ensures room { IfOk result (λ found. IfSome found (λ (first, count). 4096 * (first + number_pages count + count) ≤ len)) }
    ensures formatted { IsErrOf result NotFormatted → ⊥ }
    ensures looks { LooksAtDisk (D.view disk.old) (D.view disk.new) result }
{
    let value = gate_in(head);
    if value != OPEN {
        return Ok(None);
    }
    let first = head_number(head, FIRST_AT as usize);
    let count = head_number(head, COUNT_AT as usize);
    if !fits(first, count, len) {
        return Err(StoreFault::BadStore { page: 0 });
    }
    let well = rises(disk, first, count)?;
    if !well {
        return Err(StoreFault::BadStore { page: 0 });
    }
    Ok(Some((first, count)))
}

// Whether so many bytes hold a journal of so many pages, at least one, from this page on.
fn fits(first: u64, count: u64, len: u64) -> bool
    requires { len ≤ 2 ^ 62 }
    ensures { IsTrue result ↔ ((1 ≤ count) × (4096 * (first + number_pages count + count) ≤ len)) }
{
    let pages = len / PAGE_LEN;
    if count < 1 || count > pages || first > pages {
        return false;
    }
    first + number_page_count(count) + count <= pages
}

// Whether the numbers of the journal rise from at least 1 to below its first page.
#[tactic(auto, using(crate::proofs::Moments::looks))]
fn rises<D: Disk>(disk: &mut D, first: u64, count: u64) -> Result<bool, Failed>
    requires { 4096 * (first + number_pages count + count) ≤ 2 ^ 62 }
    ensures rises { IfOk result (λ yes. (bytes : List ℕ) → Tells (D.view disk.old) bytes
        → 4096 * (first + number_pages count + count) ≤ length bytes → IsTrue yes ↔ AreRising bytes first count) }
    ensures reads { ReadsDisk count (4096 * (first + number_pages count + count))
        (D.view disk.old) (D.view disk.new) result }
{
    let mut last = 0;
    for place in 0..count {
        let number = read_number(disk, first * PAGE_LEN + 8 * place)?;
        if !is_next(last, number, first) {
            return Ok(false);
        }
        last = number;
    }
    Ok(true)
}

fn is_next(last: u64, number: u64, first: u64) -> bool
    ensures { IsTrue result ↔ ((last < number) × (number < first)) }
{
    last < number && number < first
}

// Copies the pages of the journal home, and shuts its gate.
fn copy_and_shut<D: Disk>(disk: &mut D, first: u64, count: u64) -> Result<(), Failed>
    requires { 4096 * (first + number_pages count + count) ≤ 2 ^ 62 }
    ensures done { OnOk result ((bytes : List ℕ) → Tells (D.view disk.old) bytes → IsFormatted bytes → IsWellFormed bytes
        → gate bytes ≡ OPEN → first ≡ first_page bytes → count ≡ page_count bytes
        → (now : List ℕ) × Tells (D.view disk.new) now × Only now (D.view disk.new).crashes × Finished bytes now) }
    ensures any_moment { (bytes : List ℕ) (pages : List (List ℕ)) → Tells (D.view disk.old) bytes
        → Only bytes (D.view disk.old).crashes → Home pages bytes → gate bytes ≡ OPEN
        → first ≡ first_page bytes → count ≡ page_count bytes
        → Goes (Home pages) (D.view disk.old).crashes (D.view disk.new).crashes }
    ensures copies { CopiesOnDisk (2 * count) (4096 * (first + number_pages count + count))
        (D.view disk.old) (D.view disk.new) result }
{
    copy_home(disk, first, count)?;
    set_gate(disk, SHUT)
}

// Copies the pages of the journal home, and makes them stable.
fn copy_home<D: Disk>(disk: &mut D, first: u64, count: u64) -> Result<(), Failed>
    requires { 4096 * (first + number_pages count + count) ≤ 2 ^ 62 }
    ensures put { OnOk result ((bytes : List ℕ) → Tells (D.view disk.old) bytes → IsWellFormed bytes
        → first ≡ first_page bytes → count ≡ page_count bytes
        → (now : List ℕ) × Tells (D.view disk.new) now × Only now (D.view disk.new).crashes
        × HomePut (entry bytes) (λ place. page_from bytes (body_at bytes place)) count bytes now) }
    ensures crash { (bytes : List ℕ) → Tells (D.view disk.old) bytes → IsWellFormed bytes
        → first ≡ first_page bytes → count ≡ page_count bytes
        → Within (Spares (BesidePages count (entry bytes)) bytes) (D.view disk.old).crashes
        → Goes (Spares (BesidePages count (entry bytes)) bytes) (D.view disk.old).crashes (D.view disk.new).crashes }
    ensures copies { CopiesOnDisk (2 * count) (4096 * (first + number_pages count + count))
        (D.view disk.old) (D.view disk.new) result }
{
    let bodies = (first + number_page_count(count)) * PAGE_LEN;
    for place in 0..count {
        let number = read_number(disk, first * PAGE_LEN + 8 * place)?;
        copy_page(
            disk,
            bodies + PAGE_LEN * place,
            number.min(first) * PAGE_LEN,
        )?;
    }
    disk.sync()
}

// Copies one page.
fn copy_page<D: Disk>(disk: &mut D, from: u64, to: u64) -> Result<(), Failed>
    requires from { from + 4096 ≤ 2 ^ 62 }
    requires to { to + 4096 ≤ 2 ^ 62 }
    ensures put { OnOk result ((bytes : List ℕ) → Tells (D.view disk.old) bytes → from + 4096 ≤ length bytes
        → Tells (D.view disk.new) (overlaid to (page_from bytes from) bytes)) }
    ensures torn { Follows (Torn to 4096) (D.view disk.old).crashes (D.view disk.new).crashes }
    ensures time { Elapses (D.view disk.old).crashes (D.view disk.new).crashes }
    ensures copies { CopiesOnDisk 1 (from + 4096) (D.view disk.old) (D.view disk.new) result }
{
    let mut page = [0; PAGE];
    disk.read_at(from, &mut page)?;
    disk.write_at(to, &page)
}
