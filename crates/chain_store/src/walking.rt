//! A chain is read page by page.
ghost use Rattle.std.specs.Prelude.{◌≡◌, ◌≢◌, ◌+◌, ◌*◌, ◌<◌, ◌≤◌, ◌↔◌, List, ℕ, false, length, IfOk, IsTrue, OnOk};
ghost use Rattle.outside.specs.Disk.{ReadsAtMost};
ghost use Rattle.page_journal.specs.Journal.{home_count, is_broken, view_of};
ghost use Rattle.page_journal.specs.JournalCalls.{LooksAtJournal};
ghost use Rattle.chain_store.specs.Answers.{LooksAt, RestsWith, Walks};
ghost use Rattle.chain_store.specs.Chain.{AreBehindRoot};
ghost use Rattle.chain_store.specs.Links.{IsLink, data_of, many_of, owner_of, page_in};

use crate::layout::{FREE, HELD, LINK, PAGE};
use crate::numbers::{half_at, number_at};
use outside::Disk;
use page_journal::{Journal, StoreFault};
use std::alloc::Global;

/// The pages of a chain, and the bytes that they hold.
#[derive(Drop)]
pub struct Walked {
    pub pages: Vec<u64>,
    pub bytes: Vec<u8>,
}

/// Reads the chain that begins at this page, each of its pages once.
pub fn walk<D: Disk>(
    alloc: Global,
    journal: &mut Journal<'_, D>,
    first: u64,
    chain: u32,
) -> Result<Walked, StoreFault>
    ensures answers { (pages : List (List ℕ)) → RestsWith pages journal.old
        → Walks (page_in pages) (length pages + 1) chain first result }
    ensures inside { IfOk result (λ walked. AreBehindRoot (home_count journal.old) walked.pages.items) }
    ensures reads { IfOk result (λ walked. ReadsAtMost (length walked.pages.items) (4096 * home_count journal.old)
        (view_of journal.old) (view_of journal.new)) }
    ensures looks { LooksAtJournal journal.old journal.new result }
{
    let home = journal.pages();
    let mut pages = Vec::new(alloc);
    let mut bytes = Vec::new(alloc);
    let mut page = [0; PAGE];
    let mut at = first;
    while at != 0 {
        if !may_follow(at, home, pages.len()) {
            return Err(StoreFault::BadStore { page: at });
        }
        if let Err(fault) = look_at(journal, at, chain, &mut page) {
            return Err(fault);
        }
        pages.push(at)?;
        bytes.extend_from_slice(data_part(&page))?;
        at = number_at(&page, 0);
    }
    Ok(Walked { pages, bytes })
}

// Whether a page may be in a chain, behind so many others.
fn may_follow(at: u64, home: u64, before: usize) -> bool
    requires { 2 ≤ home }
    ensures { IsTrue result ↔ ((2 ≤ at) × (at < home) × (before + 2 < home)) }
{
    2 <= at && at < home && (before as u64) < home - 2
}

// The bytes of its chain that a page holds.
fn data_part(page: &[u8; PAGE]) -> &[u8]
    requires { owner_of page.now ≢ 4294967295 → many_of page.now ≤ 4080 }
    ensures { result.now ≡ data_of page.now }
{
    if half_at(page, 12) == FREE {
        return &[];
    }
    let many = half_at(page, 8) as usize;
    &page[LINK..LINK + many]
}

// Reads a page of the chain.
fn look_at<D: Disk>(
    journal: &mut Journal<'_, D>,
    at: u64,
    chain: u32,
    page: &mut [u8; PAGE],
) -> Result<(), StoreFault>
    requires { at < home_count journal.old }
    ensures answers { (pages : List (List ℕ)) → RestsWith pages journal.old → 1 ≤ at → LooksAt (page_in pages at) chain at page.new result }
    ensures link { OnOk result (IsLink chain page.new) }
    ensures whole { OnOk result (is_broken journal.old ≡ false) }
    ensures reads { OnOk result (ReadsAtMost 1 (4096 * home_count journal.old) (view_of journal.old) (view_of journal.new)) }
    ensures looks { LooksAtJournal journal.old journal.new result }
{
    if let Err(fault) = journal.read_page(at, page) {
        return Err(fault);
    }
    if !is_link(page, chain) {
        return Err(StoreFault::BadStore { page: at });
    }
    Ok(())
}

// Whether this is a page of the chain.
fn is_link(page: &[u8; PAGE], chain: u32) -> bool
    ensures { IsTrue result ↔ IsLink chain page.now }
{
    if half_at(page, 12) != chain {
        return false;
    }
    if chain == FREE {
        return true;
    }
    let many = half_at(page, 8) as usize;
    if number_at(page, 0) != 0 {
        return many == HELD;
    }
    1 <= many && many <= HELD
}
