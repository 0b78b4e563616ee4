//! Deeds on a store. Each adds its answer, and answers whether its row is in its form.

use doubles::MemDisk;
use example_table::{named_row, number_in};
use osm_base::{LimitNumbers, Limits};
use page_journal::{Journal, PageSet, StoreFault, format, open};
use std::alloc::{AllocError, Global};

/// The byte that fills each page behind the root.
const FILLED: u8 = 42;

/// The most home pages of a store of an example.
const MAX_HOME: u64 = 64;

/// Adds a number, `ok` for 0, or the fault.
pub fn put_outcome(
    answer: &mut String,
    outcome: Result<u64, StoreFault>,
) -> Result<bool, AllocError> {
    match outcome {
        Ok(0) => answer.push_str("ok")?,
        Ok(count) => write!(answer, "{count}")?,
        Err(fault) => write!(answer, "{fault}")?,
    }
    Ok(true)
}

/// Opening a store, its contract left behind.
pub fn opened(disk: &mut MemDisk) -> Result<u64, StoreFault> {
    open(disk)
}

/// Opening a store on a disk that is let go then.
pub fn opened_once(mut disk: MemDisk) -> Result<u64, StoreFault> {
    opened(&mut disk)
}

/// Formatting a disk, its contract left behind.
pub fn formatted(disk: &mut MemDisk) -> Result<u64, StoreFault> {
    match format(disk) {
        Ok(()) => Ok(0),
        Err(fault) => Err(fault),
    }
}

/// Opens the store, and commits to it a root that tells so many home pages and filled pages up to them, under
/// a limit of pages where one is named. Adds what comes out.
pub fn commit_pages(
    alloc: Global,
    disk: &mut MemDisk,
    text: &str,
    answer: &mut String,
) -> Result<bool, AllocError> {
    match asked_of(text) {
        Some((home, limits)) => put_outcome(answer, committed(alloc, disk, home, &limits)),
        None => Ok(false),
    }
}

// The number of home pages, and the limits.
fn asked_of(text: &str) -> Option<(u64, Limits)> {
    let (home, limit) = named_row(text)?;
    let home = number_in(home)?;
    if home > MAX_HOME {
        return None;
    }
    Some((home, limits_of(number_in(limit).unwrap_or(MAX_HOME))))
}

fn committed(
    alloc: Global,
    disk: &mut MemDisk,
    home: u64,
    limits: &Limits,
) -> Result<u64, StoreFault> {
    let set = filled_pages(alloc, home)?;
    commit(disk, &set, home, limits)
}

// The limits of the program with this one of pages.
fn limits_of(pages: u64) -> Limits {
    let standard = Limits::standard();
    let numbers = LimitNumbers {
        line_bytes: standard.line_bytes(),
        lines: standard.lines(),
        entries: standard.entries(),
        pages,
        pending: standard.pending(),
    };
    Limits::new(numbers).unwrap_or(standard)
}

// Page 1 with this number of home pages, and full pages up to them.
fn filled_pages(alloc: Global, home: u64) -> Result<PageSet, StoreFault> {
    let mut set = PageSet::new(alloc);
    for page in 2..home {
        set.put(page, &[FILLED; 4096])?;
    }
    let mut root = [0; 4096];
    root[..8].copy_from_slice(&home.to_le_bytes());
    set.put(1, &root)?;
    Ok(set)
}

// Opens the store, and commits the set where it may.
fn commit(
    disk: &mut MemDisk,
    set: &PageSet,
    home: u64,
    limits: &Limits,
) -> Result<u64, StoreFault> {
    let pages = open(disk)?;
    let mut journal = Journal::over(disk, pages, limits);
    if !journal.can_commit(set, home) {
        return Ok(pages);
    }
    journal.commit(set, home)?;
    Ok(0)
}

/// Opens the store twice, and reads a page once or twice. Adds its first byte, or the last fault.
pub fn read_page(disk: &mut MemDisk, text: &str, answer: &mut String) -> Result<bool, AllocError> {
    match page_of(text) {
        Some((page, again)) => put_outcome(answer, read(disk, page, again)),
        None => Ok(false),
    }
}

// The number of a page, and whether it is read twice.
fn page_of(text: &str) -> Option<(u64, bool)> {
    let (page, again) = named_row(text)?;
    Some((number_in(page)?, again == "again"))
}

fn read(disk: &mut MemDisk, page: u64, again: bool) -> Result<u64, StoreFault> {
    let pages = open(disk)?;
    let mut journal = Journal::attach(disk, &Limits::standard())?;
    if page >= pages || page >= journal.pages() {
        return Ok(0);
    }
    let mut bytes = [0; 4096];
    let mut outcome = journal.read_page(page, &mut bytes);
    if again {
        outcome = journal.read_page(page, &mut bytes);
    }
    outcome?;
    let [first, ..] = bytes;
    Ok(u64::from(first))
}
