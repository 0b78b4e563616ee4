//! The numbers of the pages in a journal, which are written a page at a time.
ghost use Rattle.std.specs.Prelude.{◌≡◌, ◌+◌, ◌*◌, ◌^◌, ◌<◌, ◌≤◌, List, ℕ, length, option_map, OnOk, slice_index};
ghost use Rattle.outside.specs.Disk.{Tells, overlaid};
ghost use Rattle.page_journal.specs.DiskCalls.{WritesDiskFrom};
ghost use Rattle.page_journal.specs.PageSet.{number_at, plain};
ghost use Rattle.page_journal.specs.Pages.{number};
ghost use Rattle.page_journal.specs.Written.{NumbersHeld, NumbersPut};

use crate::layout::{PAGE, PER_PAGE};
use outside::{Disk, Failed};
use std::collections::BTreeMap;

/// A page of numbers that is being filled, and where it goes.
#[derive(Drop)]
struct NumberPage {
    bytes: [u8; PAGE],
    filled: usize,
    at: u64,
}

impl NumberPage {
    // An empty page that goes there.
    fn new(at: u64) -> Self
        ensures long { length result.bytes ≡ 4096 }
        ensures none { result.filled ≡ 0 }
        ensures place { result.at ≡ at }
        ensures zero { (i : ℕ) → slice_index result.bytes i ≡ 0 }
    {
        Self {
            bytes: [0; PAGE],
            filled: 0,
            at,
        }
    }
}

/// Writes the numbers of the pages from this byte on.
pub fn write_numbers<D: Disk>(
    disk: &mut D,
    pages: &BTreeMap<u64, Vec<u8>>,
    at: u64,
) -> Result<(), Failed>
    requires { at + 8 * length pages.now.entries + 4096 ≤ 2 ^ 62 }
    ensures put { OnOk result ((bytes : List ℕ) → Tells (D.view disk.old) bytes → (now : List ℕ) × Tells (D.view disk.new) now
        × NumbersPut (plain pages.now.entries) (length pages.now.entries) at bytes now) }
    ensures writes { WritesDiskFrom at (D.view disk.old) (D.view disk.new) result }
{
    let mut page = NumberPage::new(at);
    for (number, _) in pages {
        add_number(disk, &mut page, *number)?;
    }
    if page.filled == 0 {
        return Ok(());
    }
    flush(disk, &mut page)
}

// Puts a number behind those on the page, and writes the page where it is full.
fn add_number<D: Disk>(disk: &mut D, page: &mut NumberPage, value: u64) -> Result<(), Failed>
    requires room { page.old.filled < 512 }
    requires within { page.old.at + 4096 ≤ 2 ^ 62 }
    ensures room { OnOk result (page.new.filled < 512) }
    ensures put { OnOk result ((bytes : List ℕ) → Tells (D.view disk.old) bytes → (now : List ℕ) × Tells (D.view disk.new) now
        × ((entries : List (ℕ × List ℕ)) (count start : ℕ) (base : List ℕ)
        → NumbersHeld entries count start page.old.at page.old.filled page.old.bytes base bytes
        → value ≡ number_at entries count
        → NumbersHeld entries (count + 1) start page.new.at page.new.filled page.new.bytes base now)) }
    ensures further { OnOk result (page.old.at ≤ page.new.at) }
    ensures place { OnOk result (page.new.at + 8 * page.new.filled ≡ page.old.at + 8 * page.old.filled + 8) }
    ensures writes { WritesDiskFrom page.old.at (D.view disk.old) (D.view disk.new) result }
{
    put_number(&mut page.bytes, page.filled, value);
    page.filled += 1;
    if page.filled == PER_PAGE {
        flush(disk, page)?;
    }
    Ok(())
}

// Writes the page, and begins the next one.
fn flush<D: Disk>(disk: &mut D, page: &mut NumberPage) -> Result<(), Failed>
    requires { page.old.at + 4096 ≤ 2 ^ 62 }
    ensures written { OnOk result ((D.view disk.new).content ≡ option_map (overlaid page.old.at page.old.bytes) (D.view disk.old).content) }
    ensures next { OnOk result (page.new.at ≡ page.old.at + 4096) }
    ensures none { OnOk result (page.new.filled ≡ 0) }
    ensures long { OnOk result (length page.new.bytes ≡ 4096) }
    ensures zero { OnOk result ((i : ℕ) → slice_index page.new.bytes i ≡ 0) }
    ensures writes { WritesDiskFrom page.old.at (D.view disk.old) (D.view disk.new) result }
{
    disk.write_at(page.at, &page.bytes)?;
    *page = NumberPage::new(page.at + PAGE as u64);
    Ok(())
}

// Puts a number at its place on a page.
fn put_number(bytes: &mut [u8; PAGE], place: usize, value: u64)
    requires { place < 512 }
    ensures here { number bytes.new (8 * place) ≡ value }
    ensures long { length bytes.new ≡ 4096 }
    ensures others { (other : ℕ) → other < place → number bytes.new (8 * other) ≡ number bytes.old (8 * other) }
    ensures behind { (i : ℕ) → 8 * place + 8 ≤ i → slice_index bytes.new i ≡ slice_index bytes.old i }
{
    let at = 8 * place;
    bytes[at..at + 8].copy_from_slice(&value.to_le_bytes());
}
