//! The writes of a commit.
ghost use Rattle.std.specs.Prelude.{◌≡◌, ◌⊎◌, ◌+◌, ◌*◌, ◌^◌, ◌<◌, ◌≤◌, List, ℕ, length, OnOk};
ghost use Rattle.outside.specs.Causes.{HasCause};
ghost use Rattle.outside.specs.Disk.{Only, Tells, Goes};
ghost use Rattle.page_journal.specs.Crash.{BesideJournal, IsSettled};
ghost use Rattle.page_journal.specs.DiskCalls.{WritesDisk};
ghost use Rattle.page_journal.specs.Home.{Home};
ghost use Rattle.page_journal.specs.PageSet.{AreSized, FitsJournal, number_at, plain};
ghost use Rattle.page_journal.specs.Pages.{number_pages};
ghost use Rattle.page_journal.specs.Written.{JournalPut, Makes};

use crate::layout::{OPEN, PAGE_LEN, SHUT, number_page_count};
use crate::numbers::write_numbers;
use crate::pages::{set_gate, write_bodies, write_fields, write_home};
use outside::{Disk, Failed};
use std::collections::BTreeMap;

/// Writes the pages over the home pages. At every moment a crash leaves the old home pages or the new
/// ones, and once it is done the new ones.
pub fn write_through<D: Disk>(
    disk: &mut D,
    pages: &BTreeMap<u64, Vec<u8>>,
    home: u64,
) -> Result<(), Failed>
    requires sized { AreSized pages.now.entries }
    requires rises { (one two : ℕ) → one < two → two < length pages.now.entries
        → number_at (plain pages.now.entries) one < number_at (plain pages.now.entries) two }
    requires below { (place : ℕ) → place < length pages.now.entries → number_at (plain pages.now.entries) place < home }
    requires fits { FitsJournal (length pages.now.entries) home }
    ensures any_moment { (old new : List (List ℕ)) (bytes : List ℕ) → IsSettled old bytes (D.view disk.old)
        → Makes (plain pages.now.entries) (length pages.now.entries) home old new
        → Goes (λ left. Home old left ⊎ Home new left) (D.view disk.old).crashes (D.view disk.new).crashes }
    ensures done { OnOk result ((old new : List (List ℕ)) (bytes : List ℕ) → IsSettled old bytes (D.view disk.old)
        → Makes (plain pages.now.entries) (length pages.now.entries) home old new
        → (now : List ℕ) × IsSettled new now (D.view disk.new)) }
    ensures reads { (D.view disk.new).reads ≡ (D.view disk.old).reads }
    ensures cause { HasCause (D.view disk.old).faults (D.view disk.new).faults result }
{
    write_journal(disk, pages, home)?;
    set_gate(disk, OPEN)?;
    write_home(disk, pages)?;
    set_gate(disk, SHUT)
}

// Writes the journal behind the home pages, and makes it stable.
fn write_journal<D: Disk>(
    disk: &mut D,
    pages: &BTreeMap<u64, Vec<u8>>,
    home: u64,
) -> Result<(), Failed>
    requires sized { AreSized pages.now.entries }
    requires fits { FitsJournal (length pages.now.entries) home }
    ensures put { OnOk result ((bytes : List ℕ) → Tells (D.view disk.old) bytes → (now : List ℕ) × Tells (D.view disk.new) now
        × Only now (D.view disk.new).crashes × JournalPut (plain pages.now.entries) (length pages.now.entries) home bytes now) }
    ensures writes { WritesDisk (BesideJournal (4096 * home)) (D.view disk.old) (D.view disk.new) result }
{
    let count = pages.len() as u64;
    let bodies = bodies_at(home, count);
    write_numbers(disk, pages, home * PAGE_LEN)?;
    write_bodies(disk, pages, bodies)?;
    write_fields(disk, home, count)?;
    disk.sync()
}

// Where the pages stand in a journal of so many behind so many home pages.
fn bodies_at(home: u64, count: u64) -> u64
    requires few { count ≤ home }
    requires room { home ≤ 2 ^ 28 }
    ensures place { result ≡ 4096 * (home + number_pages count) }
    ensures small { result ≤ 2 ^ 42 }
{
    (home + number_page_count(count)) * PAGE_LEN
}
