//! The parts of a commit that write pages, fields and the gate.
ghost use Rattle.std.specs.Prelude.{◌+◌, ◌*◌, ◌^◌, ◌<◌, ◌≤◌, List, ℕ, length, OnOk};
ghost use Rattle.outside.specs.Disk.{Only, Tells};
ghost use Rattle.page_journal.specs.Crash.{BesideGate, BesideJournal, BesidePages};
ghost use Rattle.page_journal.specs.DiskCalls.{WritesDisk, WritesDiskFrom};
ghost use Rattle.page_journal.specs.PageSet.{AreSized, number_at, page_at, plain};
ghost use Rattle.page_journal.specs.Written.{FieldsPut, GatePut, HomePut, NumberPut, PagesPut};

use crate::layout::{COUNT_AT, FIRST_AT, GATE_AT, PAGE};
use crate::page_run::{PageRun, flush, put_page};
use outside::{Disk, Failed};
use std::collections::BTreeMap;

/// Writes the pages one behind the other from this byte on.
pub fn write_bodies<D: Disk>(
    disk: &mut D,
    pages: &BTreeMap<u64, Vec<u8>>,
    at: u64,
) -> Result<(), Failed>
    requires sized { AreSized pages.now.entries }
    requires room { at + 4096 * length pages.now.entries ≤ 2 ^ 62 }
    ensures put { OnOk result ((bytes : List ℕ) → Tells (D.view disk.old) bytes → (now : List ℕ) × Tells (D.view disk.new) now
        × PagesPut (plain pages.now.entries) (length pages.now.entries) at bytes now) }
    ensures writes { WritesDiskFrom at (D.view disk.old) (D.view disk.new) result }
{
    let mut run = PageRun::new(at);
    let mut next = at;
    for (_, page) in pages {
        put_page(disk, &mut run, next, page.as_slice())?;
        next += PAGE as u64;
    }
    flush(disk, &mut run)
}

/// Writes the pages to their places.
pub fn write_home<D: Disk>(disk: &mut D, pages: &BTreeMap<u64, Vec<u8>>) -> Result<(), Failed>
    requires sized { AreSized pages.now.entries }
    requires rises { (one two : ℕ) → one < two → two < length pages.now.entries
        → number_at (plain pages.now.entries) one < number_at (plain pages.now.entries) two }
    requires room { (place : ℕ) → place < length pages.now.entries → 4096 * number_at (plain pages.now.entries) place + 4096 ≤ 2 ^ 62 }
    ensures put { OnOk result ((bytes : List ℕ) → Tells (D.view disk.old) bytes → (now : List ℕ) × Tells (D.view disk.new) now
        × Only now (D.view disk.new).crashes × HomePut (number_at (plain pages.now.entries)) (page_at (plain pages.now.entries)) (length pages.now.entries) bytes now) }
    ensures writes { WritesDisk (BesidePages (length pages.now.entries) (number_at (plain pages.now.entries)))
        (D.view disk.old) (D.view disk.new) result }
{
    let mut run = PageRun::new(0);
    for (number, page) in pages {
        put_page(disk, &mut run, *number * PAGE as u64, page.as_slice())?;
    }
    flush(disk, &mut run)?;
    disk.sync()
}

/// Writes the journal's first page and its number of pages to page 0.
pub fn write_fields<D: Disk>(disk: &mut D, first: u64, count: u64) -> Result<(), Failed>
    ensures put { OnOk result ((bytes : List ℕ) → Tells (D.view disk.old) bytes → (now : List ℕ) × Tells (D.view disk.new) now
        × FieldsPut first count bytes now) }
    ensures writes { (low : ℕ) → WritesDisk (BesideJournal low) (D.view disk.old) (D.view disk.new) result }
{
    write_number(disk, FIRST_AT, first)?;
    write_number(disk, COUNT_AT, count)
}

// Writes a field of page 0.
fn write_number<D: Disk>(disk: &mut D, at: u64, value: u64) -> Result<(), Failed>
    requires low { 8 ≤ at }
    requires high { at + 8 ≤ 24 }
    ensures put { OnOk result ((bytes : List ℕ) → Tells (D.view disk.old) bytes → (now : List ℕ) × Tells (D.view disk.new) now
        × NumberPut at value bytes now) }
    ensures writes { (low : ℕ) → WritesDisk (BesideJournal low) (D.view disk.old) (D.view disk.new) result }
{
    disk.write_at(at, &value.to_le_bytes())
}

/// Writes the gate, and makes it stable.
pub fn set_gate<D: Disk>(disk: &mut D, value: u8) -> Result<(), Failed>
    ensures put { OnOk result ((bytes : List ℕ) → Tells (D.view disk.old) bytes → (now : List ℕ) × Tells (D.view disk.new) now
        × Only now (D.view disk.new).crashes × GatePut value bytes now) }
    ensures writes { WritesDisk BesideGate (D.view disk.old) (D.view disk.new) result }
{
    disk.write_at(GATE_AT, &[value])?;
    disk.sync()
}
