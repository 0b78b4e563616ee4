//! Commits pages to a real file and reads them again: for runs of the gate over real stores, and for the times of commits.
//!
//! The words are the path of a store, which is made where there is none, the number of its pages behind the first, and how
//! many times they are committed, each time filled with the next byte. Then each page is read and told; with a further word
//! the time of each commit is told in their place.
#![tactic(auto)]

use anyhow::{Result, anyhow};
use osm_base::{Limits, OutOfMemory};
use outside::{Disk, FileDisk};
use page_journal::{Journal, PageSet, StoreFault, format};
use std::alloc::Global;
use std::env;
use std::rt::Clock;
use std::time::Instant;

fn main(rt: HostRuntime) -> Result<()> {
    let words = env::args(&rt)?.collect::<Vec<String>>(rt.alloc())?;
    let asked = asked_of(&words)?;
    make(&mut FileDisk::new(&rt, asked.path, true))?;
    run(&rt, &mut FileDisk::new(&rt, asked.path, false), asked)
}

/// What the words ask for.
#[derive(Clone, Copy)]
struct Asked<'a> {
    path: &'a str,
    pages: u64,
    commits: u64,
    timed: bool,
}

/// What the words ask for: two pages and no commit where they tell no number.
fn asked_of(words: &[String]) -> Result<Asked<'_>> {
    Ok(Asked {
        path: match words.get(1) {
            Some(path) => path.as_str(),
            None => "",
        },
        pages: number_at(words, 2, 2)?,
        commits: number_at(words, 3, 0)?,
        timed: words.len() > 4,
    })
}

/// The number that a word writes, or another where there is no such word.
fn number_at(words: &[String], place: usize, other: u64) -> Result<u64> {
    match words.get(place) {
        Some(word) => Ok(word.as_str().parse::<u64>()?),
        None => Ok(other),
    }
}

/// Makes a store of an empty file; one that is not empty is left as it is.
fn make<D: Disk>(disk: &mut D) -> Result<()> {
    match format(disk) {
        Ok(()) | Err(StoreFault::NotEmpty) => Ok(()),
        Err(fault) => Err(fault.into()),
    }
}

/// Commits the pages that are asked for, and tells the times or the pages.
fn run<D: Disk, R: Clock + Print + AllocGlobal>(
    rt: &R,
    disk: &mut D,
    asked: Asked<'_>,
) -> Result<()> {
    let mut journal = Journal::attach(disk, &Limits::standard())?;
    let home = asked.pages.clamp(2, 1_000_000) + 1;
    for round in 0..asked.commits {
        let micros = commit_all(rt, &mut journal, home, (round % 200) as u8 + 1)?;
        if asked.timed {
            println!(rt; "{} {micros}", asked.pages)?;
        }
    }
    if asked.timed {
        return Ok(());
    }
    for page in 1..journal.pages() {
        print_page(rt, &mut journal, page)?;
    }
    Ok(())
}

/// Commits the pages from 1 to below `home`, and answers how many microseconds that took.
fn commit_all<D: Disk, R: Clock + AllocGlobal>(
    rt: &R,
    journal: &mut Journal<'_, D>,
    home: u64,
    byte: u8,
) -> Result<u128> {
    commit(rt, journal, &all_pages(rt.alloc(), home, byte)?, home)
}

/// The pages from 1 to below `home`.
fn all_pages(alloc: Global, home: u64, byte: u8) -> Result<PageSet, OutOfMemory> {
    let mut set = PageSet::new(alloc);
    set.put(1, &page(home, byte))?;
    for number in 2..home {
        set.put(number, &page(number, byte))?;
    }
    Ok(set)
}

/// A page that begins with a number, and is full of one byte behind it.
fn page(number: u64, byte: u8) -> [u8; 4096] {
    let mut page = [byte; 4096];
    page[..8].copy_from_slice(&number.to_le_bytes());
    page
}

/// Commits a set, and answers how many microseconds that took.
fn commit<D: Disk, R: Clock>(
    rt: &R,
    journal: &mut Journal<'_, D>,
    set: &PageSet,
    home: u64,
) -> Result<u128> {
    if !journal.can_commit(set, home) {
        return Err(anyhow!("the store has more pages"));
    }
    let start = Instant::now(rt)?;
    journal.commit(set, home)?;
    Ok(start.elapsed(rt)?.as_micros())
}

/// Prints a line for a page: its number, the number that it begins with and the byte behind that, which may fill it.
fn print_page<D: Disk, R: Print>(rt: &R, journal: &mut Journal<'_, D>, page: u64) -> Result<()> {
    if page >= journal.pages() {
        return Err(anyhow!("the store has fewer pages"));
    }
    let mut bytes = [0u8; 4096];
    journal.read_page(page, &mut bytes)?;
    let mut first = [0u8; 8];
    first.copy_from_slice(&bytes[..8]);
    let number = u64::from_le_bytes(first);
    let byte = bytes[8];
    let filled = bytes[8..].iter().all(|it| *it == byte);
    println!(rt; "page {page} number {number} byte {byte} filled {filled}")?;
    Ok(())
}
