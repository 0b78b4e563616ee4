//! Examples of transactions over the buckets of a store.
//!
//! An example is a disk in memory and transactions over the buckets of its store, one after another, each with
//! what its deeds have to answer. `data/buckets.txt` says how they are written.

mod changing;
mod deeds;
mod looking;
mod pages;
mod transaction;

use crate::buckets::deeds::push_blank;
use crate::buckets::transaction::transaction;
use doubles::{Fails, MemDisk};
use example_table::{is_told, named_row, number_in, refuse_row, sides_of};
use osm_base::{Bytes, Ids};
use outside::Disk;
use page_journal::format;
use std::alloc::{AllocError, Global};
use std::fs::{self, Files};
use std::io;

/// Behind the last place that a row may put bytes at.
const MOST: u64 = 1 << 20;

/// An example as far as it has come.
#[derive(Drop)]
struct Example<'t> {
    name: &'t str,
    disk: MemDisk,
}

/// Runs the examples of the table of buckets. False: one differs, and that is told.
pub fn buckets_pass<R: Files + Print + Eprint + AllocGlobal>(rt: &R) -> io::Result<bool> {
    let table = fs::read_to_string(rt, "buckets.txt")?;
    table_passes(rt, &table)
}

/// Runs the examples of a table.
fn table_passes<R: Print + Eprint + AllocGlobal>(rt: &R, table: &str) -> io::Result<bool> {
    let mut example = Example {
        name: "",
        disk: empty(rt.alloc(), 0),
    };
    let mut told = Ok(true);
    for line in table.lines() {
        told = step(rt, &mut example, line);
        if !matches!(&told, Ok(true)) {
            break;
        }
    }
    match told {
        Ok(true) => is_told(rt, example.name, None),
        other => other,
    }
}

/// Does what a line says, or begins the next example.
fn step<'t, R: Print + Eprint + AllocGlobal>(
    rt: &R,
    example: &mut Example<'t>,
    line: &'t str,
) -> io::Result<bool> {
    let Some((word, text)) = named_row(line) else {
        return Ok(true);
    };
    if word == "store" {
        if !example.name.is_empty() && !is_told(rt, example.name, None)? {
            return Ok(false);
        }
        begin(rt.alloc(), example, text);
        return Ok(true);
    }
    let (deeds, wanted) = sides_of(text).unwrap_or((text, "ok"));
    match answer_of(rt.alloc(), &mut example.disk, word, deeds)? {
        None => {
            refuse_row(rt, line)?;
            Ok(false)
        }
        Some(answer) => is_wanted(rt, example.name, line, answer.as_str(), wanted),
    }
}

/// Whether a line answers what is wanted; what it answers otherwise is told.
fn is_wanted<R: Print + Eprint + AllocGlobal>(
    rt: &R,
    name: &str,
    line: &str,
    answer: &str,
    wanted: &str,
) -> io::Result<bool> {
    if answer == wanted {
        return Ok(true);
    }
    let difference = format!(in rt.alloc(); "{line}: {answer}")?;
    is_told(rt, name, Some(difference))
}

/// What a line answers. `None`: there is no such line.
fn answer_of(
    alloc: Global,
    disk: &mut MemDisk,
    word: &str,
    deeds: &str,
) -> Result<Option<String>, AllocError> {
    match word {
        "format" => Ok(Some(formatted(alloc, disk)?)),
        "pages" => Ok(Some(pages_text(alloc, disk.bytes())?)),
        "at" => overwritten(alloc, disk, deeds),
        "look" => Ok(Some(transaction(alloc, disk, deeds, false)?)),
        "commit" => Ok(Some(transaction(alloc, disk, deeds, true)?)),
        "turns" => turns(alloc, disk, deeds),
        _ => Ok(None),
    }
}

/// What formatting answers.
fn formatted(alloc: Global, disk: &mut MemDisk) -> Result<String, AllocError> {
    match format(disk) {
        Ok(()) => String::from_str(alloc, "ok"),
        Err(fault) => format!(in alloc; "{fault}"),
    }
}

/// Commits two deeds by turns, so many in all, and tells how many home pages there are behind the first two and the
/// last; or what a commit answers that is refused.
fn turns(alloc: Global, disk: &mut MemDisk, text: &str) -> Result<Option<String>, AllocError> {
    let (count, deeds) = named_row(text).unwrap_or((text, ""));
    let Some((odd, even)) = deeds.split_once(" | ") else {
        return Ok(None);
    };
    let count = number_in(count).unwrap_or(0);
    let mut told = String::new(alloc);
    for turn in 0..count {
        let deed = if turn % 2 == 0 { odd } else { even };
        let is_shown = turn < 2 || turn == count - 1;
        if !is_committed(alloc, disk, deed, is_shown, &mut told)? {
            break;
        }
    }
    Ok(Some(told))
}

/// Commits a deed, and tells the home pages where they are to be shown. False: a refusal is told in the place of all.
fn is_committed(
    alloc: Global,
    disk: &mut MemDisk,
    deed: &str,
    is_shown: bool,
    told: &mut String,
) -> Result<bool, AllocError> {
    let answer = transaction(alloc, disk, deed, true)?;
    if answer.as_str() != "ok; ok" {
        *told = answer;
        return Ok(false);
    }
    if is_shown {
        push_blank(told)?;
        push_pages(told, disk.bytes())?;
    }
    Ok(true)
}

/// Puts these bytes on the disk, from a place on.
fn overwritten(
    alloc: Global,
    disk: &mut MemDisk,
    text: &str,
) -> Result<Option<String>, AllocError> {
    let (place, fields) = named_row(text).unwrap_or((text, ""));
    let word = match bytes_of(alloc, fields)? {
        None => None,
        Some(bytes) => written(disk, number_in(place).unwrap_or(MOST), &bytes),
    };
    match word {
        None => Ok(None),
        Some(word) => Ok(Some(String::from_str(alloc, word)?)),
    }
}

/// The bytes that these numbers are. `None`: one of them is no byte.
fn bytes_of(alloc: Global, fields: &str) -> Result<Option<Vec<u8>>, AllocError> {
    let mut bytes = Vec::new(alloc);
    for field in fields.split(' ') {
        let Some(byte) = byte_of(field) else {
            return Ok(None);
        };
        bytes.push(byte)?;
    }
    Ok(Some(bytes))
}

fn byte_of(field: &str) -> Option<u8> {
    field.parse::<u8>().ok()
}

/// What writing these bytes at a place answers. `None`: the place or the number of bytes is none of a row.
fn written(disk: &mut MemDisk, place: u64, bytes: &[u8]) -> Option<&'static str> {
    if place >= MOST || bytes.len() as u64 >= MOST {
        return None;
    }
    let outcome = disk.write_at(place, bytes);
    Some(if outcome.is_ok() { "ok" } else { "disk fault" })
}

/// How many home pages the root page tells.
fn pages_text(alloc: Global, bytes: &[u8]) -> Result<String, AllocError> {
    let mut text = String::new(alloc);
    push_pages(&mut text, bytes)?;
    Ok(text)
}

fn push_pages(text: &mut String, bytes: &[u8]) -> Result<(), AllocError> {
    match home_pages(bytes) {
        None => text.push_str("none"),
        Some(pages) => write!(text, "{pages}"),
    }
}

/// The number with which the root page begins. `None`: the bytes are less than two pages.
fn home_pages(bytes: &[u8]) -> Option<u64> {
    if bytes.len() < 8192 {
        return None;
    }
    let mut pages = 0;
    for &byte in bytes.get(4096..4104)?.iter().rev() {
        pages = (pages << 8) | u64::from(byte);
    }
    Some(pages)
}

/// Begins an example with an empty disk: behind its name stands the number from which on each call fails.
fn begin<'t>(alloc: Global, example: &mut Example<'t>, text: &'t str) {
    let (name, from) = named_row(text).unwrap_or((text, ""));
    example.name = name;
    example.disk = empty(alloc, number_in(from).unwrap_or(0));
}

/// A disk without bytes, on which each call from this one on fails, where it is not 0.
fn empty(alloc: Global, from: u64) -> MemDisk {
    MemDisk::new(alloc, Bytes::new(alloc), Fails::new(Ids::new(alloc), from))
}
