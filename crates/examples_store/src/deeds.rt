//! The deeds of the examples, by their words. Each adds its answer, and answers whether its row is in its form.
ghost use Rattle.std.specs.Prelude.{◌≤◌, IfSome};

use crate::crashes::{go_on, put_all_pages, put_left, put_pages};
use crate::stores::{commit_pages, formatted, opened, put_outcome, read_page};
use doubles::MemDisk;
use example_table::{bytes_of, named_row, number_in};
use outside::{Disk, Failed};
use std::alloc::{AllocError, Global};

/// The most bytes of a disk that a deed names.
const MAX_AT: u64 = 1 << 20;

/// Does a deed. False: there is no such deed.
pub fn put_answer(
    alloc: Global,
    disk: &mut MemDisk,
    word: &str,
    text: &str,
    answer: &mut String,
) -> Result<bool, AllocError> {
    match word {
        "format" => put_outcome(answer, formatted(disk)),
        "open" => put_outcome(answer, opened(disk)),
        "commit" => commit_pages(alloc, disk, text, answer),
        "read" => read_page(disk, text, answer),
        "crash" => go_on(alloc, disk, text, answer),
        "after" => put_pages(alloc, disk, text, answer),
        "crashes" => put_all_pages(alloc, disk, text, answer),
        "left" => put_left(alloc, disk, text, answer),
        _ => put_disk_answer(alloc, disk, word, text, answer),
    }
}

// Does a deed on the disk alone.
fn put_disk_answer(
    alloc: Global,
    disk: &mut MemDisk,
    word: &str,
    text: &str,
    answer: &mut String,
) -> Result<bool, AllocError> {
    match word {
        "put" => put(alloc, disk, text, answer),
        "write" => write(disk, text, answer),
        "get" => get(disk, text, answer),
        "sync" => put_done(answer, is_synced(disk)),
        "len" => put_len(disk, answer),
        "length" => put_number(answer, disk.bytes().len() as u64),
        "filled" => put_number(answer, filled(disk.bytes())),
        "calls" => put_number(answer, disk.calls()),
        "number" => put_number_at(disk.bytes(), text, answer),
        _ => Ok(false),
    }
}

// How many bytes are not 0.
fn filled(bytes: &[u8]) -> u64 {
    let mut count = 0u64;
    for byte in bytes {
        if *byte != 0 {
            count = count.saturating_add(1);
        }
    }
    count
}

fn is_synced(disk: &mut MemDisk) -> bool {
    disk.sync().is_ok()
}

// Writes bytes at a place.
fn put(
    alloc: Global,
    disk: &mut MemDisk,
    text: &str,
    answer: &mut String,
) -> Result<bool, AllocError> {
    let Some((at, field)) = place_of(text) else {
        return Ok(false);
    };
    match bytes_of(alloc, field)? {
        Some(bytes) => put_at(disk, at, &bytes, answer),
        None => Ok(false),
    }
}

fn put_at(
    disk: &mut MemDisk,
    at: u64,
    bytes: &[u8],
    answer: &mut String,
) -> Result<bool, AllocError> {
    if at > MAX_AT || bytes.len() as u64 > MAX_AT {
        return Ok(false);
    }
    put_done(answer, disk.write_at(at, bytes).is_ok())
}

// Writes a number at a place.
fn write(disk: &mut MemDisk, text: &str, answer: &mut String) -> Result<bool, AllocError> {
    match place_and_number_of(text) {
        Some((at, value)) => put_at(disk, at, &value.to_le_bytes(), answer),
        None => Ok(false),
    }
}

fn place_and_number_of(text: &str) -> Option<(u64, u64)> {
    let (at, field) = place_of(text)?;
    Some((at, number_in(field)?))
}

// Reads up to eight bytes.
fn get(disk: &mut MemDisk, text: &str, answer: &mut String) -> Result<bool, AllocError> {
    let Some((at, _)) = place_of(text) else {
        return Ok(false);
    };
    let mut bytes = [0; 8];
    match disk.read_at(at, &mut bytes) {
        Ok(count) => put_bytes(answer, &bytes[..count]),
        Err(Failed) => put_done(answer, false),
    }
}

// A place on the disk, and the text behind it.
fn place_of(text: &str) -> Option<(u64, &str)>
    ensures { IfSome result (λ found. found.0 ≤ 1048576) }
{
    let (at, rest) = named_row(text)?;
    let at = number_in(at)?;
    if at > MAX_AT {
        return None;
    }
    Some((at, rest))
}

// The number of eight bytes at a place.
fn put_number_at(bytes: &[u8], text: &str, answer: &mut String) -> Result<bool, AllocError> {
    let Some((at, _)) = place_of(text) else {
        return Ok(false);
    };
    match number_of_bytes(bytes, at as usize) {
        Some(value) => put_number(answer, value),
        None => Ok(false),
    }
}

fn number_of_bytes(bytes: &[u8], at: usize) -> Option<u64> {
    let mut number = 0;
    for &byte in bytes.get(at..at.saturating_add(8))?.iter().rev() {
        number = (number << 8) | u64::from(byte);
    }
    Some(number)
}

/// Adds bytes as numbers, with blanks between them.
pub fn put_bytes(answer: &mut String, bytes: &[u8]) -> Result<bool, AllocError> {
    for byte in bytes {
        if !answer.is_empty() {
            answer.push_str(" ")?;
        }
        write!(answer, "{byte}")?;
    }
    Ok(true)
}

fn put_number(answer: &mut String, value: u64) -> Result<bool, AllocError> {
    write!(answer, "{value}")?;
    Ok(true)
}

fn put_len(disk: &mut MemDisk, answer: &mut String) -> Result<bool, AllocError> {
    match disk.len() {
        Ok(count) => put_number(answer, count),
        Err(Failed) => put_done(answer, false),
    }
}

fn put_done(answer: &mut String, is_done: bool) -> Result<bool, AllocError> {
    answer.push_str(if is_done { "ok" } else { "failed" })?;
    Ok(true)
}
