//! Examples of values: coordinates, keys and limits.
use crate::key::key_of;
use example_table::{named_row, number_in, signed_of};
use osm_base::{DegreesBuffer, LimitNumbers, Limits};
use std::alloc::AllocError;
use std::cmp::Ordering;

/// Adds the degrees of units that a field writes.
pub fn degrees(found: &mut Vec<u8>, field: &str) -> Result<bool, AllocError> {
    let Some(units) = units_of(field) else {
        return Ok(false);
    };
    let mut buffer = DegreesBuffer::new();
    found.extend_from_slice(buffer.format(units))?;
    Ok(true)
}

/// The units that a field writes.
fn units_of(field: &str) -> Option<i32> {
    i32::try_from(signed_of(field)?).ok()
}

/// Whether the first key is `below`, `equal` to or `above` the second.
pub fn order(first: &str, second: &str) -> Option<&'static str> {
    match key_of(first)?.cmp(&key_of(second)?) {
        Ordering::Less => Some("below"),
        Ordering::Equal => Some("equal"),
        Ordering::Greater => Some("above"),
    }
}

/// Whether limits of the numbers `BYTES LINES ENTRIES PAGES PENDING` are `taken` or `refused`.
pub fn limits(line_bytes: &str, text: &str) -> Option<&'static str> {
    let numbers = numbers_of(line_bytes, text)?;
    match Limits::new(numbers) {
        Some(limits) if has_numbers(&limits, numbers) => Some("taken"),
        Some(_) => Some("other numbers"),
        None => Some("refused"),
    }
}

/// The numbers that the fields write.
fn numbers_of(line_bytes: &str, text: &str) -> Option<LimitNumbers> {
    let (lines, text) = named_row(text)?;
    let (entries, text) = named_row(text)?;
    let (pages, pending) = named_row(text)?;
    Some(LimitNumbers {
        line_bytes: number_in(line_bytes)?,
        lines: number_in(lines)?,
        entries: number_in(entries)?,
        pages: number_in(pages)?,
        pending: number_in(pending)?,
    })
}

/// Whether limits tell these numbers.
fn has_numbers(limits: &Limits, numbers: LimitNumbers) -> bool {
    limits.numbers() == numbers
        && limits.line_bytes() == numbers.line_bytes
        && limits.lines() == numbers.lines
        && limits.entries() == numbers.entries
        && limits.pages() == numbers.pages
        && limits.pending() == numbers.pending
}
