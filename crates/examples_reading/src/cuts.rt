//! Examples of files: their lines, and the limits that they pass.
ghost use Rattle.std.specs.Prelude.{◌<◌};

use crate::cutting::{put_copied, put_lent};
use example_table::{bytes_of, named_row, number_in};
use osm_base::{LimitNumbers, Limits};
use std::alloc::{AllocError, Global};

/// The size of the longest pieces.
const LONGEST_PIECE: usize = 8;

/// Adds what a row finds: of `lines FILE`, how many lines the file has, and each behind a newline; of `within BYTES LINES
/// FILE`, the same where lines may have so many bytes and so many may come, or which of these limits is passed first.
pub fn cuts(
    alloc: Global,
    found: &mut Vec<u8>,
    word: &str,
    given: &str,
) -> Result<bool, AllocError> {
    if word == "lines" {
        return put_file(alloc, found, &Limits::standard(), given);
    }
    match limits_of(given) {
        Some((limits, file)) => put_file(alloc, found, &limits, file),
        None => Ok(false),
    }
}

/// The limits that the first two fields write, and the text behind them.
fn limits_of(text: &str) -> Option<(Limits, &str)> {
    let (line_bytes, text) = named_row(text)?;
    let (lines, file) = named_row(text)?;
    let limits = Limits::new(LimitNumbers {
        line_bytes: number_in(line_bytes)?,
        lines: number_in(lines)?,
        ..Limits::standard().numbers()
    })?;
    Some((limits, file))
}

/// Adds the lines of the file that a field writes.
fn put_file(
    alloc: Global,
    found: &mut Vec<u8>,
    limits: &Limits,
    field: &str,
) -> Result<bool, AllocError> {
    match bytes_of(alloc, field)? {
        Some(file) => put_lines(alloc, found, limits, &file),
        None => Ok(false),
    }
}

/// Adds the lines of a file, if they are the same in pieces of every size, by both calls of the reader.
fn put_lines(
    alloc: Global,
    found: &mut Vec<u8>,
    limits: &Limits,
    file: &[u8],
) -> Result<bool, AllocError> {
    put_copied(alloc, found, limits, file, LONGEST_PIECE)?;
    for size in 1..LONGEST_PIECE + 1 {
        if !has_lines(alloc, found, limits, file, size)? {
            found.extend_from_slice(b", and others in other pieces")?;
            return Ok(false);
        }
    }
    Ok(true)
}

/// Whether a file in pieces of a size has these lines, by both calls of the reader.
fn has_lines(
    alloc: Global,
    lines: &[u8],
    limits: &Limits,
    file: &[u8],
    size: usize,
) -> Result<bool, AllocError>
    requires { 0 < size }
{
    let mut again = Vec::new(alloc);
    put_copied(alloc, &mut again, limits, file, size)?;
    let by_copies = again.as_slice() == lines;
    again.clear();
    put_lent(alloc, &mut again, limits, file, size)?;
    Ok(by_copies && again.as_slice() == lines)
}
