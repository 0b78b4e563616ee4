//! Files in pieces of one size, read by both calls of a reader of lines.
ghost use Rattle.std.specs.Prelude.{◌<◌};

use crate::key::put_number;
use opl_lines::{LineFault, LineReader, lines_in};
use osm_base::Limits;
use std::alloc::{AllocError, Global};

/// The pieces of a file, each of so many bytes but for the last.
fn pieces_of(alloc: Global, file: &[u8], size: usize) -> Result<Vec<&[u8]>, AllocError>
    requires { 0 < size }
{
    let mut pieces = Vec::new(alloc);
    let mut rest = file;
    while !rest.is_empty() {
        let (piece, after) = rest.split_at(size.min(rest.len()));
        pieces.push(piece)?;
        rest = after;
    }
    Ok(pieces)
}

/// Adds how many lines a file in pieces of this size has, and each behind a newline, or the limit that it passes. A line
/// may lie in a piece.
pub fn put_lent(
    alloc: Global,
    found: &mut Vec<u8>,
    limits: &Limits,
    file: &[u8],
    size: usize,
) -> Result<(), AllocError>
    requires { 0 < size }
{
    let pieces = pieces_of(alloc, file, size)?;
    match lines_in(alloc, limits, &pieces) {
        Ok(lines) => put_all(alloc, found, &lines),
        Err(fault) => put_fault(found, fault),
    }
}

/// Adds how many lines there are, and each behind a newline.
fn put_all(alloc: Global, found: &mut Vec<u8>, lines: &[Vec<u8>]) -> Result<(), AllocError> {
    put_number(alloc, found, "", lines.len() as u64)?;
    for line in lines {
        put_line(found, line)?;
    }
    Ok(())
}

/// The same as `put_lent`, where each line is copied.
pub fn put_copied(
    alloc: Global,
    found: &mut Vec<u8>,
    limits: &Limits,
    file: &[u8],
    size: usize,
) -> Result<(), AllocError>
    requires { 0 < size }
{
    let mut reader = LineReader::new(alloc, limits);
    let mut lines = Vec::new(alloc);
    match read_lines(&mut reader, &mut lines, file, size)? {
        Some(fault) => put_last_fault(found, &mut reader, fault),
        None => put_copies(alloc, found, &reader, &lines),
    }
}

/// Adds how many lines a reader had, and the bytes of all.
fn put_copies(
    alloc: Global,
    found: &mut Vec<u8>,
    reader: &LineReader,
    lines: &[u8],
) -> Result<(), AllocError> {
    put_number(alloc, found, "", reader.number())?;
    found.extend_from_slice(lines)
}

/// Adds each line of a file behind a newline to `lines`. `Some`: a limit that is passed.
fn read_lines(
    reader: &mut LineReader,
    lines: &mut Vec<u8>,
    file: &[u8],
    size: usize,
) -> Result<Option<LineFault>, AllocError>
    requires { 0 < size }
{
    let mut rest = file;
    while !rest.is_empty() {
        match reader.take(&rest[..size.min(rest.len())]) {
            Ok(taken) => {
                if taken.whole {
                    put_line(lines, reader.line())?;
                }
                let (_, after) = rest.split_at(taken.used);
                rest = after;
            }
            Err(fault) => return Ok(Some(fault)),
        }
    }
    if reader.finish() {
        put_line(lines, reader.line())?;
    }
    Ok(None)
}

/// Adds a line behind a newline.
fn put_line(lines: &mut Vec<u8>, line: &[u8]) -> Result<(), AllocError> {
    lines.push(b'\n')?;
    lines.extend_from_slice(line)
}

/// Adds a limit that was passed, if the reader answers the same from then on.
fn put_last_fault(
    found: &mut Vec<u8>,
    reader: &mut LineReader,
    fault: LineFault,
) -> Result<(), AllocError> {
    let number = reader.number();
    let again = [
        fault_of_take(reader),
        fault_of_line(reader, b"\n"),
        fault_of_line(reader, b"a"),
    ];
    for later in again {
        if !is_fault(later, fault) {
            return found.extend_from_slice(b"forgotten");
        }
    }
    if reader.number() != number {
        return found.extend_from_slice(b"another number");
    }
    put_fault(found, fault)
}

/// Why a newline is not taken.
fn fault_of_take(reader: &mut LineReader) -> Option<LineFault> {
    reader.take(b"\n").err()
}

/// Why a line is not taken of a piece of one byte.
fn fault_of_line(reader: &mut LineReader, piece: &[u8; 1]) -> Option<LineFault> {
    reader.take_line(piece).err()
}

/// Whether there is a fault, and this one.
fn is_fault(later: Option<LineFault>, fault: LineFault) -> bool {
    match later {
        Some(later) => later == fault,
        None => false,
    }
}

/// Adds a limit that was passed.
fn put_fault(found: &mut Vec<u8>, fault: LineFault) -> Result<(), AllocError> {
    let word = match fault {
        LineFault::LineBytes => "line-bytes",
        LineFault::FileLines => "file-lines",
        LineFault::OutOfMemory => "out of memory",
    };
    found.extend_from_slice(word.as_bytes())
}
