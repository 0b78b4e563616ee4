//! Examples of single lines, each through both readers.
ghost use Rattle.opl_object.specs.Written.{IsWritable};

use crate::both::outcome_of;
use doubles::{Fails, MemSink};
use example_table::bytes_of;
use opl_object::{LineRefused, Why, read_line, write_entry};
use osm_base::{Entry, Ids};
use std::alloc::{AllocError, Global};

/// More calls of a sink than a line of the tables takes.
const MOST_CALLS: u64 = 4_000;

/// Adds what reading the line of a row gives, by both readers: `skipped`, `cause N`, or the line that is written of the
/// entry.
pub fn lines(alloc: Global, found: &mut Vec<u8>, field: &str) -> Result<bool, AllocError> {
    match bytes_of(alloc, field)? {
        Some(line) => {
            put_found(alloc, found, &line)?;
            Ok(true)
        }
        None => Ok(false),
    }
}

/// Adds what reading a line gives, and whether the other reader gives something else.
fn put_found(alloc: Global, found: &mut Vec<u8>, line: &[u8]) -> Result<(), AllocError> {
    match read_line(alloc, line) {
        Ok(None) => found.extend_from_slice(b"skipped")?,
        Ok(Some(entry)) => put_written(alloc, found, &entry)?,
        Err(LineRefused::Bad(why)) => put_cause(alloc, found, why)?,
        Err(LineRefused::OutOfMemory) => found.extend_from_slice(b"out of memory")?,
    }
    match outcome_of(alloc, line) {
        Some(_) => Ok(()),
        None => found.extend_from_slice(b", and the readers differ"),
    }
}

/// Adds the number of a cause.
fn put_cause(alloc: Global, found: &mut Vec<u8>, why: Why) -> Result<(), AllocError> {
    let text = format!(in alloc; "cause {}", why.number())?;
    found.extend_from_slice(text.as_bytes())
}

/// Adds the line that is written of an entry, without its newline, if it is read and written the same again, and a
/// sink that fails has taken a front of it.
fn put_written(alloc: Global, found: &mut Vec<u8>, entry: &Entry) -> Result<(), AllocError>
    requires { IsWritable entry.now }
{
    let mut sink = MemSink::new(alloc, Fails::never(alloc));
    let good = is_written(entry, &mut sink) && leaves_a_front(alloc, entry, sink.taken());
    put_line(alloc, found, good, sink.taken())
}

/// Whether an entry is written.
fn is_written(entry: &Entry, sink: &mut MemSink) -> bool
    requires { IsWritable entry.now }
{
    write_entry(entry, sink).is_ok()
}

/// Adds a line that was written, without its newline, if this is good and it is read and written the same again.
fn put_line(alloc: Global, found: &mut Vec<u8>, good: bool, text: &[u8]) -> Result<(), AllocError> {
    let (line, _) = text.split_at(text.len().saturating_sub(1));
    found.extend_from_slice(line)?;
    if good && is_read_again(alloc, line, text) {
        return Ok(());
    }
    found.extend_from_slice(b", and not so again")
}

/// Whether a line that was written is read, and written the same.
fn is_read_again(alloc: Global, line: &[u8], text: &[u8]) -> bool {
    match read_line(alloc, line) {
        Ok(Some(entry)) => is_written_so(alloc, &entry, text),
        _ => false,
    }
}

/// Whether this text is written of an entry.
fn is_written_so(alloc: Global, entry: &Entry, text: &[u8]) -> bool
    requires { IsWritable entry.now }
{
    let mut sink = MemSink::new(alloc, Fails::never(alloc));
    is_written(entry, &mut sink) && sink.taken() == text
}

/// Whether a sink that fails at any one call has taken less than the line, and a front of it.
fn leaves_a_front(alloc: Global, entry: &Entry, text: &[u8]) -> bool
    requires { IsWritable entry.now }
{
    for call in 1..MOST_CALLS {
        match taken_until(alloc, entry, text, call) {
            Taken::Front => {}
            Taken::All => return 4 < call,
            Taken::Other => return false,
        }
    }
    false
}

/// What a sink has taken of a line.
#[derive(Clone, Copy)]
enum Taken {
    Front,
    All,
    Other,
}

/// What a sink has taken of the line of an entry that fails at a call.
fn taken_until(alloc: Global, entry: &Entry, text: &[u8], call: u64) -> Taken
    requires { IsWritable entry.now }
{
    let Ok(at) = Vec::from_slice(alloc, &[call]) else {
        return Taken::Other;
    };
    let mut sink = MemSink::new(alloc, Fails::new(Ids::from_vec(at), 0));
    let done = is_written(entry, &mut sink);
    taken_of(done, sink.taken(), text)
}

/// What was taken of a line, all of it where the writing is done.
fn taken_of(done: bool, taken: &[u8], text: &[u8]) -> Taken {
    if done {
        if taken == text {
            Taken::All
        } else {
            Taken::Other
        }
    } else if text.starts_with(taken) && taken.len() < text.len() {
        Taken::Front
    } else {
        Taken::Other
    }
}
