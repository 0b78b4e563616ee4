//! Sets of tiles in bytes, and joined.
use crate::covers::text_of_runs;
use doubles::{Fails, MemSink};
use due_tiles::{DueFault, TilesFault, decode, encode, union, write_tiles};
use example_table::{bytes_of, named_row, number_in};
use osm_base::OutOfMemory;
use std::alloc::{AllocError, Global};
use tile_cover::TileRuns;

/// The numbers of a run `ZOOM/ROW:FIRST-LAST`.
fn numbers_of(word: &str) -> Option<[u64; 4]> {
    let (zoom, rest) = word.split_once('/')?;
    let (row, columns) = rest.split_once(':')?;
    let (first, last) = columns.split_once('-')?;
    Some([
        number_in(zoom)?,
        number_in(row)?,
        number_in(first)?,
        number_in(last)?,
    ])
}

/// The bytes of runs, a word each, whether or not a set has them.
fn bytes_of_runs(alloc: Global, text: &str) -> Result<Option<Vec<u8>>, AllocError> {
    let mut bytes = Vec::new(alloc);
    for word in text.split_ascii_whitespace() {
        let Some(numbers) = numbers_of(word) else {
            return Ok(None);
        };
        push_numbers(&mut bytes, numbers)?;
    }
    Ok(Some(bytes))
}

fn push_numbers(bytes: &mut Vec<u8>, numbers: [u64; 4]) -> Result<(), AllocError> {
    for number in &numbers {
        bytes.extend_from_slice(&number.to_le_bytes())?;
    }
    Ok(())
}

/// What the bytes spell. `None`: no set.
fn set_of(alloc: Global, bytes: &[u8]) -> Result<Option<TileRuns>, OutOfMemory> {
    match decode(alloc, bytes) {
        Ok(set) => Ok(Some(set)),
        Err(DueFault::NotSpelled) => Ok(None),
        Err(DueFault::OutOfMemory) => Err(OutOfMemory),
    }
}

/// The set of runs, a word each. `None`: they are no set.
fn set_of_runs(alloc: Global, text: &str) -> Result<Option<TileRuns>, OutOfMemory> {
    match bytes_of_runs(alloc, text)? {
        None => Ok(None),
        Some(bytes) => set_of(alloc, &bytes),
    }
}

/// The runs that bytes spell, where the set has these bytes again.
fn answer(alloc: Global, bytes: &[u8]) -> Result<Option<String>, OutOfMemory> {
    let text = match set_of(alloc, bytes)? {
        None => String::from_str(alloc, "no set")?,
        Some(set) => text_of_set(alloc, &set, bytes)?,
    };
    Ok(Some(text))
}

fn text_of_set(alloc: Global, set: &TileRuns, bytes: &[u8]) -> Result<String, OutOfMemory> {
    let again = encode(alloc, set)?;
    if again.as_slice() == bytes {
        Ok(text_of_runs(alloc, set.as_slice())?)
    } else {
        Ok(String::from_str(alloc, "other bytes")?)
    }
}

/// What the bytes of runs spell.
pub fn spelled(alloc: Global, given: &str) -> Result<Option<String>, OutOfMemory> {
    match bytes_of_runs(alloc, given)? {
        None => Ok(None),
        Some(bytes) => answer(alloc, &bytes),
    }
}

/// What bytes spell.
pub fn read(alloc: Global, given: &str) -> Result<Option<String>, OutOfMemory> {
    match bytes_of(alloc, given)? {
        None => Ok(None),
        Some(bytes) => answer(alloc, &bytes),
    }
}

/// The tiles of two sets `RUNS | RUNS`.
pub fn joined_runs(alloc: Global, given: &str) -> Result<Option<String>, OutOfMemory> {
    let Some((one, other)) = given.split_once('|') else {
        return Ok(None);
    };
    let Some(mut one) = set_of_runs(alloc, one)? else {
        return Ok(None);
    };
    let Some(other) = set_of_runs(alloc, other)? else {
        return Ok(None);
    };
    union(alloc, &mut one, &other)?;
    Ok(Some(text_of_runs(alloc, one.as_slice())?))
}

/// The lines of a text, a word each.
fn words_of(alloc: Global, bytes: &[u8]) -> Result<Option<String>, AllocError> {
    let Ok(text) = std::str::from_utf8(bytes) else {
        return Ok(None);
    };
    let mut words = String::new(alloc);
    for line in text.lines() {
        if !words.is_empty() {
            words.push(' ')?;
        }
        words.push_str(line)?;
    }
    Ok(Some(words))
}

/// The lines of a set and of the tiles above, from a least zoom on: `LEAST RUNS`.
pub fn listed(alloc: Global, given: &str) -> Result<Option<String>, OutOfMemory> {
    let Some((least, runs)) = named_row(given) else {
        return Ok(None);
    };
    let Ok(least) = least.parse::<u32>() else {
        return Ok(None);
    };
    match set_of_runs(alloc, runs)? {
        None => Ok(None),
        Some(set) => written(alloc, &set, least),
    }
}

fn written(alloc: Global, set: &TileRuns, least: u32) -> Result<Option<String>, OutOfMemory> {
    let mut sink = MemSink::new(alloc, Fails::never(alloc));
    let outcome = outcome_of(alloc, set, least, &mut sink);
    words_written(alloc, outcome, sink.taken())
}

/// The writing, its contract left behind.
fn outcome_of(
    alloc: Global,
    set: &TileRuns,
    least: u32,
    sink: &mut MemSink,
) -> Result<(), TilesFault> {
    write_tiles(alloc, set, least, sink)
}

fn words_written(
    alloc: Global,
    outcome: Result<(), TilesFault>,
    bytes: &[u8],
) -> Result<Option<String>, OutOfMemory> {
    match outcome {
        Ok(()) => Ok(words_of(alloc, bytes)?),
        Err(TilesFault::WriteFault) => Ok(Some(String::from_str(alloc, "write fault")?)),
        Err(TilesFault::OutOfMemory) => Err(OutOfMemory),
    }
}
