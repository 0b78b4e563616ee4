//! Tables of boundaries.
use example_table::{bytes_of, number_in, signed_of};
use osm_base::OutOfMemory;
use std::alloc::Global;
use tile_cover::{Bounds, BoundsFault, read_bounds};

/// The lines of a table: latitudes with `:` between them, or even steps.
fn table_text(alloc: Global, word: &str) -> Result<Option<String>, OutOfMemory> {
    if word.contains(',') {
        return steps_text(alloc, word);
    }
    let mut text = String::new(alloc);
    for lat in word.split(':') {
        text.push_str(lat)?;
        text.push('\n')?;
    }
    Ok(Some(text))
}

/// The lines of a table `FIRST,STEP,COUNT`.
fn steps_text(alloc: Global, word: &str) -> Result<Option<String>, OutOfMemory> {
    let Some((first, step, count)) = steps_of(word) else {
        return Ok(None);
    };
    let mut text = String::new(alloc);
    let mut lat = first;
    for _ in 0..count {
        write!(text, "{lat}\n")?;
        lat = lat.saturating_sub(step);
    }
    Ok(Some(text))
}

fn steps_of(word: &str) -> Option<(i64, i64, u64)> {
    let (first, rest) = word.split_once(',')?;
    let (step, count) = rest.split_once(',')?;
    Some((signed_of(first)?, signed_of(step)?, number_in(count)?))
}

/// What reading these bytes gives: the zoom, or the line that is not good.
fn answer(alloc: Global, bytes: &[u8]) -> Result<Option<String>, OutOfMemory> {
    match read_bounds(alloc, bytes) {
        Ok(table) => {
            let zoom = table.zoom();
            Ok(Some(format!(in alloc; "zoom {zoom}")?))
        }
        Err(BoundsFault::Bad { line }) => Ok(Some(format!(in alloc; "bad {line}")?)),
        Err(BoundsFault::OutOfMemory) => Err(OutOfMemory),
    }
}

/// What reading the table gives whose bytes are given, escaped.
pub fn read(alloc: Global, given: &str) -> Result<Option<String>, OutOfMemory> {
    match bytes_of(alloc, given)? {
        None => Ok(None),
        Some(bytes) => answer(alloc, &bytes),
    }
}

/// What reading a table of even steps gives.
pub fn steps(alloc: Global, given: &str) -> Result<Option<String>, OutOfMemory> {
    match steps_text(alloc, given)? {
        None => Ok(None),
        Some(text) => answer(alloc, text.as_bytes()),
    }
}

/// The table that a word writes.
pub fn table_of(alloc: Global, word: &str) -> Result<Option<Bounds>, OutOfMemory> {
    let Some(text) = table_text(alloc, word)? else {
        return Ok(None);
    };
    match read_bounds(alloc, text.as_bytes()) {
        Ok(table) => Ok(Some(table)),
        Err(BoundsFault::Bad { .. }) => Ok(None),
        Err(BoundsFault::OutOfMemory) => Err(OutOfMemory),
    }
}
