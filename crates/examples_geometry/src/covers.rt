//! The tiles that geometries meet.
use crate::shapes::geometry_of;
use crate::tables::table_of;
use example_table::{named_row, number_in};
use osm_base::{Geometry, OutOfMemory};
use std::alloc::{AllocError, Global};
use style_read::Mode;
use tile_cover::{Bounds, Run, TileRuns, cover};

/// A table, a mode and a geometry, as a row gives them.
#[derive(Drop)]
struct Asked {
    table: Bounds,
    mode: Mode,
    geometry: Geometry,
}

/// The row `TABLE MODE GEOMETRY`.
fn asked_of(alloc: Global, given: &str) -> Result<Option<Asked>, OutOfMemory> {
    let Some((word, rest)) = named_row(given) else {
        return Ok(None);
    };
    let Some((mode, text)) = named_row(rest) else {
        return Ok(None);
    };
    let Some(mode) = mode_of(mode) else {
        return Ok(None);
    };
    let Some(table) = table_of(alloc, word)? else {
        return Ok(None);
    };
    let Some(geometry) = geometry_of(alloc, text, '/')? else {
        return Ok(None);
    };
    Ok(Some(Asked {
        table,
        mode,
        geometry,
    }))
}

/// The mode that a word names.
fn mode_of(word: &str) -> Option<Mode> {
    match word {
        "full" => Some(Mode::Full),
        "boundary" => Some(Mode::Boundary),
        _ => None,
    }
}

/// The runs of a cover, a word `ZOOM/ROW:FIRST-LAST` each.
pub fn text_of_runs(alloc: Global, runs: &[Run]) -> Result<String, AllocError> {
    let mut text = String::new(alloc);
    for run in runs {
        push_run(&mut text, *run)?;
    }
    Ok(text)
}

fn push_run(text: &mut String, run: Run) -> Result<(), AllocError> {
    let Run {
        zoom,
        y,
        first,
        last,
    } = run;
    if !text.is_empty() {
        text.push(' ')?;
    }
    write!(text, "{zoom}/{y}:{first}-{last}")
}

/// The runs that cover the geometry of a row.
fn covered(alloc: Global, given: &str) -> Result<Option<TileRuns>, OutOfMemory> {
    let Some(asked) = asked_of(alloc, given)? else {
        return Ok(None);
    };
    let set = cover(alloc, &asked.table, &asked.geometry, asked.mode)?;
    Ok(Some(set))
}

/// The runs that cover a geometry, as words.
pub fn listed(alloc: Global, given: &str) -> Result<Option<String>, OutOfMemory> {
    match covered(alloc, given)? {
        None => Ok(None),
        Some(set) => Ok(Some(text_of_runs(alloc, set.as_slice())?)),
    }
}

/// How many runs cover a geometry, and how many tiles they have.
pub fn counted(alloc: Global, given: &str) -> Result<Option<String>, OutOfMemory> {
    match covered(alloc, given)? {
        None => Ok(None),
        Some(set) => Ok(Some(text_of_count(alloc, set.as_slice())?)),
    }
}

fn text_of_count(alloc: Global, runs: &[Run]) -> Result<String, AllocError> {
    let mut tiles = 0u64;
    for run in runs {
        let columns = u64::from(run.last).saturating_sub(u64::from(run.first));
        tiles = tiles.saturating_add(columns).saturating_add(1);
    }
    let count = runs.len();
    format!(in alloc; "{count} runs {tiles} tiles")
}

/// Whether a geometry meets the tile of the row `X Y TABLE MODE GEOMETRY`.
pub fn met(alloc: Global, given: &str) -> Result<Option<String>, OutOfMemory> {
    let Some((x, rest)) = named_row(given) else {
        return Ok(None);
    };
    let Some((y, rest)) = named_row(rest) else {
        return Ok(None);
    };
    let (Some(x), Some(y)) = (number_in(x), number_in(y)) else {
        return Ok(None);
    };
    let Some(asked) = asked_of(alloc, rest)? else {
        return Ok(None);
    };
    match word_at(&asked, x, y) {
        None => Ok(None),
        Some(word) => Ok(Some(String::from_str(alloc, word)?)),
    }
}

/// Whether the geometry meets a tile, where there is such a tile.
fn word_at(asked: &Asked, x: u64, y: u64) -> Option<&'static str> {
    let Asked {
        table,
        mode,
        geometry,
    } = asked;
    let count = 1u64 << table.zoom();
    if x >= count || y >= count {
        return None;
    }
    let is_met = table.meets(x as u32, y as u32, geometry, *mode);
    Some(if is_met { "yes" } else { "no" })
}
