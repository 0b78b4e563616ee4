//! How two states of the tables differ, looked at row by row.

use crate::setting::Rules;
use due_tiles::union;
use osm_base::{Delta, OutOfMemory, Row, Same, Tables};
use std::alloc::Global;
use style_read::Mode;
use tile_cover::{TileRuns, cover};

/// Puts the tiles to a set that a row meets which only one of two states of the tables has.
pub fn add_differing(
    alloc: Global,
    rules: &Rules,
    states: [&Tables; 2],
    due: &mut TileRuns,
) -> Result<(), OutOfMemory> {
    let [before, after] = states;
    add_other(alloc, rules, before, after, due)?;
    add_other(alloc, rules, after, before, due)
}

// Puts the tiles to a set that a row meets which the other tables do not have equally.
fn add_other(
    alloc: Global,
    rules: &Rules,
    tables: &Tables,
    others: &Tables,
    due: &mut TileRuns,
) -> Result<(), OutOfMemory> {
    for (spot, row) in tables.rows() {
        if !is_same(row, others.get(*spot)) {
            add_tiles(alloc, rules, spot.table, row, due)?;
        }
    }
    Ok(())
}

// Puts the tiles to a set that a row of a table meets.
fn add_tiles(
    alloc: Global,
    rules: &Rules,
    table: u32,
    row: &Row,
    due: &mut TileRuns,
) -> Result<(), OutOfMemory> {
    let mode = match rules.style.tables.as_slice().get(table as usize) {
        Some(table) => table.mode,
        None => Mode::Boundary,
    };
    let tiles = cover(alloc, &rules.bounds, &row.geometry, mode)?;
    union(alloc, due, &tiles)
}

// Whether the other tables have the row equally.
fn is_same(row: &Row, other: Option<&Row>) -> bool {
    match other {
        Some(other) => row.is_same(other),
        None => false,
    }
}

/// Takes tables over a delta.
pub fn apply(tables: &mut Tables, delta: Delta) -> Result<(), OutOfMemory> {
    for change in delta.changes.into_vec() {
        tables.apply(change)?;
    }
    Ok(())
}
