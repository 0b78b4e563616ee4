//! What a store tells of itself, as one text.

use crate::stores::push_tables;
use doubles::MemDisk;
use due_tiles::tiles_text;
use osm_base::{Limits, OutOfMemory, Tables};
use std::alloc::Global;
use style_read::Style;
use tile_cover::TileRuns;
use update_flow::{Either, FlowFault, Follower, Updater, open_either};

/// How many changes the tables of a store have had, they, and the tiles that are due, if it follows no other store. `none`: it was only made.
pub fn version_of(alloc: Global, disk: &mut MemDisk) -> Result<String, FlowFault> {
    let limits = Limits::standard();
    match open_either(alloc, disk, &limits)? {
        Either::Updates(opened) => {
            updated(alloc, &mut Updater::over(alloc, disk, opened, &limits))
        }
        Either::Follows(base) => followed(alloc, &mut Follower::over(alloc, disk, base, &limits)),
    }
}

fn updated(alloc: Global, store: &mut Updater<'_, MemDisk>) -> Result<String, FlowFault> {
    let tables = match store.load_tables() {
        Ok(tables) => tables,
        Err(FlowFault::NotImported) => return Ok(String::from_str(alloc, "none")?),
        Err(fault) => return Err(fault),
    };
    let due = store.due()?;
    Ok(version_text(alloc, store.changes(), store.style(), &tables, &due)?)
}

fn followed(alloc: Global, store: &mut Follower<'_, MemDisk>) -> Result<String, FlowFault> {
    let tables = store.load_tables()?;
    let version = store.version().unwrap_or(0);
    let due = TileRuns::new(alloc);
    Ok(version_text(alloc, version, store.style(), &tables, &due)?)
}

fn version_text(
    alloc: Global,
    changes: u64,
    style: Option<&Style>,
    tables: &Tables,
    due: &TileRuns,
) -> Result<String, OutOfMemory> {
    let mut text = format!(in alloc; "{changes} changes\n")?;
    if let Some(style) = style {
        push_tables(alloc, &mut text, style, tables)?;
    }
    let tiles = tiles_text(alloc, due, 0)?;
    text.push_str(std::str::from_utf8(&tiles).unwrap_or("no tiles"))?;
    Ok(text)
}
