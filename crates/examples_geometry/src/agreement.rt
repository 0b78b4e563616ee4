//! Covers against the test of each tile, for geometries by chance.
use crate::chance::next;
use crate::notation::on_earth;
use crate::tables::table_of;
use example_table::{named_row, number_in};
use osm_base::{Geometry, LineList, OutOfMemory, Places, Polygons};
use std::alloc::Global;
use style_read::Mode;
use tile_cover::{Bounds, Run, cover};

/// The columns and the rows of the table: zoom 3.
const ZOOM: u32 = 3;

const SIDE: u32 = 8;

/// The table: the latitudes 800, 600 and so on to -800.
const TABLE: &str = "800,200,9";

/// A line of so many places, often on the sides of tiles.
fn line_by_chance(alloc: Global, state: &mut u64, count: u64) -> Result<Places, OutOfMemory> {
    let mut places = Places::new(alloc);
    for _ in 0..count {
        let across = (next(state) % 17) as i64;
        let along = (next(state) % 21) as i64;
        let off = (next(state) % 3) as i64;
        // Each second place of the grid is a corner of tiles, and a third of the places lies on the grid.
        let lon = across * 225_000_000 - 1_800_000_000 - off;
        let lat = along * 100 - 1_000 + off;
        if let Some(place) = on_earth(lon, lat) {
            places.push(place)?;
        }
    }
    Ok(places)
}

/// Adds a ring of so many places.
fn push_ring(
    alloc: Global,
    rings: &mut LineList,
    state: &mut u64,
    count: u64,
) -> Result<(), OutOfMemory> {
    let mut ring = line_by_chance(alloc, state, count)?;
    if let Some(first) = ring.as_slice().first() {
        let first = *first;
        ring.push(first)?;
    }
    rings.push(ring)?;
    Ok(())
}

/// Whether runs have a tile.
fn has(runs: &[Run], x: u32, y: u32) -> bool {
    for run in runs {
        let run = *run;
        if run.zoom == ZOOM && run.y == y && run.first <= x && x <= run.last {
            return true;
        }
    }
    false
}

/// Whether a cover has just the tiles that the test of each one tells.
fn is_just(table: &Bounds, runs: &[Run], geometry: &Geometry, mode: Mode) -> bool {
    if table.zoom() != ZOOM {
        return false;
    }
    for y in 0..SIDE {
        for x in 0..SIDE {
            if table.meets(x, y, geometry, mode) != has(runs, x, y) {
                return false;
            }
        }
    }
    true
}

/// A geometry by chance: a line, or an area with a hole.
fn geometry_by_chance(alloc: Global, state: &mut u64) -> Result<Geometry, OutOfMemory> {
    let kind = next(state) % 4;
    let count = next(state) % 6 + 1;
    if kind == 0 {
        return Ok(Geometry::Line(line_by_chance(alloc, state, count)?));
    }
    let mut rings = LineList::new(alloc);
    push_ring(alloc, &mut rings, state, count)?;
    push_ring(alloc, &mut rings, state, kind)?;
    let mut polygons = Polygons::new(alloc);
    polygons.push(rings)?;
    Ok(Geometry::Area(polygons))
}

/// Whether the cover of the next geometry is just what it has to be.
fn agrees(alloc: Global, table: &Bounds, state: &mut u64, mode: Mode) -> Result<bool, OutOfMemory> {
    let geometry = geometry_by_chance(alloc, state)?;
    let set = cover(alloc, table, &geometry, mode)?;
    Ok(is_just(table, set.as_slice(), &geometry, mode))
}

/// So many geometries by chance from a seed: `SEED COUNT`.
pub fn agree(alloc: Global, given: &str) -> Result<Option<String>, OutOfMemory> {
    let Some((seed, count)) = named_row(given) else {
        return Ok(None);
    };
    let (Some(seed), Some(count)) = (number_in(seed), number_in(count)) else {
        return Ok(None);
    };
    let Some(table) = table_of(alloc, TABLE)? else {
        return Ok(None);
    };
    let mut state = seed;
    for case in 0..count {
        let mode = if case % 4 == 0 {
            Mode::Boundary
        } else {
            Mode::Full
        };
        if !agrees(alloc, &table, &mut state, mode)? {
            return Ok(Some(format!(in alloc; "differs at {case}")?));
        }
    }
    Ok(Some(String::from_str(alloc, "agree")?))
}
