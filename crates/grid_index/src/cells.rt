//! The cells of the earth that a box has.
ghost use Rattle.std.specs.Prelude.{◌≡◌, ◌<◌, ◌≤◌};
ghost use Rattle.grid_index.specs.Cells as spec;
ghost use Rattle.grid_index.specs.Cells.{HasFew};

use osm_base::GeoBox;

/// The side of a cell, in units of 1e-7 degree.
pub const CELL_UNITS: u64 = 4_194_304;

/// A box with more cells is wide.
pub const MOST_CELLS: u64 = 64;

/// The level of the part that is all the earth; each level below has parts of half the side, and level 0 has cells.
pub const LAST_LEVEL: u32 = 11;

/// The numbers that code and definitions share.
pub fn shared_numbers()
    ensures units { CELL_UNITS ≡ 4194304 }
    ensures most { MOST_CELLS ≡ 64 }
    ensures last { LAST_LEVEL ≡ 11 }
{}

/// The columns and rows of cells that a box has, counted from the south west corner of the earth.
#[derive(Clone, Copy)]
pub(crate) struct Cells {
    pub(crate) west: u32,
    pub(crate) south: u32,
    pub(crate) east: u32,
    pub(crate) north: u32,
}

/// The column of a longitude.
fn column(lon: i32) -> u32
    ensures column { result ≡ spec.column lon }
    ensures few { result < 1024 }
{
    ((i64::from(lon) + 1_800_000_000).max(0).unsigned_abs() / CELL_UNITS) as u32
}

/// The row of a latitude.
fn row(lat: i32) -> u32
    ensures row { result ≡ spec.row lat }
    ensures few { result < 1024 }
{
    ((i64::from(lat) + 900_000_000).max(0).unsigned_abs() / CELL_UNITS) as u32
}

/// The cells of a box.
pub(crate) fn cells_of(around: GeoBox) -> Cells
    ensures cells { result ≡ spec.cells_of around }
    ensures few { HasFew result }
{
    Cells {
        west: column(around.west),
        south: row(around.south),
        east: column(around.east),
        north: row(around.north),
    }
}

/// Whether a box with these cells is wide.
#[tactic(auto, unfolding(crate::specs::Cells::is_wide_of))]
pub(crate) fn is_wide(cells: Cells) -> bool
    requires { HasFew cells }
    ensures wide { result ≡ spec.is_wide_of cells }
{
    let columns = u64::from(cells.east + 1).saturating_sub(u64::from(cells.west));
    let rows = u64::from(cells.north + 1).saturating_sub(u64::from(cells.south));
    MOST_CELLS < columns * rows
}

/// Whether two boxes with these cells share one.
pub(crate) fn share(asked: Cells, cells: Cells) -> bool
    ensures share { result ≡ spec.share asked cells }
{
    let across = cells.west <= asked.east && asked.west <= cells.east;
    across && cells.south <= asked.north && asked.south <= cells.north
}

/// The column or row of the part of a level that holds this column or row of cells.
#[tactic(auto, unfolding(crate::specs::Cells::part))]
pub(crate) fn part(level: u32, number: u32) -> u32
    ensures part { result ≡ spec.part level number }
    ensures few { result ≤ number }
{
    if level < LAST_LEVEL {
        number >> level
    } else {
        0
    }
}

/// Whether one part of a level holds all these cells.
fn is_within(level: u32, cells: Cells) -> bool
    ensures within { result ≡ spec.is_within level cells }
{
    part(level, cells.west) == part(level, cells.east)
        && part(level, cells.south) == part(level, cells.north)
}

/// The least level of which one part holds all these cells; of a wide box the last.
#[tactic(auto, unfolding(crate::specs::Cells::level_of))]
pub(crate) fn level_of(cells: Cells) -> u32
    requires { HasFew cells }
    ensures level { result ≡ spec.level_of cells }
    ensures some { result ≤ LAST_LEVEL }
{
    if is_wide(cells) {
        return LAST_LEVEL;
    }
    level_within(cells)
}

/// The least level of which one part holds all these cells.
fn level_within(cells: Cells) -> u32
    ensures level { result ≡ spec.level_from LAST_LEVEL 0 cells }
    ensures some { result ≤ LAST_LEVEL }
{
    for level in 0..LAST_LEVEL {
        if is_within(level, cells) {
            return level;
        }
    }
    LAST_LEVEL
}
