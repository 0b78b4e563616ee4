//! All tiles that a geometry meets.
ghost use Rattle.std.specs.Prelude.{◌≡◌, ℕ, ◌+◌, ◌*◌, ◌<◌, ◌^◌, [], IfOk};
ghost use Rattle.std.specs.List.{AllByRecursion};
ghost use Rattle.std.specs.List.Sorted.{IsPermutation};
ghost use Rattle.tile_cover.specs.Events.{Gains, IsEvent};
ghost use Rattle.tile_cover.specs.Runs.{has};
ghost use Rattle.tile_cover.specs.Sweep.{AreRising, position_of as position_of_event};
ghost use Rattle.tile_cover.specs.Tile.{counts_filled as counts_filled_tiles, is_covered, met, segments_of};

use crate::bounds::Bounds;
use crate::events::{Event, Events};
use crate::inside::lone_event;
use crate::runs::TileRuns;
use crate::seen::{Seen, see};
use crate::sweep::runs_of;
use crate::tile::Tile;
use osm_base::{Geometry, OutOfMemory};
use std::alloc::Global;
use style_read::Mode;

/// Whether tiles count that a geometry fills: those of an area, in mode full.
fn counts_filled(geometry: &Geometry, mode: Mode) -> bool
    ensures { result ≡ counts_filled_tiles geometry.now mode }
{
    match geometry {
        Geometry::Area(_) => match mode {
            Mode::Boundary => false,
            Mode::Full => true,
        },
        _ => false,
    }
}

/// The place of an event's first column, counted over all rows.
fn position_of(event: Event) -> u64
    ensures { result ≡ position_of_event event }
{
    u64::from(event.row) * 131_072 + u64::from(event.span.first)
}

/// Puts events into the order of the walk.
fn sort(events: &mut Vec<Event>)
    ensures permutation { IsPermutation events.old.items events.new.items }
    ensures rising { AreRising events.new.items }
{
    events.sort_unstable_by_key(|event| position_of(*event));
}

/// What the segments of a geometry meet, in the order of the walk.
fn events_of(alloc: Global, bounds: &Bounds, geometry: &Geometry) -> Result<Vec<Event>, OutOfMemory>
    ensures events { IfOk result (λ events. AllByRecursion (IsEvent (2 ^ bounds.now.zoom)) events.items) }
    ensures rising { IfOk result (λ events. AreRising events.items) }
    ensures gains { IfOk result (λ events. Gains bounds.now (segments_of (2 ^ bounds.now.zoom) geometry.now) [] events.items) }
{
    let mut events = Events {
        bounds,
        list: Vec::new(alloc),
    };
    events.add_geometry(geometry)?;
    let Events {
        bounds: _,
        mut list,
    } = events;
    sort(&mut list);
    Ok(list)
}

impl Bounds {
    /// Whether a geometry meets the tile in a column and a row of the table's zoom, in a mode.
    /// For callers outside: the program does not use it.
    pub fn meets(&self, x: u32, y: u32, geometry: &Geometry, mode: Mode) -> bool
        requires column { x < 2 ^ self.now.zoom }
        requires row { y < 2 ^ self.now.zoom }
        ensures met { result ≡ met self.now x y geometry.now mode }
    {
        let (south, north) = self.sides(y);
        let columns = self.columns();
        let tile = Tile {
            x,
            columns,
            south,
            north,
        };
        let none = Seen {
            touched: false,
            odd: false,
        };
        let seen = see(tile, none, geometry);
        seen.touched | (counts_filled(geometry, mode) & seen.odd)
    }
}

/// The tiles of the table's zoom that a geometry meets, in a mode: those of which `Bounds::meets` tells, and no other.
pub fn cover(
    alloc: Global,
    bounds: &Bounds,
    geometry: &Geometry,
    mode: Mode,
) -> Result<TileRuns, OutOfMemory>
    ensures tiles { IfOk result (λ set. (zoom x y : ℕ) → has set zoom x y ≡ is_covered bounds.now geometry.now mode zoom x y) }
{
    let filled = counts_filled(geometry, mode);
    if let Some(event) = lone_event(bounds, geometry) {
        return Ok(runs_of(alloc, bounds.zoom(), filled, &[event])?);
    }
    let events = events_of(alloc, bounds, geometry)?;
    Ok(runs_of(alloc, bounds.zoom(), filled, &events)?)
}
