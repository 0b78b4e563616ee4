//! A geometry that lies within one tile, on none of its sides.
ghost use Rattle.std.specs.Prelude.{ℕ, ◌<◌, ◌^◌, ◌↔◌, [], ◌∷◌, length, IsTrue, IfSome};
ghost use Rattle.tile_cover.specs.Events.{Gains, IsEvent};
ghost use Rattle.tile_cover.specs.Inside.{AreInside, AreLinesInside, HasSegment, IsInside, IsLineInside};
ghost use Rattle.tile_cover.specs.Seen.{IsTileOf, box_of};
ghost use Rattle.tile_cover.specs.Tile.{line_segments, lines_segments, segments_of};

use crate::bounds::Bounds;
use crate::climb::{from_pole, wide_lon};
use crate::events::Event;
use crate::span::{COLUMN, Span};
use crate::tile::Tile;
use osm_base::{Geometry, LineList, Place, Places};

/// Whether a place lies strictly between the sides of a tile.
fn is_inside(tile: Tile, place: Place) -> bool
    ensures inside { IsTrue result ↔ IsInside tile.columns (box_of tile) place }
{
    let lon = wide_lon(tile.columns, place);
    let lat = from_pole(place.lat);
    let west = u64::from(tile.x) * COLUMN;
    (west < lon) & (lon < west + COLUMN) & (tile.south < lat) & (lat < tile.north)
}

/// Whether all places of a line do.
fn is_line_inside(tile: Tile, places: &[Place]) -> bool
    ensures inside { IsTrue result ↔ IsLineInside tile.columns (box_of tile) places.now }
{
    places.iter().all(|place| is_inside(tile, *place))
}

/// Whether all places of lines do, or of rings.
fn are_lines_inside(tile: Tile, lines: &[Places]) -> bool
    ensures inside { IsTrue result ↔ AreLinesInside tile.columns (box_of tile) lines.now }
{
    lines
        .iter()
        .all(|line| is_line_inside(tile, line.as_slice()))
}

/// Whether all places of a geometry do.
fn are_inside(tile: Tile, geometry: &Geometry) -> bool
    ensures inside { IsTrue result ↔ AreInside tile.columns (box_of tile) geometry.now }
{
    match geometry {
        Geometry::Point(place) => is_inside(tile, *place),
        Geometry::Line(places) => is_line_inside(tile, places.as_slice()),
        Geometry::Lines(lines) => are_lines_inside(tile, lines.as_slice()),
        Geometry::Area(polygons) => polygons
            .as_slice()
            .iter()
            .all(|polygon| are_lines_inside(tile, polygon.as_slice())),
    }
}

/// The start of a line's first segment.
fn start_of_line(places: &[Place]) -> Option<Place>
    ensures some { IfSome result (λ _. (columns : ℕ) → 0 < length (line_segments columns places.now)) }
{
    if places.len() < 2 {
        return None;
    }
    Some(places[0])
}

/// The start of the first line's first segment.
fn start_of_lines(lines: &[Places]) -> Option<Place>
    ensures some { IfSome result (λ _. (columns : ℕ) → 0 < length (lines_segments columns lines.now)) }
{
    if lines.is_empty() {
        return None;
    }
    start_of_line(lines[0].as_slice())
}

/// The start of a segment of a geometry. `None`: its first line has none.
fn start_of(geometry: &Geometry) -> Option<Place>
    ensures some { IfSome result (λ _. HasSegment geometry.now) }
{
    match geometry {
        Geometry::Point(place) => Some(*place),
        Geometry::Line(places) => start_of_line(places.as_slice()),
        Geometry::Lines(lines) => start_of_lines(lines.as_slice()),
        Geometry::Area(polygons) => {
            let polygons = polygons.as_slice();
            if polygons.is_empty() {
                return None;
            }
            start_of_lines(polygons[0].as_slice())
        }
    }
}

/// The column that a place lies in.
fn column_near(bounds: &Bounds, place: Place) -> u32
    ensures within { result < 2 ^ bounds.now.zoom }
{
    let columns = bounds.columns();
    (wide_lon(columns, place) / COLUMN).min(u64::from(columns) - 1) as u32
}

/// A row, and the tile in it that a place lies in, where it lies in a tile of the table.
fn tile_near(bounds: &Bounds, place: Place) -> (u32, Tile)
    ensures tile { IsTileOf bounds.now result.0 result.1 }
{
    let columns = bounds.columns();
    let row = bounds.row_near(place.lat);
    let (south, north) = bounds.sides(row);
    let x = column_near(bounds, place);
    let tile = Tile {
        x,
        columns,
        south,
        north,
    };
    (row, tile)
}

/// All that a geometry meets, where it lies within one tile.
pub(crate) fn lone_event(bounds: &Bounds, geometry: &Geometry) -> Option<Event>
    ensures event { IfSome result (IsEvent (2 ^ bounds.now.zoom)) }
    ensures gains { IfSome result (λ event. Gains bounds.now (segments_of (2 ^ bounds.now.zoom) geometry.now) [] (event ∷ [])) }
{
    let start = start_of(geometry)?;
    let (row, tile) = tile_near(bounds, start);
    if !are_inside(tile, geometry) {
        return None;
    }
    let span = Span {
        first: tile.x,
        last: tile.x,
        straddles: false,
    };
    Some(Event { row, span })
}
