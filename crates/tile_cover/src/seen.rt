//! One tile, and the segments of a geometry.
ghost use Rattle.std.specs.Prelude.{◌≡◌, ℕ, ◌<◌, ◌≤◌, ◌&&◌, [], ◌∷◌, nat_le, nat_lt};
ghost use Rattle.std.specs.List.{flat_map};
ghost use Rattle.tile_cover.specs.Seen.{Sees, box_of};
ghost use Rattle.tile_cover.specs.Span.{covers as covers_column, is_further as is_further_east};
ghost use Rattle.tile_cover.specs.Tile.{line_segments, lines_segments, segments_of, widened};

use crate::climb::climb_of;
use crate::span::{Span, span_in};
use crate::tile::Tile;
use osm_base::{Geometry, LineList, Place, Places};

/// What is seen of segments.
#[derive(Clone, Copy)]
pub(crate) struct Seen {
    /// One touches the tile.
    pub(crate) touched: bool,
    /// An odd number of them cross the latitude of the tile's north west corner strictly east of it.
    pub(crate) odd: bool,
}

/// Whether a span has a column.
fn covers(x: u32, span: Span) -> bool
    ensures { result ≡ covers_column x span }
{
    span.first <= x && x <= span.last
}

/// Whether a span goes through the northern side of its row further east.
fn is_further(x: u32, span: Span) -> bool
    ensures { result ≡ is_further_east x span }
{
    span.straddles && x < span.first
}

/// What is seen after one more segment.
fn see_segment(tile: Tile, seen: Seen, start: Place, end: Place) -> Seen
    ensures sees { Sees (box_of tile) (record { start = widened tile.columns start; end = widened tile.columns end } ∷ []) seen result }
{
    let climb = climb_of(tile.columns, start, end);
    let Some(span) = span_in(climb, tile.columns, tile.south, tile.north) else {
        return seen;
    };
    let touched = seen.touched | covers(tile.x, span);
    let odd = seen.odd != is_further(tile.x, span);
    Seen { touched, odd }
}

/// What is seen after the segments of a line.
fn see_line(tile: Tile, seen: Seen, places: &[Place]) -> Seen
    ensures sees { Sees (box_of tile) (line_segments tile.columns places.now) seen result }
{
    let mut now = seen;
    let mut at = 0;
    while places.len() - at > 1 {
        now = see_segment(tile, now, places[at], places[at + 1]);
        at += 1;
    }
    now
}

/// What is seen after the segments of lines, or rings.
fn see_lines(tile: Tile, seen: Seen, lines: &[Places]) -> Seen
    ensures sees { Sees (box_of tile) (lines_segments tile.columns lines.now) seen result }
{
    let mut now = seen;
    for line in lines {
        now = see_line(tile, now, line.as_slice());
    }
    now
}

/// What is seen after the segments of the rings of polygons.
fn see_polygons(tile: Tile, seen: Seen, polygons: &[LineList]) -> Seen
    ensures sees { Sees (box_of tile) (flat_map (lines_segments tile.columns) polygons.now) seen result }
{
    let mut now = seen;
    for polygon in polygons {
        now = see_lines(tile, now, polygon.as_slice());
    }
    now
}

/// What is seen after the segments of a geometry.
pub(crate) fn see(tile: Tile, seen: Seen, geometry: &Geometry) -> Seen
    ensures sees { Sees (box_of tile) (segments_of tile.columns geometry.now) seen result }
{
    match geometry {
        Geometry::Point(place) => see_segment(tile, seen, *place, *place),
        Geometry::Line(places) => see_line(tile, seen, places.as_slice()),
        Geometry::Lines(lines) => see_lines(tile, seen, lines.as_slice()),
        Geometry::Area(polygons) => see_polygons(tile, seen, polygons.as_slice()),
    }
}
