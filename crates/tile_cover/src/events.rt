//! The columns that the segments of a geometry meet, row by row.
ghost use Rattle.std.specs.Prelude.{◌+◌, ◌<◌, ◌^◌, ◌==◌, [], ◌∷◌, OnOk};
ghost use Rattle.std.proofs.Props.{props};
ghost use Rattle.std.specs.List.{AllByRecursion, flat_map};
ghost use Rattle.tile_cover.specs.Events.{IsEvent};
ghost use Rattle.tile_cover.specs.Span.{IsWithinWorld, segment_of};
ghost use Rattle.tile_cover.specs.Tile.{line_segments, lines_segments, segments_of, widened};

use crate::bounds::Bounds;
use crate::climb::{Climb, climb_of};
use crate::span::{Span, span_in};
use osm_base::{Geometry, LineList, OutOfMemory, Place, Places};

/// The columns that one segment meets in one row.
#[derive(Clone, Copy)]
pub(crate) struct Event {
    pub(crate) row: u32,
    pub(crate) span: Span,
}

/// What segments meet in the rows of a table.
#[derive(Drop)]
pub(crate) struct Events<'b> {
    pub(crate) bounds: &'b Bounds,
    pub(crate) list: Vec<Event>,
    ghost each: { AllByRecursion (IsEvent (2 ^ bounds.now.zoom)) list.items } by { Prim.hlevel props },
}

impl Events<'_> {
    ghost use Rattle.tile_cover.specs.Gathered.{Gathers, GathersIn};

    /// Adds what a segment meets in a row.
    fn add_row(&mut self, climb: Climb, row: u32) -> Result<(), OutOfMemory>
        requires row { row < 2 ^ self.old.bounds.now.zoom }
        requires climb { IsWithinWorld (2 ^ self.old.bounds.now.zoom) climb }
        ensures ok { OnOk result (GathersIn (λ other. other == row) (segment_of climb) self.old self.new) }
    {
        let columns = self.bounds.columns();
        let (south, north) = self.bounds.sides(row);
        if let Some(span) = span_in(climb, columns, south, north) {
            self.list.push(Event { row, span })?;
        }
        Ok(())
    }

    /// The row of the last event; the first one where there is none.
    fn last_row(&self) -> u32
        ensures within { result < 2 ^ self.now.bounds.now.zoom }
    {
        let count = self.list.len();
        if count == 0 {
            return 0;
        }
        self.list[count - 1].row
    }

    /// Adds what a segment meets.
    fn add_segment(&mut self, start: Place, end: Place) -> Result<(), OutOfMemory>
        ensures ok { OnOk result (Gathers
            (λ columns. record { start = widened columns start; end = widened columns end } ∷ []) self.old self.new) }
    {
        let climb = climb_of(self.bounds.columns(), start, end);
        // The segments of a geometry mostly lie in one row, one after another.
        let row = self.last_row();
        let (from, to) = self.bounds.rows_from(row, climb);
        for row in from..to {
            self.add_row(climb, row)?;
        }
        Ok(())
    }

    /// Adds what a line meets.
    fn add_line(&mut self, places: &[Place]) -> Result<(), OutOfMemory>
        ensures ok { OnOk result (Gathers (λ columns. line_segments columns places.now) self.old self.new) }
    {
        let mut at = 0;
        while places.len() - at > 1 {
            self.add_segment(places[at], places[at + 1])?;
            at += 1;
        }
        Ok(())
    }

    /// Adds what lines meet, or rings.
    fn add_lines(&mut self, lines: &[Places]) -> Result<(), OutOfMemory>
        ensures ok { OnOk result (Gathers (λ columns. lines_segments columns lines.now) self.old self.new) }
    {
        for line in lines {
            self.add_line(line.as_slice())?;
        }
        Ok(())
    }

    /// Adds what the rings of polygons meet.
    fn add_polygons(&mut self, polygons: &[LineList]) -> Result<(), OutOfMemory>
        ensures ok { OnOk result (Gathers (λ columns. flat_map (lines_segments columns) polygons.now) self.old self.new) }
    {
        for polygon in polygons {
            self.add_lines(polygon.as_slice())?;
        }
        Ok(())
    }

    /// Adds what a geometry meets.
    pub(crate) fn add_geometry(&mut self, geometry: &Geometry) -> Result<(), OutOfMemory>
        ensures ok { OnOk result (Gathers (λ columns. segments_of columns geometry.now) self.old self.new) }
    {
        match geometry {
            Geometry::Point(place) => self.add_segment(*place, *place),
            Geometry::Line(places) => self.add_line(places.as_slice()),
            Geometry::Lines(lines) => self.add_lines(lines.as_slice()),
            Geometry::Area(polygons) => self.add_polygons(polygons.as_slice()),
        }
    }
}
