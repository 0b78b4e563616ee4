//! The boxes of rows.
ghost use Rattle.std.specs.Prelude.{◌≡◌, flat_map};
ghost use Rattle.lanes_geo.specs.Box.{box_of as box_around};
ghost use Rattle.map_query.specs.Answer.{around, joined_boxes, line_places, places_of};

use lanes_geo::box_of;
use osm_base::{GeoBox, Geometry, LineList, Place, Places};

/// The least and the greatest longitude and latitude of a geometry. `None`: it has no place.
pub fn box_of_geometry(geometry: &Geometry) -> Option<GeoBox>
    ensures sides { result ≡ box_around (places_of geometry.now) }
{
    match geometry {
        Geometry::Point(place) => Some(box_of_place(*place)),
        Geometry::Line(places) => box_of(places.as_slice()),
        Geometry::Lines(lines) => box_of_lines(lines.as_slice()),
        Geometry::Area(polygons) => box_of_polygons(polygons.as_slice()),
    }
}

/// The box of one place.
fn box_of_place(place: Place) -> GeoBox
    ensures sides { result ≡ record { west = place.lon; south = place.lat; east = place.lon; north = place.lat } }
{
    GeoBox {
        west: place.lon,
        south: place.lat,
        east: place.lon,
        north: place.lat,
    }
}

/// The box of several lines.
fn box_of_lines(lines: &[Places]) -> Option<GeoBox>
    ensures sides { result ≡ box_around (line_places lines.now) }
{
    let mut around = None;
    for line in lines {
        around = joined_boxes(around, box_of(line.as_slice()));
    }
    around
}

/// The box of several polygons.
fn box_of_polygons(polygons: &[LineList]) -> Option<GeoBox>
    ensures sides { result ≡ box_around (flat_map line_places polygons.now) }
{
    let mut around = None;
    for rings in polygons {
        around = joined_boxes(around, box_of_lines(rings.as_slice()));
    }
    around
}

/// The box around two boxes, where they are there.
pub(crate) fn joined_boxes(one: Option<GeoBox>, other: Option<GeoBox>) -> Option<GeoBox>
    ensures sides { result ≡ joined_boxes one other }
{
    match (one, other) {
        (Some(one), Some(other)) => Some(around(one, other)),
        (Some(one), None) => Some(one),
        (None, other) => other,
    }
}

/// The box around two boxes.
fn around(one: GeoBox, other: GeoBox) -> GeoBox
    ensures sides { result ≡ around one other }
{
    GeoBox {
        west: one.west.min(other.west),
        south: one.south.min(other.south),
        east: one.east.max(other.east),
        north: one.north.max(other.north),
    }
}
