//! Geometries as the tables write them.
use crate::notation::{line_of_word, lines_of, place_of};
use example_table::named_row;
use osm_base::{Geometry, OutOfMemory, Polygons};
use std::alloc::Global;

/// The geometry of a text: `point PLACE`, `line LINE`, `lines LINE..`, `area RING..` with a sign between polygons.
pub fn geometry_of(alloc: Global, text: &str, sign: char) -> Result<Option<Geometry>, OutOfMemory> {
    let Some((kind, text)) = named_row(text) else {
        return Ok(None);
    };
    match kind {
        "point" => Ok(point_of(text)),
        "line" => line_geometry_of(alloc, text),
        "lines" => lines_geometry_of(alloc, text),
        "area" => area_of(alloc, text, sign),
        _ => Ok(None),
    }
}

fn point_of(text: &str) -> Option<Geometry> {
    Some(Geometry::Point(place_of(text)?))
}

fn line_geometry_of(alloc: Global, text: &str) -> Result<Option<Geometry>, OutOfMemory> {
    match line_of_word(alloc, text)? {
        None => Ok(None),
        Some(line) => Ok(Some(Geometry::Line(line))),
    }
}

fn lines_geometry_of(alloc: Global, text: &str) -> Result<Option<Geometry>, OutOfMemory> {
    match lines_of(alloc, text)? {
        None => Ok(None),
        Some(lines) => Ok(Some(Geometry::Lines(lines))),
    }
}

fn area_of(alloc: Global, text: &str, sign: char) -> Result<Option<Geometry>, OutOfMemory> {
    let mut polygons = Polygons::new(alloc);
    for part in text.split(sign) {
        let Some(rings) = lines_of(alloc, part)? else {
            return Ok(None);
        };
        polygons.push(rings)?;
    }
    Ok(Some(Geometry::Area(polygons)))
}
