//! Geometries as well-known text.
ghost use Rattle.std.specs.Prelude.{◌≡◌, ◌++◌, List, ℕ, codes, flat_map, OnOk};
ghost use Rattle.std.specs.String.{string_bytes};
ghost use Rattle.osm_base.specs.values.Degrees.{degrees};
ghost use Rattle.row_text.specs.Geometry.{bracketed, geometry_text, listed, place_text};

use osm_base::{DegreesBuffer, Geometry, Items, OutOfMemory, Place};

/// A part of a geometry: a place, or a list of parts in brackets.
trait Part {
    ghost text: { Self → List ℕ };

    /// Appends the text.
    fn push(&self, out: &mut String) -> Result<(), OutOfMemory>
        ensures text { OnOk result (string_bytes out.new ≡ string_bytes out.old ++ text self.now) };
}

impl Part for Place {
    ghost text = { place_text };

    fn push(&self, out: &mut String) -> Result<(), OutOfMemory> {
        push_place(out, *self)
    }
}

impl<T: Part> Part for Items<T> {
    ghost text = { λ parts. bracketed T.text parts };

    fn push(&self, out: &mut String) -> Result<(), OutOfMemory> {
        push_bracketed(out, self.as_slice())
    }
}

/// Appends a geometry.
pub fn push_geometry(out: &mut String, geometry: &Geometry) -> Result<(), OutOfMemory>
    ensures text { OnOk result (string_bytes out.new ≡ string_bytes out.old ++ geometry_text geometry.now) }
{
    match geometry {
        Geometry::Point(place) => push_point(out, *place),
        Geometry::Line(places) => push_named(out, "LINESTRING", places),
        Geometry::Lines(lines) => push_named(out, "MULTILINESTRING", lines),
        Geometry::Area(polygons) => push_named(out, "MULTIPOLYGON", polygons),
    }
}

/// Appends a part behind the name of its geometry.
fn push_named<T: Part>(out: &mut String, name: &str, part: &T) -> Result<(), OutOfMemory>
    ensures text { OnOk result (string_bytes out.new ≡ string_bytes out.old ++ (name.now ++ T.text part.now)) }
{
    out.push_str(name)?;
    part.push(out)?;
    Ok(())
}

/// Appends a point.
fn push_point(out: &mut String, place: Place) -> Result<(), OutOfMemory>
    ensures text { OnOk result (string_bytes out.new ≡ string_bytes out.old ++ (codes "POINT(" ++ place_text place ++ codes ")")) }
{
    out.push_str("POINT(")?;
    push_place(out, place)?;
    out.push_str(")")?;
    Ok(())
}

/// Appends parts in brackets.
fn push_bracketed<T: Part>(out: &mut String, parts: &[T]) -> Result<(), OutOfMemory>
    ensures text { OnOk result (string_bytes out.new ≡ string_bytes out.old ++ bracketed T.text parts.now) }
{
    out.push_str("(")?;
    push_listed(out, parts)?;
    out.push_str(")")?;
    Ok(())
}

/// Appends parts with commas between them.
fn push_listed<T: Part>(out: &mut String, parts: &[T]) -> Result<(), OutOfMemory>
    ensures text { OnOk result (string_bytes out.new ≡ string_bytes out.old ++ listed T.text parts.now) }
{
    let Some((first, later)) = parts.split_first() else {
        return Ok(());
    };
    first.push(out)?;
    push_later(out, later)
}

/// Appends parts, each behind a comma.
fn push_later<T: Part>(out: &mut String, parts: &[T]) -> Result<(), OutOfMemory>
    ensures text { OnOk result (string_bytes out.new ≡ string_bytes out.old ++ flat_map (λ next. codes "," ++ T.text next) parts.now) }
{
    for part in parts {
        out.push_str(",")?;
        part.push(out)?;
    }
    Ok(())
}

/// Appends a place: its longitude and its latitude.
fn push_place(out: &mut String, place: Place) -> Result<(), OutOfMemory>
    ensures text { OnOk result (string_bytes out.new ≡ string_bytes out.old ++ place_text place) }
{
    push_degrees(out, place.lon)?;
    out.push_str(" ")?;
    push_degrees(out, place.lat)?;
    Ok(())
}

/// Appends a coordinate, given in units of 1e-7 degree, as degrees.
pub fn push_degrees(out: &mut String, units: i32) -> Result<(), OutOfMemory>
    ensures text { OnOk result (string_bytes out.new ≡ string_bytes out.old ++ degrees units) }
{
    let mut buffer = DegreesBuffer::new();
    let text = buffer.format(units);
    // SAFETY: the text of a coordinate is ASCII.
    out.push_str(unsafe { str::from_utf8_unchecked(text) })?;
    Ok(())
}
