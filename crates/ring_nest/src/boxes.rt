//! The boxes of rings, and boxes around boxes.
ghost use Rattle.std.specs.Prelude.{◌≡◌, ◌≤ℤ◌, true, map, IfOk, All};
ghost use Rattle.std.specs.List.{AllByRecursion};
ghost use Rattle.osm_base.specs.values.Line.{is_closed, IsRing};
ghost use Rattle.ring_nest.specs.Around.{Covers, IsBoxed, around, at_place, start};

use lanes_geo::box_of;
use osm_base::{GeoBox, OutOfMemory, Place, Places};
use std::alloc::Global;

/// The box that no place is said to have.
const NO_BOX: GeoBox = GeoBox {
    west: 0,
    south: 0,
    east: 0,
    north: 0,
};

/// The box of a ring.
fn box_around(ring: &[Place]) -> GeoBox
    requires { is_closed ring.now ≡ true }
    ensures around { result ≡ around ring.now }
    ensures boxed { IsBoxed ring.now }
{
    box_of(ring).unwrap_or(NO_BOX)
}

/// The box of one place.
pub(crate) fn box_of_place(place: Place) -> GeoBox
    ensures { result ≡ at_place place }
{
    GeoBox {
        west: place.lon,
        south: place.lat,
        east: place.lon,
        north: place.lat,
    }
}

/// The box of a ring's first place. No ring whose box does not meet it holds the ring.
pub(crate) fn start_of(ring: &[Place]) -> GeoBox
    ensures { result ≡ start ring.now }
{
    match ring.first() {
        None => NO_BOX,
        Some(place) => box_of_place(*place),
    }
}

/// The lesser of two numbers.
fn lesser(one: i32, other: i32) -> i32
    ensures one { result ≤ℤ one }
    ensures other { result ≤ℤ other }
{
    if one <= other { one } else { other }
}

/// The greater of two numbers.
fn greater(one: i32, other: i32) -> i32
    ensures one { one ≤ℤ result }
    ensures other { other ≤ℤ result }
{
    if one <= other { other } else { one }
}

/// The box around two boxes.
pub(crate) fn widened(box_so_far: GeoBox, other: GeoBox) -> GeoBox
    ensures so_far { Covers result box_so_far }
    ensures other { Covers result other }
{
    GeoBox {
        west: lesser(box_so_far.west, other.west),
        south: lesser(box_so_far.south, other.south),
        east: greater(box_so_far.east, other.east),
        north: greater(box_so_far.north, other.north),
    }
}

/// A box around boxes.
pub(crate) fn box_around_all(boxes: &[GeoBox]) -> GeoBox
    ensures { AllByRecursion (Covers result) boxes.now }
{
    let mut around = GeoBox {
        west: i32::MAX,
        south: i32::MAX,
        east: i32::MIN,
        north: i32::MIN,
    };
    for other in boxes {
        around = widened(around, *other);
    }
    around
}

/// The boxes of rings.
pub(crate) fn boxes_of(alloc: Global, rings: &[Places]) -> Result<Vec<GeoBox>, OutOfMemory>
    requires { All IsRing rings.now }
    ensures boxes { IfOk result (λ boxes. boxes.items ≡ map around rings.now) }
    ensures boxed { IfOk result (λ _. AllByRecursion IsBoxed rings.now) }
{
    let mut boxes = Vec::with_capacity(alloc, rings.len())?;
    for ring in rings {
        boxes.push(box_around(ring.as_slice()))?;
    }
    Ok(boxes)
}
