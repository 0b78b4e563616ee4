//! The box of places, sixteen at a time.
ghost use Rattle.std.specs.Prelude.{◌≡◌, ◌≤◌, ◌-ℤ◌, ◌+ℤ◌, ◌≤ℤ◌, pos, length, map, min, max, IfSome};
ghost use Rattle.std.specs.List.{AllByRecursion};
ghost use lib.Lanes.{zip2};
ghost use Rattle.lanes_geo.specs.Box.{IsWithin, box_of as box_around};
ghost use Rattle.lanes_geo.specs.Grid.{IsPlace, east_of, greatest_of, least_of, north_of};

use crate::grid::{all_lanes, east, easts, north, norths};
use osm_base::{GeoBox, MAX_LAT, MAX_LON, Place};
use std::simd::prelude::*;

/// The sides of a box, counted from the south west corner of the world.
#[derive(Clone, Copy)]
struct Sides {
    west: u32,
    south: u32,
    east: u32,
    north: u32,
}

/// The lower number of each lane.
#[inline(always)]
fn lower(lanes: u32x16, others: u32x16) -> u32x16
    requires { length lanes ≡ 16 × length others ≡ 16 }
    ensures { result ≡ zip2 min lanes others }
{
    lanes.simd_min(others)
}

/// The higher number of each lane.
#[inline(always)]
fn higher(lanes: u32x16, others: u32x16) -> u32x16
    requires { length lanes ≡ 16 × length others ≡ 16 }
    ensures { result ≡ zip2 max lanes others }
{
    lanes.simd_max(others)
}

/// The least of the lanes.
fn lowest(lanes: u32x16) -> u32
    ensures { result ≡ least_of lanes }
{
    let mut least = u32::MAX;
    for lane in lanes.to_array() {
        least = least.min(lane);
    }
    least
}

/// The greatest of the lanes.
fn highest(lanes: u32x16) -> u32
    ensures { result ≡ greatest_of lanes }
{
    let mut greatest = 0;
    for lane in lanes.to_array() {
        greatest = greatest.max(lane);
    }
    greatest
}

/// The sides of a box around these places too, one place after the other.
fn stretched(sides: Sides, places: &[Place]) -> Sides
    ensures west { result.west ≡ min sides.west (least_of (map east_of places.now)) }
    ensures south { result.south ≡ min sides.south (least_of (map north_of places.now)) }
    ensures east { result.east ≡ max sides.east (greatest_of (map east_of places.now)) }
    ensures north { result.north ≡ max sides.north (greatest_of (map north_of places.now)) }
    ensures on_earth { AllByRecursion IsPlace places.now }
{
    let mut west = sides.west;
    let mut south = sides.south;
    let mut most_east = sides.east;
    let mut most_north = sides.north;
    for place in places {
        let place = *place;
        west = west.min(east(place));
        south = south.min(north(place));
        most_east = most_east.max(east(place));
        most_north = most_north.max(north(place));
    }
    Sides {
        west,
        south,
        east: most_east,
        north: most_north,
    }
}

/// The sides of the box of places. Without a place the least sides are above the greatest.
fn sides_of(places: &[Place]) -> Sides
    ensures west { result.west ≡ least_of (map east_of places.now) }
    ensures south { result.south ≡ least_of (map north_of places.now) }
    ensures east { result.east ≡ greatest_of (map east_of places.now) }
    ensures north { result.north ≡ greatest_of (map north_of places.now) }
    ensures on_earth { AllByRecursion IsPlace places.now }
{
    let mut west = all_lanes(u32::MAX);
    let mut south = all_lanes(u32::MAX);
    let mut east = all_lanes(0);
    let mut north = all_lanes(0);
    let mut at = 0;
    while places.len() - at > 15 {
        let easts = easts(places, at);
        let norths = norths(places, at);
        west = lower(west, easts);
        south = lower(south, norths);
        east = higher(east, easts);
        north = higher(north, norths);
        at += 16;
    }
    let sides = Sides {
        west: lowest(west),
        south: lowest(south),
        east: highest(east),
        north: highest(north),
    };
    let (_, rest) = places.split_at(at);
    stretched(sides, rest)
}

/// The number of units of 1e-7 degree that this is above the least one.
#[inline(always)]
fn units(number: u32, most: i32) -> i32
    requires number { pos number ≤ℤ (most +ℤ most) }
    requires most { pos 0 ≤ℤ most }
    ensures { result ≡ pos number -ℤ most }
{
    (i64::from(number) - i64::from(most)) as i32
}

/// The least and the greatest longitude and latitude of places; none where there is no place.
pub fn box_of(places: &[Place]) -> Option<GeoBox>
    ensures sides { result ≡ box_around places.now }
    ensures holds { IfSome result (λ around. AllByRecursion (IsWithin around) places.now) }
    ensures on_earth { AllByRecursion IsPlace places.now }
{
    if places.is_empty() {
        return None;
    }
    let sides = sides_of(places);
    Some(GeoBox {
        west: units(sides.west, MAX_LON),
        south: units(sides.south, MAX_LAT),
        east: units(sides.east, MAX_LON),
        north: units(sides.north, MAX_LAT),
    })
}
