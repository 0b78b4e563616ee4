//! Places counted from the south west corner of the world, sixteen at a time.
ghost use Rattle.std.specs.Prelude.{◌≡◌, ◌+◌, ◌≤◌, length, map, replicate};
ghost use Rattle.std.specs.List.{AllByRecursion};
ghost use Rattle.std.specs.Simd.Lanes.{chunk};
ghost use Rattle.lanes_geo.specs.Grid.{IsPlace, bounds_of, coordinates_of, east_of, evens_of, north_of, odds_of};

use osm_base::{MAX_LAT, MAX_LON, Place};
use std::simd::prelude::*;

/// How far east of the antimeridian a place is.
#[inline(always)]
pub(crate) fn east(place: Place) -> u32
    ensures east { result ≡ east_of place }
    ensures on_earth { IsPlace place }
{
    (i64::from(place.lon) + i64::from(MAX_LON)) as u32
}

/// How far north of the south pole a place is.
#[inline(always)]
pub(crate) fn north(place: Place) -> u32
    ensures north { result ≡ north_of place }
    ensures on_earth { IsPlace place }
{
    (i64::from(place.lat) + i64::from(MAX_LAT)) as u32
}

/// How far north the sixteen places from `at` on are.
#[inline(always)]
pub(crate) fn norths(places: &[Place], at: usize) -> u32x16
    requires { at + 16 ≤ length places.now }
    ensures norths { result ≡ map north_of (chunk at 16 places.now) }
    ensures on_earth { AllByRecursion IsPlace (chunk at 16 places.now) }
{
    u32x16::from_array([
        north(places[at]),
        north(places[at + 1]),
        north(places[at + 2]),
        north(places[at + 3]),
        north(places[at + 4]),
        north(places[at + 5]),
        north(places[at + 6]),
        north(places[at + 7]),
        north(places[at + 8]),
        north(places[at + 9]),
        north(places[at + 10]),
        north(places[at + 11]),
        north(places[at + 12]),
        north(places[at + 13]),
        north(places[at + 14]),
        north(places[at + 15]),
    ])
}

/// How far east the sixteen places from `at` on are.
#[inline(always)]
pub(crate) fn easts(places: &[Place], at: usize) -> u32x16
    requires { at + 16 ≤ length places.now }
    ensures easts { result ≡ map east_of (chunk at 16 places.now) }
    ensures on_earth { AllByRecursion IsPlace (chunk at 16 places.now) }
{
    u32x16::from_array([
        east(places[at]),
        east(places[at + 1]),
        east(places[at + 2]),
        east(places[at + 3]),
        east(places[at + 4]),
        east(places[at + 5]),
        east(places[at + 6]),
        east(places[at + 7]),
        east(places[at + 8]),
        east(places[at + 9]),
        east(places[at + 10]),
        east(places[at + 11]),
        east(places[at + 12]),
        east(places[at + 13]),
        east(places[at + 14]),
        east(places[at + 15]),
    ])
}

/// A number in each lane.
#[inline(always)]
pub(crate) fn all_lanes(number: u32) -> u32x16
    ensures { result ≡ replicate 16 number }
{
    u32x16::splat(number)
}

/// A number in each wide lane.
#[inline(always)]
pub(crate) fn wide_lanes(number: u32) -> u64x8
    ensures { result ≡ replicate 8 number }
{
    u64x8::splat(u64::from(number))
}

/// The numbers in even lanes, in wide ones.
#[inline(always)]
pub(crate) fn even_lanes(lanes: u32x16) -> u64x8
    requires { length lanes ≡ 16 }
    ensures { result ≡ evens_of lanes }
{
    lanes.swizzle([0, 2, 4, 6, 8, 10, 12, 14]).cast::<u64>()
}

/// The numbers in odd lanes, in wide ones.
#[inline(always)]
pub(crate) fn odd_lanes(lanes: u32x16) -> u64x8
    requires { length lanes ≡ 16 }
    ensures { result ≡ odds_of lanes }
{
    lanes.swizzle([1, 3, 5, 7, 9, 11, 13, 15]).cast::<u64>()
}

/// The longitude of a place.
#[inline(always)]
fn lon(place: Place) -> i32
    ensures lon { result ≡ place.lon }
    ensures on_earth { IsPlace place }
{
    place.lon
}

/// The latitude of a place.
#[inline(always)]
fn lat(place: Place) -> i32
    ensures { result ≡ place.lat }
{
    place.lat
}

/// The longitude and the latitude of each of the eight places from `at` on.
#[inline(always)]
pub(crate) fn coordinates(places: &[Place], at: usize) -> i32x16
    requires { at + 8 ≤ length places.now }
    ensures coordinates { result ≡ coordinates_of (chunk at 8 places.now) }
    ensures on_earth { AllByRecursion IsPlace (chunk at 8 places.now) }
{
    let first = places[at];
    let second = places[at + 1];
    let third = places[at + 2];
    let fourth = places[at + 3];
    let fifth = places[at + 4];
    let sixth = places[at + 5];
    let seventh = places[at + 6];
    let eighth = places[at + 7];
    i32x16::from_array([
        lon(first),
        lat(first),
        lon(second),
        lat(second),
        lon(third),
        lat(third),
        lon(fourth),
        lat(fourth),
        lon(fifth),
        lat(fifth),
        lon(sixth),
        lat(sixth),
        lon(seventh),
        lat(seventh),
        lon(eighth),
        lat(eighth),
    ])
}

/// What the latitude of a place north of this one is above, and no longitude is, eight times.
#[inline(always)]
pub(crate) fn bounds(place: Place) -> i32x16
    ensures bounds { result ≡ bounds_of place 8 }
    ensures on_earth { IsPlace place }
{
    let most = MAX_LON;
    let lat = lat(place);
    i32x16::from_array([
        most, lat, most, lat, most, lat, most, lat, most, lat, most, lat, most, lat, most, lat,
    ])
}
