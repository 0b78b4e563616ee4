//! The crossings of a ring by the half line east of a place: thirty-two segments are passed over at once where their
//! places are all on one side of its latitude, and are told sixteen at a time where they are not.
ghost use Rattle.std.specs.Prelude.{◌≡◌, ◌+◌, ◌≤◌, length, map, slice_range, IsTrue, unsigned_abs, int_lt, if◌then◌else◌, ◌^◌, ◌-◌, ◌-ℤ◌, ◌*ℤ◌};
ghost use Rattle.lanes_geo.specs.Crossing.{Segment, across as across_of, along as along_of, crosses, crossings, odd};
ghost use Rattle.lanes_geo.specs.Grid.{kept};
ghost use lib.Lanes.{zip2};

use crate::grid::{
    all_lanes, bounds, coordinates, east, easts, even_lanes, north, norths, odd_lanes, wide_lanes,
};
use osm_base::Place;
use std::simd::prelude::*;

/// A bit for each odd one of sixteen lanes.
const ODD_LANES: u64 = 0b1010_1010_1010_1010;

/// How far a number is above another one.
#[inline(always)]
fn difference(number: i32, other: i32) -> i64
    ensures { result ≡ number -ℤ other }
{
    i64::from(number) - i64::from(other)
}

/// The product of a difference of longitudes and one of latitudes.
#[inline(always)]
fn product(lon: i64, lat: i64) -> i64
    requires lon { unsigned_abs lon ≤ 3600000000 }
    requires lat { unsigned_abs lat ≤ 1800000000 }
    ensures { result ≡ lon *ℤ lat }
{
    lon * lat
}

/// How far a place is east of the start of a segment, times the segment's height, in units of 1e-7 degree squared.
#[inline(always)]
pub fn across(start: Place, end: Place, place: Place) -> i64
    ensures { result ≡ across_of place (record { start = start; end = end }) }
{
    product(
        difference(place.lon, start.lon),
        difference(end.lat, start.lat),
    )
}

/// The width of a segment, times how far a place is north of its start. It is `across` where the place lies in line
/// with the segment.
#[inline(always)]
pub fn along(start: Place, end: Place, place: Place) -> i64
    ensures { result ≡ along_of place (record { start = start; end = end }) }
{
    product(
        difference(end.lon, start.lon),
        difference(place.lat, start.lat),
    )
}

/// Whether a place is south of another one.
#[inline(always)]
fn is_south(place: Place, other: Place) -> bool
    ensures { result ≡ int_lt place.lat other.lat }
{
    place.lat < other.lat
}

/// Whether a segment crosses the latitude of a place strictly east of it.
#[inline(always)]
fn is_crossed(start: Place, end: Place, place: Place) -> bool
    ensures { result ≡ crosses place (record { start = start; end = end }) }
{
    if is_south(place, start) == is_south(place, end) {
        return false;
    }
    let across = across(start, end, place);
    let along = along(start, end, place);
    if is_south(start, end) {
        across < along
    } else {
        along < across
    }
}

/// How far the starts and the ends of sixteen segments are from a latitude, and 0 where both are north of it, or none.
#[inline(always)]
fn distances(starts: u32x16, ends: u32x16, here: u32) -> (u32x16, u32x16)
    requires { length starts ≡ 16 × length ends ≡ 16 }
    ensures from { result.0 ≡ zip2 (λ start end. kept here start end start) starts ends }
    ensures to { result.1 ≡ zip2 (λ start end. kept here start end end) starts ends }
    ensures lanes { length result.0 ≡ 16 × length result.1 ≡ 16 }
{
    let heres = all_lanes(here);
    let zeros = all_lanes(0);
    let straddles = starts.simd_gt(heres) ^ ends.simd_gt(heres);
    let from = straddles.select(starts.abs_diff(heres), zeros);
    let to = straddles.select(ends.abs_diff(heres), zeros);
    (from, to)
}

/// How many of the sixteen segments from `at` on cross the latitude of a place strictly east of it. Where a segment
/// does not straddle the latitude, its ends count as 0 away from it, and no product is above another.
#[inline(always)]
fn crossings_in(ring: &[Place], at: usize, place: Place) -> usize
    requires { at + 17 ≤ length ring.now }
    ensures { result ≡ crossings (slice_range ring.now at (at + 17)) place }
{
    let (from, to) = distances(norths(ring, at), norths(ring, at + 1), north(place));
    let both = from + to;
    let start_easts = easts(ring, at);
    let end_easts = easts(ring, at + 1);
    let east = wide_lanes(east(place));
    let even_sums = even_lanes(from) * even_lanes(end_easts)
        + even_lanes(to) * even_lanes(start_easts);
    let odd_sums = odd_lanes(from) * odd_lanes(end_easts) + odd_lanes(to) * odd_lanes(start_easts);
    let even = (east * even_lanes(both)).simd_lt(even_sums).to_bitmask();
    let odd = (east * odd_lanes(both)).simd_lt(odd_sums).to_bitmask();
    even.count_ones() as usize + odd.count_ones() as usize
}

/// Whether the places from `at` on up to the thirty-third are all north of a place, or all not. Then none of the
/// segments between them crosses its latitude.
#[inline(always)]
fn is_level(ring: &[Place], at: usize, place: Place) -> bool
    requires { at + 33 ≤ length ring.now }
    ensures { IsTrue result → crossings (slice_range ring.now at (at + 33)) place ≡ 0 }
{
    let bounds = bounds(place);
    let first = coordinates(ring, at).simd_gt(bounds);
    let second = coordinates(ring, at + 8).simd_gt(bounds);
    let third = coordinates(ring, at + 16).simd_gt(bounds);
    let fourth = coordinates(ring, at + 24).simd_gt(bounds);
    if is_south(place, ring[at + 32]) {
        (first & second & third & fourth).to_bitmask() == ODD_LANES
    } else {
        (first | second | third | fourth).to_bitmask() == 0
    }
}

/// How many of the thirty-two segments from `at` on cross the latitude of a place strictly east of it, and at once
/// where their places are all on one side of it.
#[inline(always)]
fn crossings_at(ring: &[Place], at: usize, place: Place) -> usize
    requires { at + 33 ≤ length ring.now }
    ensures { result ≡ crossings (slice_range ring.now at (at + 33)) place }
{
    if is_level(ring, at, place) {
        0
    } else {
        crossings_in(ring, at, place) + crossings_in(ring, at + 16, place)
    }
}

/// One for a test that holds.
#[inline(always)]
fn one_if(test: bool) -> usize
    ensures { result ≡ (if test then 1 else 0) }
{
    if test { 1 } else { 0 }
}

/// How many segments of a ring cross the latitude of a place strictly east of it, one after the other.
fn plain_crossings(ring: &[Place], place: Place) -> usize
    ensures { result ≡ crossings ring.now place }
{
    let mut at = 0;
    let mut count = 0;
    while ring.len() - at > 1 {
        count += one_if(is_crossed(ring[at], ring[at + 1], place));
        at += 1;
    }
    count
}

// Inlined into a loop over places it would share its registers with that loop, and takes a fifth more time.
/// How many of a ring's segments cross the latitude of a place strictly east of it.
#[inline(never)]
pub fn crossings_of(ring: &[Place], place: Place) -> usize
    ensures { result ≡ crossings ring.now place }
{
    let mut at = 0;
    let mut count = 0;
    while ring.len() - at > 32 {
        count += crossings_at(ring, at, place);
        at += 32;
    }
    let (_, rest) = ring.split_at(at);
    count + plain_crossings(rest, place)
}

/// Whether they are odd in number.
pub fn odd_crossings(ring: &[Place], place: Place) -> bool
    ensures { result ≡ odd ring.now place }
{
    crossings_of(ring, place) % 2 == 1
}
