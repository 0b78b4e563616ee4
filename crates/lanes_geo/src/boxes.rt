//! Boxes of longitudes and latitudes, four at a time.
ghost use Rattle.std.specs.Prelude.{◌≡◌, ◌+◌, ◌++◌, ◌≤◌, FitsSigned, slice_index_or, take, ◌%◌, ◌==◌, ◌&&◌, length, map, nat_le, int_le};
ghost use lib.Lanes.{chunk, mask_l, zip2};
ghost use mir.Syntax.{w32};
ghost use Rattle.lanes_geo.specs.Box.{meets, overlap};
ghost use Rattle.lanes_geo.specs.Grid.{FitBox, raised, side_lanes, least_lanes, most_lanes, sixteen};

use osm_base::GeoBox;
use std::simd::prelude::*;

/// A number with its order kept, from 0 on.
#[inline(always)]
fn raise(number: i32) -> u32
    ensures raised { result ≡ raised number }
    ensures fits { FitsSigned w32 number }
{
    (i64::from(number) + 2_147_483_648) as u32
}

/// The sides of four boxes, box by box.
#[inline(always)]
fn sides(first: GeoBox, second: GeoBox, third: GeoBox, fourth: GeoBox) -> u32x16
    ensures sides { result ≡ side_lanes first ++ (side_lanes second ++ (side_lanes third ++ side_lanes fourth)) }
    ensures fits { FitBox first × FitBox second × FitBox third × FitBox fourth }
{
    u32x16::from_array([
        raise(first.west),
        raise(first.south),
        raise(first.east),
        raise(first.north),
        raise(second.west),
        raise(second.south),
        raise(second.east),
        raise(second.north),
        raise(third.west),
        raise(third.south),
        raise(third.east),
        raise(third.north),
        raise(fourth.west),
        raise(fourth.south),
        raise(fourth.east),
        raise(fourth.north),
    ])
}

/// What the sides of a box that meets this one are not below.
#[inline(always)]
fn least_sides(asked: GeoBox) -> u32x16
    ensures lanes { result ≡ sixteen (least_lanes asked) }
    ensures fits { FitsSigned w32 asked.west × FitsSigned w32 asked.south }
{
    let west = raise(asked.west);
    let south = raise(asked.south);
    u32x16::from_array([
        0, 0, west, south, 0, 0, west, south, 0, 0, west, south, 0, 0, west, south,
    ])
}

/// What the sides of a box that meets this one are not above.
#[inline(always)]
fn most_sides(asked: GeoBox) -> u32x16
    ensures lanes { result ≡ sixteen (most_lanes asked) }
    ensures fits { FitsSigned w32 asked.east × FitsSigned w32 asked.north }
{
    let east = raise(asked.east);
    let north = raise(asked.north);
    let most = u32::MAX;
    u32x16::from_array([
        east, north, most, most, east, north, most, most, east, north, most, most, east, north,
        most, most,
    ])
}

/// A bit for each side that is not below the least and not above the most.
#[inline(always)]
fn sides_between(sides: u32x16, least: u32x16, most: u32x16) -> u64
    requires { length sides ≡ 16 × length least ≡ 16 × length most ≡ 16 }
    ensures { result ≡ mask_l (zip2 (λ a b. a && b) (zip2 nat_le least sides) (zip2 nat_le sides most)) }
{
    (sides.simd_ge(least) & sides.simd_le(most)).to_bitmask()
}

/// Whether two spans, their ends included, have a number in common.
#[inline(always)]
fn is_overlap(low: i32, high: i32, other_low: i32, other_high: i32) -> bool
    ensures { result ≡ overlap low high other_low other_high }
{
    other_low <= high && low <= other_high
}

/// Whether two boxes have a place in common, their sides included: `boxes_meet` of one box.
#[inline(always)]
pub fn is_met(asked: GeoBox, other: GeoBox) -> bool
    ensures { result ≡ meets asked other }
{
    let across = is_overlap(asked.west, asked.east, other.west, other.east);
    let along = is_overlap(asked.south, asked.north, other.south, other.north);
    across & along
}

/// Whether the lowest four bits are all set.
#[inline(always)]
fn all_four(bits: u64) -> bool
    ensures { result ≡ (bits % 16 == 15) }
{
    bits % 16 == 15
}

/// The box at a place in the list.
#[inline(always)]
fn box_at(boxes: &[GeoBox], at: usize) -> GeoBox
    requires { at + 1 ≤ length boxes.now }
    ensures { result ≡ slice_index_or boxes.now at result }
{
    boxes[at]
}

/// Marks which of the four boxes from `at` on have a place in common with the asked one.
#[inline(always)]
fn mark_four(
    boxes: &[GeoBox],
    at: usize,
    asked: GeoBox,
    least: u32x16,
    most: u32x16,
    mask: &mut [bool],
)
    requires room { at + 4 ≤ length boxes.now }
    requires same_length { length boxes.now ≡ length mask.old }
    requires fits { FitBox asked }
    requires least { least ≡ sixteen (least_lanes asked) }
    requires most { most ≡ sixteen (most_lanes asked) }
    ensures { take (at + 4) mask.new ≡ take at mask.old ++ map (meets asked) (chunk at 4 boxes.now) }
{
    let first = box_at(boxes, at);
    let second = box_at(boxes, at + 1);
    let third = box_at(boxes, at + 2);
    let fourth = box_at(boxes, at + 3);
    let sides = sides(first, second, third, fourth);
    let bits = sides_between(sides, least, most);
    mask[at] = all_four(bits);
    mask[at + 1] = all_four(bits / 16);
    mask[at + 2] = all_four(bits / 16 / 16);
    mask[at + 3] = all_four(bits / 16 / 16 / 16);
}

/// Marks the boxes that have a place in common with the asked one, their sides included.
pub fn boxes_meet(boxes: &[GeoBox], asked: GeoBox, mask: &mut [bool])
    requires same_length { length boxes.now ≡ length mask.old }
    ensures marked { mask.new ≡ map (meets asked) boxes.now }
{
    let least = least_sides(asked);
    let most = most_sides(asked);
    let mut at = 0;
    'fours: while boxes.len() - at > 3 {
        mark_four(boxes, at, asked, least, most, mask);
        at += 4;
    }
    'rest: while boxes.len() - at > 0 {
        mask[at] = is_met(asked, boxes[at]);
        at += 1;
    }
}
