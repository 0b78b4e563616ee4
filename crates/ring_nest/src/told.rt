//! How many rings hold a ring, where that is told by the edges of all.
ghost use Rattle.std.specs.Prelude.{◌≡◌, ◌≤◌, true, IfOk, IfSome};
ghost use Rattle.lanes_geo.specs.Grid.{IsPlace, east_of as east_of_place};
ghost use Rattle.lanes_geo.specs.Nesting.{depth, ring_at};
ghost use Rattle.ring_nest.specs.Latitudes.{at_latitude};
ghost use Rattle.ring_nest.specs.Opened.{crossings_in, odd_in, sum_open};
ghost use Rattle.ring_nest.specs.Told.{Tells, AreCounted, counted_at, near, own_part, marked_holders, other_holders, westward as place_westward};

use crate::asked::Asked;
use crate::boxes::start_of;
use crate::latitudes::{count_latitude, places_at};
use crate::opened::TOP;
use crate::ring_edges::north_of;
use crate::rings::crosses_odd;
use crate::slabs::{Slabs, count};
use crate::spot::Spot;
use crate::tree::{LEAF, add_holders};
use lanes_geo::crossings_of;
use osm_base::{MAX_LON, OutOfMemory, Place};
use std::alloc::Global;

/// How many edges pass a place strictly east of it.
fn count_at(slabs: &Slabs, place: Place) -> u64
    requires slabs { AreCounted slabs.now }
    ensures { result ≡ counted_at place slabs.now }
{
    count(slabs, 0, TOP, Spot::of(place))
}

/// How often the marked rings are crossed east of a place. None where that is no number of 64 bits.
fn crossed_at(asked: &Asked, place: Place) -> Option<u64>
    ensures { IfSome result (λ crossed. crossed ≡ crossings_in place asked.now.rings.now asked.now.known.now.marks.items) }
{
    count_at(&asked.known.plus, place).checked_add(count_at(&asked.known.minus, place))
}

/// How many marked rings have a place within them.
fn inside_at(asked: &Asked, place: Place) -> u64
    ensures { result ≡ odd_in place asked.now.rings.now asked.now.known.now.marks.items }
{
    count_at(&asked.known.plus, place) - count_at(&asked.known.minus, place)
}

/// The place next to another one in the west. None where that lies on the antimeridian.
fn westward(place: Place) -> Option<Place>
    ensures { IfSome result (λ west. (west ≡ place_westward place) × (IsPlace west × 1 ≤ east_of_place place)) }
{
    if place.lon > -MAX_LON {
        Some(Place::new(place.lon - 1, place.lat))
    } else {
        None
    }
}

/// Whether no edge of another marked ring passes between a place and the one next to it in the west.
fn is_near_own(asked: &Asked, place: Place, west: Place) -> bool
    requires place { IsPlace place × 1 ≤ east_of_place place }
    requires west { (west ≡ place_westward place) × IsPlace west }
    ensures { result ≡ true → sum_open (near place) asked.now.rings.now asked.now.known.now.marks.items ≡ own_part (near place) asked.now.rings.now asked.now.known.now.marks.items asked.now.number }
{
    let Some(beside) = crossed_at(asked, west) else {
        return false;
    };
    let Some(here) = crossed_at(asked, place) else {
        return false;
    };
    let between = beside.saturating_sub(here);
    if !asked.known.marks[asked.number] {
        return between == 0;
    }
    let ring = asked.rings[asked.number].as_slice();
    let own = crossings_of(ring, west).saturating_sub(crossings_of(ring, place));
    between == own as u64
}

/// Whether no place of another marked ring has the latitude of a place.
fn is_latitude_own(asked: &Asked, north: u32) -> bool
    ensures { result ≡ true → sum_open (at_latitude north) asked.now.rings.now asked.now.known.now.marks.items ≡ own_part (at_latitude north) asked.now.rings.now asked.now.known.now.marks.items asked.now.number }
{
    let some = count_latitude(&asked.known.lats, north);
    if asked.known.marks[asked.number] {
        some == places_at(asked.rings[asked.number].as_slice(), north)
    } else {
        some == 0
    }
}

/// Whether no other marked ring goes through a place.
fn is_told(asked: &Asked, place: Place, west: Place) -> bool
    requires place { IsPlace place × 1 ≤ east_of_place place }
    requires west { (west ≡ place_westward place) × IsPlace west }
    ensures { result ≡ true → Tells asked.now.rings.now asked.now.known.now.marks.items asked.now.number place }
{
    is_latitude_own(asked, north_of(place)) && is_near_own(asked, place, west)
}

/// How many marked rings hold a ring. None where it is not told: where another one may go through the place where it begins.
fn marked_holders_of(asked: &Asked) -> Option<u64>
    ensures { IfSome result (λ some. some ≡ marked_holders asked.now.rings.now asked.now.known.now.marks.items (ring_at asked.now.rings.now asked.now.number)) }
{
    let ring = asked.rings[asked.number].as_slice();
    let [place, ..] = ring else {
        return None;
    };
    let place = *place;
    let Some(west) = westward(place) else {
        return None;
    };
    if !is_told(asked, place, west) {
        return None;
    }
    let inside = inside_at(asked, place);
    if asked.known.marks[asked.number] && crosses_odd(ring, place) {
        return Some(inside - 1);
    }
    Some(inside)
}

/// How many of the other rings hold a ring.
fn other_holders_of(
    alloc: Global,
    asked: &Asked,
    mask: &mut [bool; LEAF],
) -> Result<usize, OutOfMemory>
    ensures count { IfOk result (λ some. some ≡ other_holders asked.now.rings.now asked.now.known.now.marks.items (ring_at asked.now.rings.now asked.now.number)) }
{
    let start = start_of(asked.rings[asked.number].as_slice());
    let mut found = Vec::new(alloc);
    add_holders(
        &asked.known.others,
        asked.rings,
        asked.number,
        start,
        mask,
        &mut found,
    )?;
    Ok(found.len())
}

/// The depth of a ring, where it is told.
pub(crate) fn told_depth(
    alloc: Global,
    asked: &Asked,
    mask: &mut [bool; LEAF],
) -> Result<Option<usize>, OutOfMemory>
    ensures depth { IfOk result (λ told. IfSome told (λ some. some ≡ depth asked.now.rings.now (ring_at asked.now.rings.now asked.now.number))) }
{
    let Some(marked) = marked_holders_of(asked) else {
        return Ok(None);
    };
    let others = other_holders_of(alloc, asked, mask)?;
    Ok(others.checked_add(marked as usize))
}
