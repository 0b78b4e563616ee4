//! One ring and one place, and whether a ring holds another one.
ghost use Rattle.std.specs.Prelude.{◌≡◌, true};
ghost use Rattle.lanes_geo.specs.Crossing.{odd};
ghost use Rattle.lanes_geo.specs.Nesting.{holds as holds_ring, lies_on as lies_on_ring};
ghost use Rattle.ring_nest.specs.Around.{IsBoxed, around};

use crate::boxes::box_of_place;
use crate::segment::lies_within_segment;
use lanes_geo::{is_met, odd_crossings};
use osm_base::{GeoBox, Place};

/// Whether an odd number of a ring's segments cross the latitude of a place strictly east of it.
/// For callers outside: the program does not use it.
pub fn crosses_odd(ring: &[Place], place: Place) -> bool
    ensures { result ≡ odd ring.now place }
{
    odd_crossings(ring, place)
}

/// Whether a place lies on one of a ring's segments, their ends included.
/// It is exported for callers outside.
pub fn lies_on(ring: &[Place], place: Place) -> bool
    ensures { result ≡ lies_on_ring ring.now place }
{
    let mut at = 0;
    while ring.len() - at > 1 {
        if lies_within_segment(ring[at], ring[at + 1], place) {
            return true;
        }
        at += 1;
    }
    false
}

/// Whether two places are the same.
fn is_same_place(one: Place, other: Place) -> bool
    ensures { result ≡ true → one ≡ other }
{
    (one.lon == other.lon) & (one.lat == other.lat)
}

/// Whether two rings have the same places in the same order.
fn is_same(one: &[Place], other: &[Place]) -> bool
    ensures { result ≡ true → one.now ≡ other.now }
{
    if one.len() != other.len() {
        return false;
    }
    let mut at = 0;
    while one.len() - at > 0 {
        if !is_same_place(one[at], other[at]) {
            return false;
        }
        at += 1;
    }
    true
}

/// Whether a ring holds another one. A ring does not hold itself, since all its places lie on it. A place outside its box is
/// neither on it nor within it.
pub(crate) fn holds(ring: &[Place], ring_box: GeoBox, other: &[Place]) -> bool
    requires boxed { IsBoxed ring.now }
    requires own { ring_box ≡ around ring.now }
    requires other { IsBoxed other.now }
    ensures { result ≡ holds_ring ring.now other.now }
{
    if is_same(ring, other) {
        return false;
    }
    for place in other {
        let place = *place;
        if !is_met(box_of_place(place), ring_box) {
            return false;
        }
        if !lies_on(ring, place) {
            return odd_crossings(ring, place);
        }
    }
    false
}
