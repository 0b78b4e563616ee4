//! One segment and one place, exact in whole numbers.
ghost use Rattle.std.specs.Prelude.{◌≡◌, ◌&&◌};
ghost use Rattle.lanes_geo.specs.Crossing.{Segment, across as across_of, along as along_of};
ghost use Rattle.lanes_geo.specs.Nesting.{are_equal, is_between as is_between_both, lies_within};

use lanes_geo::{across, along};
use osm_base::Place;

/// Whether a number lies between two others, in whichever order they are.
fn is_between(first: i32, last: i32, number: i32) -> bool
    ensures { result ≡ is_between_both first last number }
{
    (first <= number) & (number <= last) | (last <= number) & (number <= first)
}

/// Whether a place lies on the line of a segment.
fn is_in_line(start: Place, end: Place, place: Place) -> bool
    ensures { result ≡ are_equal (across_of place (record { start = start; end = end })) (along_of place (record { start = start; end = end })) }
{
    let across = across(start, end, place);
    let along = along(start, end, place);
    (across <= along) & (along <= across)
}

/// Whether the longitude of a place lies between those of a segment's ends.
fn is_across(start: Place, end: Place, place: Place) -> bool
    ensures { result ≡ is_between_both start.lon end.lon place.lon }
{
    is_between(start.lon, end.lon, place.lon)
}

/// Whether the latitude of a place lies between those of a segment's ends.
fn is_along(start: Place, end: Place, place: Place) -> bool
    ensures { result ≡ is_between_both start.lat end.lat place.lat }
{
    is_between(start.lat, end.lat, place.lat)
}

/// Whether a place lies on a segment, its ends included.
pub(crate) fn lies_within_segment(start: Place, end: Place, place: Place) -> bool
    ensures { result ≡ lies_within place (record { start = start; end = end }) }
{
    if is_across(start, end, place) & is_along(start, end, place) {
        is_in_line(start, end, place)
    } else {
        false
    }
}
