//! A place by natural numbers.
ghost use Rattle.std.specs.Prelude.{◌≡◌, ◌≤◌};
ghost use Rattle.lanes_geo.specs.Grid.{IsPlace, east_of as east_of_place, north_of as north_of_place};

use crate::ring_edges::{east_of, north_of};
use osm_base::Place;

/// How far north of the south pole and east of the antimeridian a place is.
#[derive(Clone, Copy)]
pub(crate) struct Spot {
    pub(crate) north: u32,
    pub(crate) east: u32,
    ghost around: { east ≤ 3600000000 },
}

impl Spot {
    /// The spot of a place.
    #[inline(always)]
    pub(crate) fn of(place: Place) -> Self
        ensures north { result.north ≡ north_of_place place }
        ensures east { result.east ≡ east_of_place place }
        ensures on_earth { IsPlace place }
    {
        Spot {
            north: north_of(place),
            east: east_of(place),
        }
    }
}
