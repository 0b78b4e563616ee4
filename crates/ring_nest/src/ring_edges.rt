//! The edges of a ring.
ghost use Rattle.std.specs.Prelude.{◌≡◌, ◌<◌, ◌≤◌, IfOk};
ghost use Rattle.lanes_geo.specs.Grid.{IsPlace, east_of as east_of_place, north_of as north_of_place};
ghost use Rattle.ring_nest.specs.Edges.{edge_between as edge_between_places, falling as falling_edges, rising as rising_edges};

use crate::edge::Edge;
use osm_base::{MAX_LAT, MAX_LON, OutOfMemory, Place};
use std::alloc::Global;

/// How far north of the south pole a place is.
#[inline(always)]
pub(crate) fn north_of(place: Place) -> u32
    ensures place { result ≡ north_of_place place }
    ensures fits { result ≤ 1800000000 }
    ensures on_earth { IsPlace place }
{
    (i64::from(place.lat) + i64::from(MAX_LAT)) as u32
}

/// How far east of the antimeridian a place is.
#[inline(always)]
pub(crate) fn east_of(place: Place) -> u32
    ensures place { result ≡ east_of_place place }
    ensures fits { result ≤ 3600000000 }
{
    (i64::from(place.lon) + i64::from(MAX_LON)) as u32
}

/// The edge of a ring between two places, the first of which is south of the second.
#[inline(always)]
fn edge_between(south: Place, north: Place) -> Edge
    requires { north_of_place south < north_of_place north }
    ensures { result ≡ edge_between_places south north }
{
    Edge {
        low: north_of(south),
        high: north_of(north),
        at_low: east_of(south),
        at_high: east_of(north),
    }
}

/// The edges on which a ring goes north.
pub(crate) fn rising(alloc: Global, ring: &[Place]) -> Result<Vec<Edge>, OutOfMemory>
    ensures { IfOk result (λ edges. edges.items ≡ rising_edges ring.now) }
{
    let mut edges = Vec::new(alloc);
    let mut rest = ring;
    while let [place, next, ..] = rest {
        if north_of(*place) < north_of(*next) {
            edges.push(edge_between(*place, *next))?;
        }
        rest = &rest[1..];
    }
    Ok(edges)
}

/// The edges on which a ring goes south.
pub(crate) fn falling(alloc: Global, ring: &[Place]) -> Result<Vec<Edge>, OutOfMemory>
    ensures { IfOk result (λ edges. edges.items ≡ falling_edges ring.now) }
{
    let mut edges = Vec::new(alloc);
    let mut rest = ring;
    while let [place, next, ..] = rest {
        if north_of(*next) < north_of(*place) {
            edges.push(edge_between(*next, *place))?;
        }
        rest = &rest[1..];
    }
    Ok(edges)
}
