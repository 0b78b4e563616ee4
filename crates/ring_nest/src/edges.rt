//! Edges of rings, by natural numbers.
ghost use Rattle.std.specs.Prelude.{◌≡◌, ◌<◌, ◌≤◌, max, min, true};
ghost use Rattle.ring_nest.specs.Edges.{IsWest, IsWestAt, edge_share, own_share, passes, spans as spans_slab, straddles};

use crate::edge::Edge;
use crate::spot::Spot;

/// Whether an edge has a latitude, its north end left out.
#[inline(always)]
fn straddles(north: u32, edge: &Edge) -> bool
    ensures { result ≡ straddles north edge.now }
{
    edge.low <= north && north < edge.high
}

/// A place's share of the two products whose order says on which side of an edge it is.
#[inline(always)]
fn own_share(east: u32, edge: &Edge) -> u64
    requires east { east ≤ 3600000000 }
    ensures { result ≡ own_share east edge.now }
{
    u64::from(east) * u64::from(edge.high - edge.low)
}

/// The edge's share.
#[inline(always)]
fn edge_share(north: u32, edge: &Edge) -> u64
    requires from { edge.now.low ≤ north }
    requires to { north ≤ edge.now.high }
    ensures { result ≡ edge_share north edge.now }
{
    u64::from(north - edge.low) * u64::from(edge.at_high)
        + u64::from(edge.high - north) * u64::from(edge.at_low)
}

/// Whether an edge passes a place strictly east of it.
#[inline(always)]
pub(crate) fn passes(spot: Spot, edge: &Edge) -> bool
    ensures { result ≡ passes spot.north spot.east edge.now }
{
    straddles(spot.north, edge) && own_share(spot.east, edge) < edge_share(spot.north, edge)
}

/// Whether the one edge is not east of the other at the south end of the latitudes that they have in common.
fn is_west_below(one: &Edge, other: &Edge) -> bool
    requires common { one.now.low < other.now.high × other.now.low < one.now.high }
    ensures west { result ≡ true → IsWestAt (max one.now.low other.now.low) one.now other.now }
{
    if other.low <= one.low {
        own_share(one.at_low, other) <= edge_share(one.low, other)
    } else {
        edge_share(other.low, one) <= own_share(other.at_low, one)
    }
}

/// Whether the one edge is not east of the other at the north end of the latitudes that they have in common.
fn is_west_above(one: &Edge, other: &Edge) -> bool
    requires common { one.now.low < other.now.high × other.now.low < one.now.high }
    ensures west { result ≡ true → IsWestAt (min one.now.high other.now.high) one.now other.now }
{
    if one.high <= other.high {
        own_share(one.at_high, other) <= edge_share(one.high, other)
    } else {
        edge_share(other.high, one) <= own_share(other.at_high, one)
    }
}

/// Whether whatever place the one edge passes on its east side the other one passes too: it is not east of that at either end of the
/// latitudes that they have in common.
pub(crate) fn is_west(one: &Edge, other: &Edge) -> bool
    requires common { one.now.low < other.now.high × other.now.low < one.now.high }
    ensures west { result ≡ true → IsWest one.now other.now }
{
    is_west_below(one, other) && is_west_above(one, other)
}

/// Where an edge is halfway between two latitudes, but for rounding: its order among edges that do not cross.
pub(crate) fn halfway(low: u32, high: u32, edge: &Edge) -> f64 {
    let middle = (f64::from(low) + f64::from(high)) * 0.5;
    let share = (middle - f64::from(edge.low)) / (f64::from(edge.high) - f64::from(edge.low));
    let west = f64::from(edge.at_low);
    west + (f64::from(edge.at_high) - west) * share
}

/// Whether an edge goes over a slab of latitudes.
pub(crate) fn spans(low: u32, high: u32, edge: &Edge) -> bool
    ensures { result ≡ spans_slab low high edge.now }
{
    edge.low <= low && high <= edge.high
}
