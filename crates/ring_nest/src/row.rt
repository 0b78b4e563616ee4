//! Edges that go over a slab of latitudes, and how many of them pass a place on its east side.
ghost use Rattle.std.specs.Prelude.{◌≡◌, ◌<◌, ◌≤◌, ◌∷◌, true, length, count_by, ℕ};
ghost use Rattle.std.specs.List.{AllByRecursion};
ghost use Rattle.ring_nest.specs.Edges.{AreWest, IsRow, Spans, passes as passes_place};

use crate::band::Band;
use crate::edge::Edge;
use crate::edges::{halfway, is_west, passes};
use crate::spot::Spot;
use std::cmp::OrderedFloat;

/// Edges that all go over a slab of latitudes.
#[derive(Drop)]
pub(crate) struct Row {
    pub(crate) edges: Vec<Edge>,
    /// Whether they stand from west to east. Where edges cross, no order of them does.
    is_ordered: bool,
}

/// Whether an edge is west of the first of those behind it.
fn is_west_of_next(band: Band, edge: &Edge, behind: &[Edge]) -> bool
    requires edge { Spans band.low band.high edge.now }
    requires behind { AllByRecursion (Spans band.low band.high) behind.now }
    ensures west { result ≡ true → AreWest behind.now → AreWest (edge.now ∷ behind.now) }
{
    match behind {
        [] => true,
        [next, ..] => is_west(edge, next),
    }
}

/// Whether the edges of a slab stand from west to east.
pub(crate) fn are_west(band: Band, edges: &[Edge]) -> bool
    requires edges { AllByRecursion (Spans band.low band.high) edges.now }
    ensures west { result ≡ true → AreWest edges.now }
{
    let mut rest = edges;
    while let [edge, behind @ ..] = rest {
        if !is_west_of_next(band, edge, behind) {
            return false;
        }
        rest = behind;
    }
    true
}

/// How many edges pass a place of their slab strictly east of it, where they stand from west to east: those behind the last that does not.
fn count_ordered(low: u32, high: u32, edges: &[Edge], spot: Spot) -> usize
    requires edges { AllByRecursion (Spans low high) edges.now }
    requires west { AreWest edges.now }
    requires north { low ≤ spot.north × spot.north < high }
    ensures count { result ≡ count_by (passes_place spot.north spot.east) edges.now }
{
    let mut first = 0;
    let mut last = edges.len();
    while first < last {
        let middle = first + (last - first) / 2;
        if passes(spot, &edges[middle]) {
            last = middle;
        } else {
            first = middle + 1;
        }
    }
    edges.len() - first
}

/// How many edges pass a place strictly east of it.
pub(crate) fn count_each(edges: &[Edge], spot: Spot) -> usize
    ensures count { result ≡ count_by (passes_place spot.north spot.east) edges.now }
{
    let mut count = 0;
    for edge in edges {
        if passes(spot, edge) {
            count += 1;
        }
    }
    count
}

/// The row of edges that go over a slab.
pub(crate) fn band_row(band: Band, edges: Vec<Edge>) -> Row
    requires edges { AllByRecursion (Spans band.low band.high) edges.items }
    ensures row { IsRow band.low band.high result }
    ensures len { length result.edges.items ≡ length edges.items }
    ensures count { (north east : ℕ) → count_by (passes_place north east) result.edges.items ≡ count_by (passes_place north east) edges.items }
{
    let mut edges = edges;
    edges.sort_unstable_by_key(|edge: &Edge| OrderedFloat(halfway(band.low, band.high, edge)));
    let is_ordered = are_west(band, &edges);
    Row { edges, is_ordered }
}

impl Row {
    /// How many of its edges pass a place of its slab strictly east of it.
    pub(crate) fn count(&self, low: u32, high: u32, spot: Spot) -> usize
        requires row { IsRow low high self.now }
        requires north { low ≤ spot.north × spot.north < high }
        ensures count { result ≡ count_by (passes_place spot.north spot.east) self.now.edges.items }
    {
        if self.is_ordered {
            count_ordered(low, high, &self.edges, spot)
        } else {
            count_each(&self.edges, spot)
        }
    }

    /// Whether its edges are found by halving, or are no more than these.
    pub(crate) fn is_quick(&self, few: usize) -> bool {
        self.is_ordered || self.edges.len() <= few
    }
}
