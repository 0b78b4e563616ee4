//! Edges by slabs of latitudes: how many of them pass a place is found by few steps, however many there are.
ghost use Rattle.std.specs.Prelude.{◌≡◌, ◌<◌, ◌≤◌, ◌+◌, IfOk};
ghost use Rattle.std.specs.List.{filter};
ghost use Rattle.ring_nest.specs.Slabs.{AreSlabs, Counts, count_in, is_across, is_north, is_south};

use crate::band::Band;
use crate::edge::Edge;
use crate::edges::spans;
use crate::row::{Row, band_row, count_each};
use crate::spot::Spot;
use osm_base::OutOfMemory;
use std::alloc::Global;

/// So few edges are asked one by one.
const FEW: usize = 16;

/// How many edges of a slab may cross.
const CROSSING: usize = 64;

/// Edges by slabs.
#[derive(Drop)]
pub(crate) enum Slabs {
    /// A few, in no order.
    Few(Vec<Edge>),
    /// Those that go over the whole of a slab, and the others by its halves, south and north of a latitude.
    Slab(Row, u32, Box<Slabs>, Box<Slabs>),
}

/// How many edges pass a place strictly east of it.
pub(crate) fn count(slabs: &Slabs, low: u32, high: u32, spot: Spot) -> u64
    requires slabs { AreSlabs low high slabs.now }
    requires north { low ≤ spot.north × spot.north < high }
    requires few { count_in slabs.now spot.north spot.east < 18446744073709551616 }
    ensures count { result ≡ count_in slabs.now spot.north spot.east }
{
    match slabs {
        Slabs::Few(edges) => count_each(edges, spot) as u64,
        Slabs::Slab(row, middle, south, upper) => {
            let here = row.count(low, high, spot) as u64;
            if spot.north < *middle {
                here + count(south, low, *middle, spot)
            } else {
                here + count(upper, *middle, high, spot)
            }
        }
    }
}

/// The edges that go over the whole of a slab.
fn across(alloc: Global, low: u32, high: u32, edges: &[Edge]) -> Result<Vec<Edge>, OutOfMemory>
    ensures edges { IfOk result (λ found. found.items ≡ filter (is_across low high) edges.now) }
{
    let mut found = Vec::new(alloc);
    for edge in edges {
        if spans(low, high, edge) {
            found.push(*edge)?;
        }
    }
    found.shrink_to_fit();
    Ok(found)
}

/// The edges that go over a part of a slab, and over some of its south half.
fn south_of(
    alloc: Global,
    low: u32,
    middle: u32,
    high: u32,
    edges: &[Edge],
) -> Result<Vec<Edge>, OutOfMemory>
    ensures edges { IfOk result (λ found. found.items ≡ filter (is_south low middle high) edges.now) }
{
    let mut found = Vec::new(alloc);
    for edge in edges {
        if !spans(low, high, edge) && (low < edge.high && edge.low < middle) {
            found.push(*edge)?;
        }
    }
    Ok(found)
}

/// The edges that go over a part of a slab, and over some of its north half.
fn north_of(
    alloc: Global,
    low: u32,
    middle: u32,
    high: u32,
    edges: &[Edge],
) -> Result<Vec<Edge>, OutOfMemory>
    ensures edges { IfOk result (λ found. found.items ≡ filter (is_north low middle high) edges.now) }
{
    let mut found = Vec::new(alloc);
    for edge in edges {
        if !spans(low, high, edge) && (middle < edge.high && edge.low < high) {
            found.push(*edge)?;
        }
    }
    Ok(found)
}

/// The latitude at which a slab is halved: one in the middle of the ends of edges that it has, where there are some.
pub(crate) fn middle_of(
    alloc: Global,
    low: u32,
    high: u32,
    edges: &[Edge],
) -> Result<u32, OutOfMemory>
    requires slab { low + 1 < high }
    ensures within { IfOk result (λ middle. low < middle × middle < high) }
{
    let mut ends = Vec::new(alloc);
    for edge in edges {
        if low < edge.low && edge.low < high {
            ends.push(edge.low)?;
        }
        if low < edge.high && edge.high < high {
            ends.push(edge.high)?;
        }
    }
    let half = ends.len() / 2;
    let middle = if half < ends.len() {
        let (_, middle, _) = ends.select_nth_unstable(half);
        *middle
    } else {
        low
    };
    if low < middle && middle < high {
        Ok(middle)
    } else {
        Ok(low + 1)
    }
}

/// Edges by slabs, between two latitudes.
pub(crate) fn slabs_of(
    alloc: Global,
    band: Band,
    mut edges: Vec<Edge>,
) -> Result<Slabs, OutOfMemory>
    ensures slabs { IfOk result (AreSlabs band.low band.high) }
    ensures counts { IfOk result (Counts band.low band.high edges.items) }
{
    let low = band.low;
    let high = band.high;
    if edges.len() <= FEW {
        edges.shrink_to_fit();
        return Ok(Slabs::Few(edges));
    }
    let row = band_row(band, across(alloc, low, high, &edges)?);
    if high - low < 2 {
        return Ok(Slabs::Slab(
            row,
            high,
            Box::new(alloc, Slabs::Few(Vec::new(alloc)))?,
            Box::new(alloc, Slabs::Few(Vec::new(alloc)))?,
        ));
    }
    let middle = middle_of(alloc, low, high, &edges)?;
    let south = south_of(alloc, low, middle, high, &edges)?;
    let north = north_of(alloc, low, middle, high, &edges)?;
    drop(edges);
    let south = slabs_of(alloc, Band { low, high: middle }, south)?;
    let north = slabs_of(alloc, Band { low: middle, high }, north)?;
    Ok(Slabs::Slab(
        row,
        middle,
        Box::new(alloc, south)?,
        Box::new(alloc, north)?,
    ))
}

/// Whether a count asks few edges one by one: whether no slab has many edges that cross.
pub(crate) fn are_quick(slabs: &Slabs) -> bool {
    match slabs {
        Slabs::Few(_) => true,
        Slabs::Slab(row, _, south, upper) => {
            row.is_quick(CROSSING) && are_quick(south) && are_quick(upper)
        }
    }
}
