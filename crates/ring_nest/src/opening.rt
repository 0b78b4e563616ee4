//! Rings that any half line enters as often as it leaves them, or once more.
ghost use Rattle.std.specs.Prelude.{◌≡◌, ◌<◌, ◌+◌, true, IfOk};
ghost use Rattle.std.specs.List.{AllByRecursion, filter};
ghost use Rattle.ring_nest.specs.Edges.{Spans};
ghost use Rattle.ring_nest.specs.Opening.{OpensIn, overlaps as overlaps_slab, woven};

use crate::band::Band;
use crate::edge::Edge;
use crate::edges::spans;
use crate::row::{are_west, band_row};
use crate::slabs::middle_of;
use osm_base::OutOfMemory;
use std::alloc::Global;

/// Edges of both sides, one after another.
fn weave(alloc: Global, minus: &[Edge], plus: &[Edge]) -> Result<Vec<Edge>, OutOfMemory>
    ensures { IfOk result (λ edges. edges.items ≡ woven minus.now plus.now) }
{
    let mut edges = Vec::with_capacity(alloc, minus.len())?;
    let mut first = minus;
    let mut second = plus;
    while let [edge, minus_rest @ ..] = first {
        let [next, plus_rest @ ..] = second else {
            edges.extend_from_slice(first)?;
            return Ok(edges);
        };
        edges.push(*edge)?;
        edges.push(*next)?;
        first = minus_rest;
        second = plus_rest;
    }
    edges.extend_from_slice(second)?;
    Ok(edges)
}

/// Whether all edges go over a slab.
fn all_span(low: u32, high: u32, edges: &[Edge]) -> bool
    ensures { result ≡ true → AllByRecursion (Spans low high) edges.now }
{
    let mut rest = edges;
    while let [edge, behind @ ..] = rest {
        if !spans(low, high, edge) {
            return false;
        }
        rest = behind;
    }
    true
}

/// The edges that have some of the latitudes between two others.
fn overlapping(alloc: Global, low: u32, high: u32, edges: &[Edge]) -> Result<Vec<Edge>, OutOfMemory>
    ensures { IfOk result (λ found. found.items ≡ filter (overlaps_slab low high) edges.now) }
{
    let mut found = Vec::new(alloc);
    for edge in edges {
        if low < edge.high && edge.low < high {
            found.push(*edge)?;
        }
    }
    Ok(found)
}

/// Whether edges that go over a slab stand on the one side and on the other in turn, from west to east.
fn open_across(
    alloc: Global,
    band: Band,
    minus: &[Edge],
    plus: &[Edge],
) -> Result<bool, OutOfMemory>
    requires minus { AllByRecursion (Spans band.low band.high) minus.now }
    requires plus { AllByRecursion (Spans band.low band.high) plus.now }
    ensures opens { IfOk result (λ yes. yes ≡ true → OpensIn band.low band.high minus.now plus.now) }
{
    if minus.len() != plus.len() {
        return Ok(false);
    }
    let minus = band_row(band, Vec::from_slice(alloc, minus)?);
    let plus = band_row(band, Vec::from_slice(alloc, plus)?);
    let edges = weave(alloc, &minus.edges, &plus.edges)?;
    Ok(are_west(band, &edges))
}

/// The latitude at which a slab is halved.
fn middle_of_both(
    alloc: Global,
    low: u32,
    high: u32,
    minus: &[Edge],
    plus: &[Edge],
) -> Result<u32, OutOfMemory>
    requires slab { low + 1 < high }
    ensures within { IfOk result (λ middle. low < middle × middle < high) }
{
    let mut edges = Vec::new(alloc);
    edges.extend_from_slice(minus)?;
    edges.extend_from_slice(plus)?;
    middle_of(alloc, low, high, &edges)
}

/// Whether all edges of both sides go over a slab.
fn both_span(low: u32, high: u32, minus: &[Edge], plus: &[Edge]) -> bool
    ensures minus { result ≡ true → AllByRecursion (Spans low high) minus.now }
    ensures plus { result ≡ true → AllByRecursion (Spans low high) plus.now }
{
    all_span(low, high, minus) && all_span(low, high, plus)
}

/// Whether any half line between two latitudes passes as many edges on the one side as on the other, or one more there. It says no where that
/// would take more looks at edges than `left`.
pub(crate) fn opens_in(
    alloc: Global,
    band: Band,
    minus: &[Edge],
    plus: &[Edge],
    left: &mut usize,
) -> Result<bool, OutOfMemory>
    ensures opens { IfOk result (λ yes. yes ≡ true → OpensIn band.low band.high minus.now plus.now) }
{
    let low = band.low;
    let high = band.high;
    let some = minus.len().saturating_add(plus.len());
    if some == 0 {
        return Ok(true);
    }
    if both_span(low, high, minus, plus) {
        return open_across(alloc, band, minus, plus);
    }
    if high - low < 2 || *left < some {
        return Ok(false);
    }
    *left -= some;
    let middle = middle_of_both(alloc, low, high, minus, plus)?;
    let south_minus = overlapping(alloc, low, middle, minus)?;
    let south_plus = overlapping(alloc, low, middle, plus)?;
    let south = Band { low, high: middle };
    if !opens_in(alloc, south, &south_minus, &south_plus, left)? {
        return Ok(false);
    }
    let north_minus = overlapping(alloc, middle, high, minus)?;
    let north_plus = overlapping(alloc, middle, high, plus)?;
    let north = Band { low: middle, high };
    let opens = opens_in(alloc, north, &north_minus, &north_plus, left)?;
    Ok(opens)
}
