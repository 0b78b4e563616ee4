//! What is known of many rings together: the edges of those that open, the latitudes of their places, and a tree of the others.
ghost use Rattle.std.specs.Prelude.{◌≡◌, ◌+◌, length, IfOk, IfSome};
ghost use Rattle.lanes_geo.specs.Grid.{IsPlace};
ghost use Rattle.osm_base.specs.values.Place.{PlaceOf};
ghost use Rattle.ring_nest.specs.Opened.{count_at, crossings_in, odd_in};
ghost use Rattle.ring_nest.specs.Told.{AreCounted, IsKnown, counted_at, unmarked as unmarked_numbers};

use crate::band::Band;
use crate::boxed::BoxedRings;
use crate::edge::Edge;
use crate::latitudes::latitudes_of;
use crate::opened::{TOP, opened_of};
use crate::slabs::{Slabs, are_quick, slabs_of};
use crate::tree::{Tree, tree_of};
use osm_base::OutOfMemory;
use std::alloc::Global;

/// What is known of many rings together.
#[derive(Drop)]
pub(crate) struct Known {
    /// Which rings open: of these tell the next three.
    pub(crate) marks: Vec<bool>,
    pub(crate) minus: Slabs,
    pub(crate) plus: Slabs,
    pub(crate) lats: Vec<u32>,
    /// The other rings.
    pub(crate) others: Tree,
}

/// The numbers of the rings that are not marked.
fn unmarked(alloc: Global, marks: &[bool]) -> Result<Vec<usize>, OutOfMemory>
    ensures { IfOk result (λ numbers. numbers.items ≡ unmarked_numbers marks.now) }
{
    let mut numbers = Vec::new(alloc);
    for number in 0..marks.len() {
        if !marks[number] {
            numbers.push(number)?;
        }
    }
    Ok(numbers)
}

/// Edges by slabs of all latitudes.
fn by_slabs(alloc: Global, edges: Vec<Edge>) -> Result<Slabs, OutOfMemory>
    ensures are { IfOk result AreCounted }
    ensures counted { IfOk result (λ slabs. (place : PlaceOf) → IsPlace place → counted_at place slabs ≡ count_at place edges.items) }
{
    let slabs = slabs_of(alloc, Band { low: 0, high: TOP }, edges)?;
    Ok(slabs)
}

/// What is known of rings, of which some are marked.
fn known_with(
    alloc: Global,
    boxed: &BoxedRings,
    marks: Vec<bool>,
    minus: Slabs,
    plus: Slabs,
) -> Result<Known, OutOfMemory>
    requires marked { length marks.items ≡ length boxed.now.rings.now }
    requires minus { AreCounted minus }
    requires plus { AreCounted plus }
    requires inside { (place : PlaceOf) → IsPlace place → counted_at place plus ≡ counted_at place minus + odd_in place boxed.now.rings.now marks.items }
    requires crossed { (place : PlaceOf) → IsPlace place → counted_at place plus + counted_at place minus ≡ crossings_in place boxed.now.rings.now marks.items }
    ensures known { IfOk result (IsKnown boxed.now.rings.now) }
{
    let lats = latitudes_of(alloc, boxed.rings, &marks)?;
    let numbers = unmarked(alloc, &marks)?;
    let others = tree_of(alloc, boxed.boxes, numbers)?;
    Ok(Known {
        marks,
        minus,
        plus,
        lats,
        others,
    })
}

/// What is known of rings. None where too many of their edges cross for it to be of use.
pub(crate) fn known_of(alloc: Global, boxed: &BoxedRings) -> Result<Option<Known>, OutOfMemory>
    ensures known { IfOk result (λ known. IfSome known (IsKnown boxed.now.rings.now)) }
{
    let opened = opened_of(alloc, boxed.rings)?;
    let minus = by_slabs(alloc, opened.minus)?;
    let plus = by_slabs(alloc, opened.plus)?;
    if !are_quick(&minus) || !are_quick(&plus) {
        return Ok(None);
    }
    Ok(Some(known_with(alloc, boxed, opened.marks, minus, plus)?))
}
