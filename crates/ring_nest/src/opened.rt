//! The rings that open, of several.
ghost use Rattle.std.specs.Prelude.{[], ◌∷◌, ◌++◌, IfOk, IfSome, List, OnOk};
ghost use Rattle.std.specs.List.{AllByRecursion};
ghost use Rattle.lanes_geo.specs.Grid.{IsPlace};
ghost use Rattle.lanes_geo.specs.Nesting.{Ring};
ghost use Rattle.ring_nest.specs.Around.{IsBoxed};
ghost use Rattle.ring_nest.specs.Opened.{AreMeasured, IsMeasured};

use crate::band::Band;
use crate::edge::Edge;
use crate::opening::opens_in;
use crate::ring_edges::{falling, rising};
use osm_base::{OutOfMemory, Place, Places};
use std::alloc::Global;

/// Above each latitude.
pub(crate) const TOP: u32 = 1_800_000_001;

/// How often an edge is looked at, on an average, before a ring is no more asked whether it opens.
const LOOKS: usize = 64;

/// The edges of rings that open, on both sides, and whether each ring is one of them.
#[derive(Drop)]
pub(crate) struct Opened {
    pub(crate) minus: Vec<Edge>,
    pub(crate) plus: Vec<Edge>,
    pub(crate) marks: Vec<bool>,
}

/// The edges of a ring on both sides, where it opens.
fn sides_of(alloc: Global, ring: &[Place]) -> Result<Option<(Vec<Edge>, Vec<Edge>)>, OutOfMemory>
    requires places { AllByRecursion IsPlace ring.now }
    ensures sides { IfOk result (λ sides. IfSome sides (λ (minus, plus). IsMeasured ring.now minus.items plus.items)) }
{
    let all = Band { low: 0, high: TOP };
    let up = rising(alloc, ring)?;
    let down = falling(alloc, ring)?;
    let mut left = ring.len().saturating_mul(LOOKS);
    if opens_in(alloc, all, &down, &up, &mut left)? {
        return Ok(Some((down, up)));
    }
    let mut left = ring.len().saturating_mul(LOOKS);
    if opens_in(alloc, all, &up, &down, &mut left)? {
        return Ok(Some((up, down)));
    }
    Ok(None)
}

/// Adds a ring to those before it.
fn add_ring(alloc: Global, ring: &[Place], opened: &mut Opened) -> Result<(), OutOfMemory>
    requires places { AllByRecursion IsPlace ring.now }
    ensures measured { OnOk result ((rings : List Ring) → AreMeasured rings opened.old.marks.items opened.old.minus.items opened.old.plus.items
        → AreMeasured (rings ++ ring.now ∷ []) opened.new.marks.items opened.new.minus.items opened.new.plus.items) }
{
    match sides_of(alloc, ring)? {
        Some((minus, plus)) => {
            opened.minus.extend_from_slice(&minus)?;
            opened.plus.extend_from_slice(&plus)?;
            opened.marks.push(true)?;
            Ok(())
        }
        None => {
            opened.marks.push(false)?;
            Ok(())
        }
    }
}

/// The rings that open.
pub(crate) fn opened_of(alloc: Global, rings: &[Places]) -> Result<Opened, OutOfMemory>
    requires boxed { AllByRecursion IsBoxed rings.now }
    ensures measured { IfOk result (λ opened. AreMeasured rings.now opened.marks.items opened.minus.items opened.plus.items) }
{
    let mut opened = Opened {
        minus: Vec::new(alloc),
        plus: Vec::new(alloc),
        marks: Vec::new(alloc),
    };
    let mut at = 0;
    while rings.len() - at > 0 {
        add_ring(alloc, rings[at].as_slice(), &mut opened)?;
        at += 1;
    }
    Ok(opened)
}
