//! A ring that is asked for, among rings of which the edges tell.
ghost use Rattle.std.specs.Prelude.{◌<◌, length};
ghost use Rattle.std.proofs.Props.{props};
ghost use Rattle.std.specs.List.{AllByRecursion};
ghost use Rattle.ring_nest.specs.Around.{IsBoxed};
ghost use Rattle.ring_nest.specs.Told.{IsKnown, IsKnown-prop};

use crate::known::Known;
use osm_base::Places;

/// The number of a ring, with all rings and what is known of them.
#[derive(Clone, Copy)]
pub(crate) struct Asked<'r> {
    pub(crate) known: &'r Known,
    pub(crate) rings: &'r [Places],
    pub(crate) number: usize,
    ghost is_known: { IsKnown rings.now known.now } by { IsKnown-prop rings.now known.now },
    ghost boxed: { AllByRecursion IsBoxed rings.now } by { Prim.hlevel props },
    ghost within: { number < length rings.now },
}
