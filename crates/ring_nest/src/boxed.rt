//! Rings with their boxes.
ghost use Rattle.std.specs.Prelude.{◌≡◌, map};
ghost use Rattle.std.proofs.Props.{props};
ghost use Rattle.std.specs.List.{AllByRecursion};
ghost use Rattle.ring_nest.specs.Around.{IsBoxed, around};

use osm_base::{GeoBox, Places};

/// Closed rings of the world, and the box of each.
#[derive(Clone, Copy)]
pub(crate) struct BoxedRings<'r> {
    pub(crate) rings: &'r [Places],
    pub(crate) boxes: &'r [GeoBox],
    ghost own: { boxes.now ≡ map around rings.now },
    ghost boxed: { AllByRecursion IsBoxed rings.now } by { Prim.hlevel props },
}
