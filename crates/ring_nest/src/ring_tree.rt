//! Rings with a tree of all of them.
ghost use Rattle.ring_nest.specs.Holders.{HoldsAll, HoldsAll-prop};

use crate::tree::Tree;
use osm_base::Places;

/// Closed rings of the world, and a tree of their boxes.
#[derive(Clone, Copy)]
pub(crate) struct RingTree<'r> {
    pub(crate) rings: &'r [Places],
    pub(crate) root: &'r Tree,
    ghost whole: { HoldsAll rings.now root.now } by { HoldsAll-prop rings.now root.now },
}
