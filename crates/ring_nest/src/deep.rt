//! Rings with their depths.
ghost use Rattle.std.specs.Prelude.{◌≡◌, map};
ghost use Rattle.lanes_geo.specs.Nesting.{depth};

use osm_base::Places;

/// Rings, and how many hold each.
#[derive(Clone, Copy)]
pub(crate) struct DeepRings<'r> {
    pub(crate) rings: &'r [Places],
    pub(crate) depths: &'r [usize],
    ghost own: { depths.now ≡ map (depth rings.now) rings.now },
}
