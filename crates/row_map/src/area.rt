//! The areas that lines bound.
ghost use Rattle.std.specs.Prelude.{◌≡◌, All, IfOk};
ghost use Rattle.std.specs.Cmp.Lexicographic.{slice_cmp};
ghost use Rattle.std.specs.Ordering.{eq_by_cmp, nat_cmp};
ghost use Rattle.std.specs.Str.{chars};
ghost use Rattle.osm_base.specs.values.Line.{IsRing};
ghost use Rattle.piece_ends.specs.Pieces.{ArePieces};
ghost use Rattle.row_rules.specs.Condition.{has_value};
ghost use Rattle.row_rules.specs.Shape as spec;

use osm_base::{Geometry, LineList, OutOfMemory, Tags};
use ring_build::rings_of;
use ring_nest::nest;
use std::alloc::Global;

/// Whether a way along these nodes bounds an area: its first and its last are the same, and it has at least four.
pub(crate) fn bounds_area(nodes: &[u64]) -> bool
    ensures bounds { result ≡ spec.bounds_area nodes.now }
{
    nodes.len() >= 4 && nodes[0] == nodes[nodes.len() - 1]
}

/// Whether two texts are the same.
fn is_same(text: &str, other: &str) -> bool
    ensures same { result ≡ eq_by_cmp (slice_cmp nat_cmp) (chars text.now) (chars other.now) }
{
    other == text
}

/// Whether the tag with a key has this value.
fn has_text(tags: &Tags, key: &str, value: &str) -> bool
    ensures value { result ≡ has_value tags.now (chars key.now) (chars value.now) }
{
    match tags.get(key) {
        Some(own) => is_same(value, own),
        None => false,
    }
}

/// Whether a relation with these tags bounds an area.
pub(crate) fn is_area(tags: &Tags) -> bool
    ensures area { result ≡ spec.is_area tags.now }
{
    has_text(tags, "type", "multipolygon") || has_text(tags, "type", "boundary")
}

/// The area that rings bound. `None`: there is none of them, or one has no place.
fn area_in(alloc: Global, rings: &LineList) -> Result<Option<Geometry>, OutOfMemory>
    requires rings { All IsRing rings.now }
    ensures area { IfOk result (λ found. found ≡ spec.some_area rings.now) }
{
    if rings.as_slice().is_empty() {
        return Ok(None);
    }
    match nest(alloc, rings)? {
        Some(polygons) => Ok(Some(Geometry::Area(polygons))),
        None => Ok(None),
    }
}

/// The area that pieces bound. `None`: they bound none.
pub(crate) fn area_of(alloc: Global, pieces: &LineList) -> Result<Option<Geometry>, OutOfMemory>
    requires pieces { ArePieces pieces.now }
    ensures area { IfOk result (λ found. found ≡ spec.area pieces.now) }
{
    match rings_of(alloc, pieces)? {
        Some(rings) => Ok(area_in(alloc, &rings)?),
        None => Ok(None),
    }
}
