//! The geometry of a row.
ghost use Rattle.std.specs.Prelude.{◌≡◌, ℕ, Option, false, IfOk, option_map, if◌then◌else◌, None};
ghost use Rattle.std.specs.Option.{option_to_list};
ghost use Rattle.osm_base.specs.declared.values.row.Geometry.TheVariants as shapes;
ghost use Rattle.osm_base.specs.declared.values.object.Object.{Object};
ghost use Rattle.osm_base.specs.values.Key.{KeyOf};
ghost use Rattle.osm_base.specs.values.Place.{PlaceOf};
ghost use Rattle.piece_ends.specs.Joins.{joined_lines};
ghost use Rattle.piece_ends.specs.Points.{line};
ghost use Rattle.row_rules.specs.Shape as spec;
ghost use Rattle.row_rules.specs.Wanted as wanted;

use crate::area::{area_of, bounds_area, is_area};
use crate::pieces::pieces_of;
use line_build::{join_lines, line_of};
use osm_base::{Geometry, LineList, Lookup, Member, Object, OutOfMemory, Places, Tags};
use std::alloc::Global;
use style_read::Source;

/// The line along these nodes.
fn line_shape<L: Lookup>(
    alloc: Global,
    lookup: &L,
    nodes: &[u64],
) -> Result<Option<Geometry>, OutOfMemory>
    ensures shape { IfOk result (λ found. found ≡ option_map shapes.Line (line (L.known lookup.now).place nodes.now)) }
{
    match line_of(alloc, lookup, nodes)? {
        Some(line) => Ok(Some(Geometry::Line(line))),
        None => Ok(None),
    }
}

/// The list of a line, which is empty where there is none.
fn one_or_none(alloc: Global, line: Option<Places>) -> Result<LineList, OutOfMemory>
    ensures lines { IfOk result (λ lines. lines ≡ option_to_list line) }
{
    let mut lines = LineList::new(alloc);
    match line {
        Some(line) => {
            lines.push(line)?;
            Ok(lines)
        }
        None => Ok(lines),
    }
}

/// The area within a way along these nodes.
fn way_area<L: Lookup>(
    alloc: Global,
    lookup: &L,
    nodes: &[u64],
) -> Result<Option<Geometry>, OutOfMemory>
    ensures shape { IfOk result (λ found. found ≡ (if spec.bounds_area nodes.now then spec.area (option_to_list (line (L.known lookup.now).place nodes.now)) else None)) }
{
    if !bounds_area(nodes) {
        return Ok(None);
    }
    let line = line_of(alloc, lookup, nodes)?;
    let pieces = one_or_none(alloc, line)?;
    Ok(area_of(alloc, &pieces)?)
}

/// The area that a relation with these tags and members bounds.
fn relation_area<L: Lookup>(
    alloc: Global,
    lookup: &L,
    tags: &Tags,
    members: &[Member],
) -> Result<Option<Geometry>, OutOfMemory>
    ensures shape { IfOk result (λ found. found ≡ (if spec.is_area tags.now then spec.area (spec.pieces (L.known lookup.now).place (L.known lookup.now).object members.now) else None)) }
{
    if !is_area(tags) {
        return Ok(None);
    }
    let pieces = pieces_of(alloc, lookup, members)?;
    Ok(area_of(alloc, &pieces)?)
}

/// The joined lines of a relation with these members.
fn relation_lines<L: Lookup>(
    alloc: Global,
    lookup: &L,
    members: &[Member],
) -> Result<Option<Geometry>, OutOfMemory>
    ensures shape { IfOk result (λ found. found ≡ spec.some_lines (joined_lines (spec.pieces (L.known lookup.now).place (L.known lookup.now).object members.now))) }
{
    let pieces = pieces_of(alloc, lookup, members)?;
    let lines = join_lines(alloc, &pieces)?;
    if lines.as_slice().is_empty() {
        return Ok(None);
    }
    Ok(Some(Geometry::Lines(lines)))
}

/// The geometry of an object in a table of this source. `None`: it is not of the source, or its geometry is not defined.
pub(crate) fn geometry_of<L: Lookup>(
    alloc: Global,
    lookup: &L,
    source: Source,
    object: &Object,
) -> Result<Option<Geometry>, OutOfMemory>
    ensures geometry { IfOk result (λ found. found ≡ spec.geometry_of (L.known lookup.now).place (L.known lookup.now).object source object.now) }
{
    match (source, object) {
        (Source::Node, Object::Node { place, .. }) => match *place {
            Some(place) => Ok(Some(Geometry::Point(place))),
            None => Ok(None),
        },
        (Source::Way, Object::Way { nodes, .. }) => {
            Ok(line_shape(alloc, lookup, nodes.as_slice())?)
        }
        (Source::Area, Object::Way { nodes, .. }) => Ok(way_area(alloc, lookup, nodes.as_slice())?),
        (Source::Area, Object::Relation { members, tags }) => {
            Ok(relation_area(alloc, lookup, tags, members.as_slice())?)
        }
        (Source::Relation, Object::Relation { members, .. }) => {
            Ok(relation_lines(alloc, lookup, members.as_slice())?)
        }
        _ => Ok(None),
    }
}

/// Whether an object may have a geometry in a table of this source, by its kind, its nodes and its tags.
pub(crate) fn may_have_geometry(source: Source, object: &Object) -> bool
    ensures may { result ≡ wanted.may_have_geometry source object.now }
{
    match (source, object) {
        (Source::Node, Object::Node { .. }) => true,
        (Source::Way, Object::Way { .. }) => true,
        (Source::Area, Object::Way { nodes, .. }) => bounds_area(nodes.as_slice()),
        (Source::Area, Object::Relation { tags, .. }) => is_area(tags),
        (Source::Relation, Object::Relation { .. }) => true,
        _ => false,
    }
}
