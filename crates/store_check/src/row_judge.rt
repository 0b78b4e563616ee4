//! Whether the bytes that are kept of a key's rows are right.
ghost use Rattle.std.specs.Prelude.{◌≡◌, ◌↔◌, Some, IfOk, IsTrue};
ghost use Rattle.std.specs.List.{AllByRecursion};
ghost use Rattle.std.specs.Option.{option_map};
ghost use Rattle.osm_base.specs.declared.values.key.Kind.TheVariants as kinds;
ghost use Rattle.osm_base.specs.declared.values.row.Geometry.TheVariants.{Point};
ghost use Rattle.value_bytes.specs.Forms.{Spells};
ghost use Rattle.value_bytes.specs.Nodes.{record_bytes, IsRecord};
ghost use Rattle.value_bytes.specs.declared.nodes.NodeRecord.{NodeRecord};
ghost use Rattle.row_rules.specs.Rows.{rows_known};
ghost use Rattle.store_maps.specs.Append.{MayKeep};
ghost use Rattle.store_check.specs.Held.{held_known};
ghost use Rattle.store_check.specs.Judged.{AreAtPlace, IsRightNode, IsSpellingOf, known_with};
ghost use Rattle.store_check.specs.Values.{IsPlaced};

use crate::at_node::AtNode;
use crate::held::Held;
use osm_base::{Bytes, Geometry, Key, Object, OutOfMemory, Place, TableRow, TableRows};
use row_map::{may_have_rows, rows_of};
use row_store::{read_rows, rows_bytes};
use std::alloc::Global;
use style_read::{Source, Style, TableDef};
use value_bytes::{NodeRecord, ValueFault, read_whole};

/// Whether what is kept of the rows of a way or a relation is what its rows are.
pub(crate) fn is_right_other(
    alloc: Global,
    style: &Style,
    held: &Held,
    key: Key,
    kept: &Option<Bytes>,
) -> Result<bool, OutOfMemory>
    ensures right { IfOk result (λ right. IsTrue right ↔ IsSpellingOf style.now.tables (rows_known style.now (held_known held.now) key) kept.now) }
{
    let rows = rows_of(alloc, style, key, held)?;
    Ok(are_bytes_of(alloc, style, &rows, kept)?)
}

/// Whether what is kept of the rows of a node is right, where these bytes are what is kept of the node.
pub(crate) fn is_right_node(
    alloc: Global,
    style: &Style,
    held: &Held,
    key: Key,
    bytes: &[u8],
    kept: &Option<Bytes>,
) -> Result<bool, OutOfMemory>
    requires node { key.kind ≡ kinds.Node }
    ensures right { IfOk result (λ right. (own : NodeRecord) → Spells record_bytes IsRecord bytes.now own
        → (IsTrue right ↔ IsRightNode style.now held.now key kept.now own)) }
{
    let NodeRecord { place, tags } = match read_whole::<NodeRecord>(alloc, bytes) {
        Ok(node) => node,
        Err(ValueFault::NotSpelled) => return Ok(false),
        Err(ValueFault::OutOfMemory) => return Err(OutOfMemory),
    };
    match tags {
        Some(tags) => {
            let node = Some(Object::Node { place, tags });
            Ok(is_right_known(alloc, style, held, key, &node, kept)?)
        }
        None => Ok(is_right_unknown(alloc, style, place, kept)?),
    }
}

/// Whether what is kept of the rows of a node whose tags are known is what its rows are.
fn is_right_known(
    alloc: Global,
    style: &Style,
    held: &Held,
    key: Key,
    node: &Option<Object>,
    kept: &Option<Bytes>,
) -> Result<bool, OutOfMemory>
    requires node { key.kind ≡ kinds.Node }
    ensures right { IfOk result (λ right. IsTrue right ↔ IsSpellingOf style.now.tables (rows_known style.now (known_with held.now node.now) key) kept.now) }
{
    if !may_have_rows(style, node) {
        return Ok(kept.is_none());
    }
    let lookup = AtNode { held, node };
    let rows = rows_of(alloc, style, key, &lookup)?;
    Ok(are_bytes_of(alloc, style, &rows, kept)?)
}

/// Whether what is kept are rows of a node at this place.
fn is_right_unknown(
    alloc: Global,
    style: &Style,
    place: Option<Place>,
    kept: &Option<Bytes>,
) -> Result<bool, OutOfMemory>
    ensures right { IfOk result (λ right. IsTrue right ↔ AreAtPlace style.now.tables place kept.now) }
{
    match kept {
        None => Ok(true),
        Some(bytes) => match read_rows(alloc, style, bytes.as_slice()) {
            Ok(rows) => Ok(are_placed(style.tables.as_slice(), &place, rows.as_slice())),
            Err(ValueFault::NotSpelled) => Ok(false),
            Err(ValueFault::OutOfMemory) => Err(OutOfMemory),
        },
    }
}

/// Whether these rows stand in tables of nodes, at this place.
fn are_placed(tables: &[TableDef], place: &Option<Place>, rows: &[TableRow]) -> bool
    ensures placed { IsTrue result ↔ AllByRecursion (IsPlaced tables.now place.now) rows.now }
{
    for row in rows {
        if !is_placed(tables, place, row) {
            return false;
        }
    }
    true
}

/// Whether a row stands in a table of nodes, at this place.
fn is_placed(tables: &[TableDef], place: &Option<Place>, row: &TableRow) -> bool
    ensures placed { IsTrue result ↔ IsPlaced tables.now place.now row.now }
{
    let of_nodes = match tables.get(row.table as usize) {
        Some(table) => table.source == Source::Node,
        None => true,
    };
    of_nodes && is_at(place, &row.row.geometry)
}

/// Whether a geometry is the point of this place.
fn is_at(place: &Option<Place>, geometry: &Geometry) -> bool
    ensures at { IsTrue result ↔ (option_map Point place.now ≡ Some geometry.now) }
{
    match (place, geometry) {
        (Some(place), Geometry::Point(own)) => *place == *own,
        _ => false,
    }
}

/// Whether these are the bytes of these rows, and there are none where there are no rows.
fn are_bytes_of(
    alloc: Global,
    style: &Style,
    rows: &TableRows,
    kept: &Option<Bytes>,
) -> Result<bool, OutOfMemory>
    requires may { MayKeep style.now.tables rows.now }
    ensures are { IfOk result (λ are. IsTrue are ↔ IsSpellingOf style.now.tables rows.now kept.now) }
{
    if rows.as_slice().is_empty() {
        return Ok(kept.is_none());
    }
    match kept {
        None => Ok(false),
        Some(bytes) => {
            let own = rows_bytes(alloc, style, rows)?;
            Ok(own.as_slice() == bytes.as_slice())
        }
    }
}
