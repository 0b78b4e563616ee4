//! The row of an object in a table.
ghost use Rattle.std.specs.Prelude.{◌≡◌, IfOk};
ghost use Rattle.std.specs.Option.{option_and_then};
ghost use Rattle.row_rules.specs.Agree.{Suffices};
ghost use Rattle.row_rules.specs.Material.{material_among, material_known};
ghost use Rattle.row_rules.specs.Material.{relations_with as ids_with};
ghost use Rattle.row_rules.specs.Objects as objects;
ghost use Rattle.osm_base.specs.map.Objects.{ObjectSet};
ghost use Rattle.row_rules.specs.Row as spec;
ghost use Rattle.row_rules.specs.Row.{row_from};
ghost use Rattle.row_rules.specs.Shape as shape;

use crate::cell::cells_of;
use crate::condition::wants;
use crate::geometry::{geometry_of, may_have_geometry};
use crate::relations::{Relations, relations_with};
use osm_base::{Key, Kind, Lookup, Object, OutOfMemory, Row, Tags};
use std::alloc::Global;
use style_read::{Selection, Style, TableDef};

/// The tags of an object.
pub(crate) fn tags_of(object: &Object) -> &Tags
    ensures tags { result.now ≡ objects.tags_of object.now }
{
    match object {
        Object::Node { tags, .. } => tags,
        Object::Way { tags, .. } => tags,
        Object::Relation { tags, .. } => tags,
    }
}

/// Whether an object is of a kind.
fn is_of_kind(kind: Kind, object: &Object) -> bool
    ensures kind { result ≡ objects.is_of_kind kind object.now }
{
    match object {
        Object::Node { .. } => kind == Kind::Node,
        Object::Way { .. } => kind == Kind::Way,
        Object::Relation { .. } => kind == Kind::Relation,
    }
}

/// The row of an object that a table wants. `None`: its geometry is not defined.
fn wanted_row<L: Lookup>(
    alloc: Global,
    table: &TableDef,
    object: &Object,
    relations: &Relations<L>,
) -> Result<Option<Row>, OutOfMemory>
    ensures row { IfOk result (λ found. found ≡ spec.with_geometry
        (spec.cells_of relations.now.selections.now (material_among relations.now.selections.now (L.known relations.now.lookup.now) relations.now.ids.now) table.now object.now)
        (shape.geometry_of (L.known relations.now.lookup.now).place (L.known relations.now.lookup.now).object table.now.source object.now)) }
{
    let Some(geometry) = geometry_of(alloc, relations.lookup, table.source, object)? else {
        return Ok(None);
    };
    let cells = cells_of(alloc, table.columns.as_slice(), tags_of(object), relations)?;
    Ok(Some(Row { cells, geometry }))
}

/// The row of an object in a table. `None`: it is of another kind than its key, the table does not want it, or its geometry
/// is not defined.
pub(crate) fn row_among<L: Lookup>(
    alloc: Global,
    table: &TableDef,
    key: Key,
    object: &Object,
    relations: &Relations<L>,
) -> Result<Option<Row>, OutOfMemory>
    ensures row { IfOk result (λ found. found ≡ spec.row_of relations.now.selections.now
        (material_among relations.now.selections.now (L.known relations.now.lookup.now) relations.now.ids.now) table.now key object.now) }
{
    if !is_of_kind(key.kind, object) {
        return Ok(None);
    }
    if !may_have_geometry(table.source, object) {
        return Ok(None);
    }
    if !wants(table, tags_of(object), relations) {
        return Ok(None);
    }
    Ok(wanted_row(alloc, table, object, relations)?)
}

/// The row of a key in a table. `None`: there is no such object, or it has no row.
fn row_at<L: Lookup>(
    alloc: Global,
    selections: &[Selection],
    table: &TableDef,
    key: Key,
    lookup: &L,
) -> Result<Option<Row>, OutOfMemory>
    ensures row { IfOk result (λ found. found ≡ option_and_then
        (spec.row_of selections.now (material_among selections.now (L.known lookup.now) (ids_with (L.known lookup.now) key)) table.now key)
        ((L.known lookup.now).object key)) }
{
    match lookup.object_of(key) {
        None => Ok(None),
        Some(object) => {
            let relations = Relations {
                selections,
                ids: relations_with(lookup, key),
                lookup,
            };
            Ok(row_among(alloc, table, key, object, &relations)?)
        }
    }
}

/// The row of a key in the table with a number. `None`: there is no such table or object, or it has no row there.
fn known_row<L: Lookup>(
    alloc: Global,
    style: &Style,
    table: u32,
    key: Key,
    lookup: &L,
) -> Result<Option<Row>, OutOfMemory>
    ensures row { IfOk result (λ found. found ≡ row_from style.now table (material_known style.now (L.known lookup.now) key) key) }
{
    match style.tables.as_slice().get(table as usize) {
        None => Ok(None),
        Some(definition) => Ok(row_at(
            alloc,
            style.selections.as_slice(),
            definition,
            key,
            lookup,
        )?),
    }
}

/// The row that an object has in the table with a number. `None`: it has none there.
pub fn row_of<L: Lookup>(
    alloc: Global,
    style: &Style,
    table: u32,
    key: Key,
    lookup: &L,
) -> Result<Option<Row>, OutOfMemory>
    ensures known { IfOk result (λ found. found ≡ row_from style.now table (material_known style.now (L.known lookup.now) key) key) }
    ensures row { IfOk result (λ found. (objects : ObjectSet) → Suffices style.now table key (L.known lookup.now) objects → found ≡ spec.row style.now objects table key) }
{
    Ok(known_row(alloc, style, table, key, lookup)?)
}
