//! The rows of an object in all tables.
ghost use Rattle.std.specs.Prelude.{◌≡◌, ◌≤◌, ◌++◌, ℕ, IfOk, OnOk, length};
ghost use Rattle.std.specs.Option.{option_to_list};
ghost use Rattle.osm_base.specs.map.Objects.{ObjectSet};
ghost use Rattle.row_rules.specs.Agree.{Suffices};
ghost use Rattle.row_rules.specs.Material.{material_among};
ghost use Rattle.row_rules.specs.Rows.{in_table, rows_from, rows_in, rows_known};

use crate::relations::{Relations, relations_with};
use crate::row::row_among;
use osm_base::{Key, Lookup, Object, OutOfMemory, Row, TableRow, TableRows};
use std::alloc::Global;
use style_read::{MAX_TABLES, Style, TableDef};

/// Adds a row of the table with a number, if there is one.
fn add_row(rows: &mut TableRows, table: u32, row: Option<Row>) -> Result<(), OutOfMemory>
    ensures ok { OnOk result (rows.new ≡ rows.old ++ option_to_list (in_table table row)) }
{
    match row {
        Some(row) => {
            rows.push(TableRow { table, row })?;
            Ok(())
        }
        None => Ok(()),
    }
}

/// The rows of an object in tables that are numbered from 0 on.
fn rows_among<L: Lookup>(
    alloc: Global,
    tables: &[TableDef],
    key: Key,
    object: &Object,
    relations: &Relations<L>,
) -> Result<TableRows, OutOfMemory>
    requires few { length tables.now ≤ MAX_TABLES }
    ensures rows { IfOk result (λ rows. rows ≡ rows_from relations.now.selections.now
        (material_among relations.now.selections.now (L.known relations.now.lookup.now) relations.now.ids.now) key object.now 0 tables.now) }
{
    let mut rows = TableRows::new(alloc);
    let mut number: u32 = 0;
    for table in tables {
        add_row(
            &mut rows,
            number,
            row_among(alloc, table, key, object, relations)?,
        )?;
        number += 1;
    }
    Ok(rows)
}

/// The rows of a key, by rising numbers of their tables.
fn known_rows<L: Lookup>(
    alloc: Global,
    style: &Style,
    key: Key,
    lookup: &L,
) -> Result<TableRows, OutOfMemory>
    ensures rows { IfOk result (λ rows. rows ≡ rows_known style.now (L.known lookup.now) key) }
{
    match lookup.object_of(key) {
        None => Ok(TableRows::new(alloc)),
        Some(object) => {
            let relations = Relations {
                selections: style.selections.as_slice(),
                ids: relations_with(lookup, key),
                lookup,
            };
            Ok(rows_among(alloc, style.tables.as_slice(), key, object, &relations)?)
        }
    }
}

/// The rows that an object has, by rising numbers of their tables.
pub fn rows_of<L: Lookup>(
    alloc: Global,
    style: &Style,
    key: Key,
    lookup: &L,
) -> Result<TableRows, OutOfMemory>
    ensures known { IfOk result (λ rows. rows ≡ rows_known style.now (L.known lookup.now) key) }
    ensures rows { IfOk result (λ rows. (objects : ObjectSet) → ((table : ℕ) → Suffices style.now table key (L.known lookup.now) objects) → rows ≡ rows_in style.now objects key) }
{
    Ok(known_rows(alloc, style, key, lookup)?)
}
