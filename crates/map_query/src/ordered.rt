//! The rows of tables in the order of their numbers, with their boxes.
ghost use Rattle.std.specs.Prelude.{◌≡◌, ◌∷◌, ◌++◌, [], map, IfOk, OnOk};
ghost use Rattle.std.specs.List.{All};
ghost use Rattle.row_text.specs.Numbered.{rows_by_number};
ghost use Rattle.row_text.specs.Numbered.{seen as in_order};
ghost use Rattle.row_text.specs.Table.{has_areas};
ghost use Rattle.map_query.specs.Ordered.{IsTable, seen};

use crate::blocks::blocks_of;
use crate::boxed::BoxedRow;
use crate::boxes::box_of_geometry;
use osm_base::{GeoBox, Key, OutOfMemory, Row, Tables};
use row_text::{KeyedRow, rows_by_number};
use std::alloc::Global;
use style_read::Style;

/// The rows of a table, by rising numbers, and the boxes around their blocks.
#[derive(Drop)]
pub struct TableRows<'t> {
    pub table: u32,
    pub rows: Vec<BoxedRow<'t>>,
    pub blocks: Vec<Option<GeoBox>>,
}

/// The rows of all tables of a style.
pub fn boxed_tables<'t>(
    alloc: Global,
    style: &Style,
    tables: &'t Tables,
) -> Result<Vec<TableRows<'t>>, OutOfMemory>
    ensures ordered { IfOk result (λ all. All (IsTable style.now tables.now) all.items) }
{
    let mut all = Vec::new(alloc);
    let count = style.tables.as_slice().len() as u32;
    for table in 0..count {
        let own = table_rows(alloc, style, tables, table)?;
        all.push(own)?;
    }
    Ok(all)
}

/// The rows of a table.
fn table_rows<'t>(
    alloc: Global,
    style: &Style,
    tables: &'t Tables,
    table: u32,
) -> Result<TableRows<'t>, OutOfMemory>
    ensures ordered { IfOk result (IsTable style.now tables.now) }
{
    let ordered = rows_by_number(alloc, style, tables, table)?;
    let rows = with_boxes(alloc, &ordered)?;
    let blocks = blocks_of(alloc, &rows)?;
    Ok(TableRows {
        table,
        rows,
        blocks,
    })
}

/// The same rows with their boxes.
fn with_boxes<'t>(alloc: Global, ordered: &[KeyedRow<'t>]) -> Result<Vec<BoxedRow<'t>>, OutOfMemory>
    ensures rows { IfOk result (λ rows. map seen rows.items ≡ map in_order ordered.now) }
{
    let mut rows = Vec::new(alloc);
    for own in ordered {
        add(&mut rows, own.key, own.row)?;
    }
    Ok(rows)
}

/// Adds a row with its box.
fn add<'t>(rows: &mut Vec<BoxedRow<'t>>, key: Key, row: &'t Row) -> Result<(), OutOfMemory>
    ensures ok { OnOk result (map seen rows.new.items ≡ map seen rows.old.items ++ (key, row.now) ∷ []) }
{
    let around = box_of_geometry(&row.geometry);
    match rows.push(BoxedRow { key, row, around }) {
        Ok(()) => Ok(()),
        Err(_) => Err(OutOfMemory),
    }
}
