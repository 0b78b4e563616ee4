//! The answer to a query over rows that stand in order, each with its box beside it.
ghost use Rattle.std.specs.Prelude.{◌≡◌, ◌++◌, IfOk, IfSome, OnOk};
ghost use Rattle.std.specs.List.{All};
ghost use Rattle.map_query.specs.Answer.{answer};
ghost use Rattle.map_query.specs.Ordered.{AreBlocks, IsTable, around_rows, met};
ghost use Rattle.osm_base.specs.map.Spots.{TableMap};
ghost use Rattle.style_read.specs.Style.{StyleOf};

use crate::answering::{Found, answer, push};
use crate::blocks::{BLOCK, block_at, is_near};
use crate::boxed::BoxedRow;
use crate::ordered::TableRows;
use crate::query::Query;
use osm_base::{GeoBox, Items, OutOfMemory, RowList, Tables};
use row_text::row_number;
use std::alloc::Global;
use style_read::Style;

/// The answer to a query over these tables, whose rows stand in order.
pub fn answer_in_order(
    alloc: Global,
    style: &Style,
    tables: &Tables,
    all: &[TableRows],
    query: &Query,
) -> Result<Found, OutOfMemory>
    requires ordered { All (IsTable style.now tables.now) all.now }
    ensures found { IfOk result (λ found. found ≡ answer style.now tables.now query.now) }
{
    match *query {
        Query::Count { table } => {
            if let Some(own) = rows_of(all, table) {
                let rows = own.rows.as_slice();
                return Ok(Found::Count(rows.len() as u64));
            }
        }
        Query::Box { table, asked } => {
            if let Some(own) = rows_of(all, table) {
                return Ok(Found::Rows(rows_met(alloc, style, asked, own)?));
            }
        }
        Query::One { .. } => {}
    }
    answer(alloc, style, tables, query)
}

/// The rows of a table, if they stand there.
fn rows_of<'a, 't>(all: &'a [TableRows<'t>], table: u32) -> Option<&'a TableRows<'t>>
    ensures rows { (style : StyleOf) (tables : TableMap) → All (IsTable style tables) all.now → IfSome result (λ own. IsTable style tables own.now) }
    ensures table { IfSome result (λ own. own.now.table ≡ table) }
{
    let own = all.get(table as usize)?;
    if own.table != table {
        return None;
    }
    Some(own)
}

/// Those of the rows of a table whose boxes have a place in common with the asked one.
fn rows_met(
    alloc: Global,
    style: &Style,
    asked: GeoBox,
    own: &TableRows,
) -> Result<RowList, OutOfMemory>
    requires blocks { AreBlocks own.now.blocks.items own.now.rows.items }
    ensures rows { IfOk result (λ rows. rows ≡ met style.now own.now.table asked own.now.rows.items) }
{
    let mut rows = Items::new(alloc);
    let mut at = 0;
    for around in &own.blocks {
        let block = block_at(&own.rows, at);
        push_near(alloc, style, own.table, asked, *around, block, &mut rows)?;
        at += BLOCK;
    }
    Ok(rows)
}

/// Adds those of the rows of a block whose boxes have a place in common with the asked one. Where its own has none no row is looked at.
fn push_near(
    alloc: Global,
    style: &Style,
    table: u32,
    asked: GeoBox,
    around: Option<GeoBox>,
    block: &[BoxedRow],
    rows: &mut RowList,
) -> Result<(), OutOfMemory>
    requires around { around ≡ around_rows block.now }
    ensures ok { OnOk result (rows.new ≡ rows.old ++ met style.now table asked block.now) }
{
    if !is_near(asked, around) {
        return Ok(());
    }
    push_met(alloc, style, table, asked, block, rows)
}

/// Adds those of the rows of a block whose boxes have a place in common with the asked one.
fn push_met(
    alloc: Global,
    style: &Style,
    table: u32,
    asked: GeoBox,
    block: &[BoxedRow],
    rows: &mut RowList,
) -> Result<(), OutOfMemory>
    ensures ok { OnOk result (rows.new ≡ rows.old ++ met style.now table asked block.now) }
{
    for own in block {
        if is_near(asked, own.around) {
            push(alloc, rows, row_number(style, table, own.key), own.row)?;
        }
    }
    Ok(())
}
