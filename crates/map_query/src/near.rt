//! The rows near an asked box, found by the boxes that are kept beside them.
ghost use Rattle.std.specs.Prelude.{◌≡◌, ◌∷◌, ◌++◌, [], map, T, IfOk, OnOk};
ghost use Rattle.std.specs.FinMap as finite;
ghost use Rattle.std.specs.FinMap.{is_sorted};
ghost use Rattle.osm_base.specs.values.KeyOrder.{key_cmp};
ghost use Rattle.row_text.specs.Numbered.{by_number, seen};
ghost use Rattle.row_text.specs.Table.{has_areas};
ghost use Rattle.map_query.specs.Answer.{answer, found_in, numbered, only};
ghost use Rattle.map_query.specs.RowBoxes.{IsBoxed, rows_at};

use crate::answering::{Found, answer, push};
use crate::counted::CountedTables;
use crate::query::Query;
use grid_index::Grid;
use osm_base::{GeoBox, Items, Key, OutOfMemory, Row, RowList, Spot, Tables};
use row_text::{KeyedRow, put_in_order, row_number};
use std::alloc::Global;
use style_read::Style;

/// The answer to a query over these tables, for which no row is counted, no box of a row is made anew and no far one is looked at.
pub fn answer_by_boxes(
    alloc: Global,
    style: &Style,
    tables: &CountedTables,
    boxes: &Grid,
    query: &Query,
) -> Result<Found, OutOfMemory>
    requires boxed { IsBoxed tables.now boxes.now }
    ensures found { IfOk result (λ found. found ≡ answer style.now tables.now query.now) }
{
    match *query {
        Query::Count { table } => Ok(Found::Count(tables.count(table))),
        Query::Box { table, asked } => Ok(Found::Rows(rows_near(
            alloc,
            style,
            tables.tables(),
            boxes,
            table,
            asked,
        )?)),
        Query::One { .. } => answer(alloc, style, tables.tables(), query),
    }
}

/// The rows of a table whose boxes have a place in common with the asked one.
fn rows_near(
    alloc: Global,
    style: &Style,
    tables: &Tables,
    boxes: &Grid,
    table: u32,
    asked: GeoBox,
) -> Result<RowList, OutOfMemory>
    requires boxed { IsBoxed tables.now boxes.now }
    ensures rows { IfOk result (λ rows. rows ≡ found_in style.now tables.now table asked) }
{
    let keys = boxes.find(alloc, table, asked)?;
    let rows = ordered_at(alloc, style, tables, table, keys.as_slice())?;
    with_numbers(alloc, style, table, rows.as_slice())
}

/// The rows that objects have in a table, by rising numbers.
fn ordered_at<'t>(
    alloc: Global,
    style: &Style,
    tables: &'t Tables,
    table: u32,
    keys: &[Key],
) -> Result<Vec<KeyedRow<'t>>, OutOfMemory>
    requires rising { T (is_sorted key_cmp (rows_at tables.now table keys.now)) }
    ensures rows { IfOk result (λ rows. map seen rows.items ≡ finite.entries (finite.from_entries {R = by_number (has_areas style.now table)} (rows_at tables.now table keys.now))) }
{
    let mut rows = rows_at(alloc, tables, table, keys)?;
    put_in_order(style, table, &mut rows);
    Ok(rows)
}

/// The rows that objects have in a table.
fn rows_at<'t>(
    alloc: Global,
    tables: &'t Tables,
    table: u32,
    keys: &[Key],
) -> Result<Vec<KeyedRow<'t>>, OutOfMemory>
    ensures rows { IfOk result (λ rows. map seen rows.items ≡ rows_at tables.now table keys.now) }
{
    let mut rows = Vec::new(alloc);
    for key in keys {
        let key = *key;
        if let Some(row) = tables.get(Spot { table, key }) {
            add(&mut rows, key, row)?;
        }
    }
    Ok(rows)
}

/// Adds a row.
fn add<'t>(rows: &mut Vec<KeyedRow<'t>>, key: Key, row: &'t Row) -> Result<(), OutOfMemory>
    ensures ok { OnOk result (map seen rows.new.items ≡ map seen rows.old.items ++ (key, row.now) ∷ []) }
{
    match rows.push(KeyedRow { key, row }) {
        Ok(()) => Ok(()),
        Err(_) => Err(OutOfMemory),
    }
}

/// Copies of rows, with their numbers.
fn with_numbers(
    alloc: Global,
    style: &Style,
    table: u32,
    ordered: &[KeyedRow],
) -> Result<RowList, OutOfMemory>
    ensures rows { IfOk result (λ rows. rows ≡ numbered style.now table (map seen ordered.now)) }
{
    let mut rows = Items::new(alloc);
    for own in ordered {
        push(alloc, &mut rows, row_number(style, table, own.key), own.row)?;
    }
    Ok(rows)
}
