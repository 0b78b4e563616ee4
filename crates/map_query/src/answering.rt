//! The answer to a query.
ghost use Rattle.std.specs.Prelude.{◌≡◌, ◌∷◌, ◌++◌, [], filter, map, IfOk, OnOk};
ghost use Rattle.row_text.specs.Numbered.{seen};
ghost use Rattle.map_query.specs.Answer.{answer, found_in, is_in, numbered, row_at};

use crate::boxes::box_of_geometry;
use crate::query::Query;
use lanes_geo::is_met;
use osm_base::{GeoBox, Items, Key, NumberedRow, OutOfMemory, Row, RowList, Spot, Tables, TryCopy};
use row_text::{KeyedRow, count_rows, row_number, rows_by_number};
use std::alloc::Global;
use style_read::Style;

/// What a query finds.
#[derive(Drop)]
pub enum Found {
    /// How many rows there are.
    Count(u64),
    /// The rows, by rising numbers; where two have one number, by rising keys.
    Rows(RowList),
}

/// The answer to a query over these tables.
pub fn answer(
    alloc: Global,
    style: &Style,
    tables: &Tables,
    query: &Query,
) -> Result<Found, OutOfMemory>
    ensures found { IfOk result (λ found. found ≡ answer style.now tables.now query.now) }
{
    match *query {
        Query::Count { table } => Ok(Found::Count(count_rows(tables, table) as u64)),
        Query::One { table, key } => Ok(Found::Rows(row_at(alloc, style, tables, table, key)?)),
        Query::Box { table, asked } => {
            Ok(Found::Rows(found_in(alloc, style, tables, table, asked)?))
        }
    }
}

/// The row of an object in a table, if it has one.
fn row_at(
    alloc: Global,
    style: &Style,
    tables: &Tables,
    table: u32,
    key: Key,
) -> Result<RowList, OutOfMemory>
    ensures rows { IfOk result (λ rows. rows ≡ row_at style.now tables.now table key) }
{
    let mut rows = Items::new(alloc);
    if let Some(row) = tables.get(Spot { table, key }) {
        push(alloc, &mut rows, row_number(style, table, key), row)?;
    }
    Ok(rows)
}

/// The rows of a table whose boxes have a place in common with the asked one.
fn found_in(
    alloc: Global,
    style: &Style,
    tables: &Tables,
    table: u32,
    asked: GeoBox,
) -> Result<RowList, OutOfMemory>
    ensures rows { IfOk result (λ rows. rows ≡ found_in style.now tables.now table asked) }
{
    let ordered = rows_by_number(alloc, style, tables, table)?;
    rows_met(alloc, style, table, asked, &ordered)
}

/// Those of the rows of a table whose boxes have a place in common with the asked one.
fn rows_met(
    alloc: Global,
    style: &Style,
    table: u32,
    asked: GeoBox,
    ordered: &[KeyedRow],
) -> Result<RowList, OutOfMemory>
    ensures rows { IfOk result (λ rows. rows ≡ numbered style.now table (filter (λ (key, row). is_in asked row) (map seen ordered.now))) }
{
    let mut rows = Items::new(alloc);
    for own in ordered {
        if is_in(asked, own.row) {
            push(alloc, &mut rows, row_number(style, table, own.key), own.row)?;
        }
    }
    Ok(rows)
}

/// Whether the box of a row has a place in common with the asked one.
fn is_in(asked: GeoBox, row: &Row) -> bool
    ensures met { result ≡ is_in asked row.now }
{
    match box_of_geometry(&row.geometry) {
        Some(around) => is_met(asked, around),
        None => false,
    }
}

/// Adds a copy of a row with its number.
pub(crate) fn push(
    alloc: Global,
    rows: &mut RowList,
    number: i64,
    row: &Row,
) -> Result<(), OutOfMemory>
    ensures ok { OnOk result (rows.new ≡ rows.old ++ record { number = number; row = row.now } ∷ []) }
{
    rows.push(NumberedRow {
        number,
        row: row.copy(alloc)?,
    })
}
