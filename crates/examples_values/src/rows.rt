//! Rows, as rows of the table tell them.
ghost use Rattle.store_maps.specs.Rows.{AreKept};

use crate::hex::{none, told};
use osm_base::{Cell, OutOfMemory, Row, TableRow, TableRows};
use row_store::{read_rows, rows_bytes};
use row_text::push_geometry;
use std::alloc::{AllocError, Global};
use store_maps::columns_of;
use style_read::{Style, StyleFault, read_style};
use value_bytes::{ValueFault, read_row, row_bytes};

/// A style with three tables, of no column, of one and of two.
const STYLE: &str =
    "[[table]]\nname = \"none\"\nsource = \"node\"\ngeometry = \"point\"\n[[table]]\nname = \"one\"\nsource = \"node\"\ngeometry = \"point\"\ncolumn = [{ name = \"a\", from = \"tag:a\" }]\n[[table]]\nname = \"two\"\nsource = \"node\"\ngeometry = \"point\"\ncolumn = [{ name = \"a\", from = \"tag:a\" }, { name = \"b\", from = \"tag:b\", type = \"int\" }]\n";

/// That style. `None`: it is none.
pub fn style(alloc: Global) -> Result<Option<Style>, OutOfMemory> {
    match read_style(alloc, STYLE.as_bytes()) {
        Ok(style) => Ok(Some(style)),
        Err(StyleFault::Bad { .. }) => Ok(None),
        Err(StyleFault::OutOfMemory) => Err(OutOfMemory),
    }
}

/// The row of a table with these bytes.
pub fn row(alloc: Global, table: u32, bytes: &[u8]) -> Result<Option<String>, OutOfMemory> {
    match style(alloc)? {
        None => Ok(None),
        Some(style) => row_by(alloc, &style, table, bytes),
    }
}

fn row_by(
    alloc: Global,
    style: &Style,
    table: u32,
    bytes: &[u8],
) -> Result<Option<String>, OutOfMemory> {
    let tables = style.tables.as_slice();
    if table as usize >= tables.len() {
        return Ok(None);
    }
    match read_row(alloc, columns_of(tables, table as usize), bytes) {
        Ok(row) => row_again(alloc, &row, bytes),
        Err(ValueFault::NotSpelled) => none(alloc),
        Err(ValueFault::OutOfMemory) => Err(OutOfMemory),
    }
}

fn row_again(alloc: Global, row: &Row, bytes: &[u8]) -> Result<Option<String>, OutOfMemory> {
    let again = row_bytes(alloc, row)?;
    told(row_told(alloc, row)?, bytes, again.as_slice())
}

/// The rows of an object with these bytes.
pub fn rows(alloc: Global, bytes: &[u8]) -> Result<Option<String>, OutOfMemory> {
    match style(alloc)? {
        None => Ok(None),
        Some(style) => rows_by(alloc, &style, bytes),
    }
}

fn rows_by(alloc: Global, style: &Style, bytes: &[u8]) -> Result<Option<String>, OutOfMemory> {
    match read_rows(alloc, style, bytes) {
        Ok(rows) => rows_again(alloc, style, &rows, bytes),
        Err(ValueFault::NotSpelled) => none(alloc),
        Err(ValueFault::OutOfMemory) => Err(OutOfMemory),
    }
}

fn rows_again(
    alloc: Global,
    style: &Style,
    rows: &TableRows,
    bytes: &[u8],
) -> Result<Option<String>, OutOfMemory>
    requires { AreKept style.now.tables rows.now }
{
    let again = rows_bytes(alloc, style, rows)?;
    told(rows_text(alloc, rows)?, bytes, again.as_slice())
}

/// The rows of an object, as a row of the table says them.
pub fn rows_text(alloc: Global, rows: &TableRows) -> Result<String, OutOfMemory> {
    let mut text = String::new(alloc);
    for row in rows.as_slice() {
        push_table_row(&mut text, row)?;
    }
    Ok(text)
}

fn push_table_row(text: &mut String, row: &TableRow) -> Result<(), OutOfMemory> {
    if !text.is_empty() {
        text.push(' ')?;
    }
    write!(text, "{}: ", row.table)?;
    push_row(text, &row.row)?;
    text.push(';')?;
    Ok(())
}

/// A row, as a row of the table says it.
fn row_told(alloc: Global, row: &Row) -> Result<String, OutOfMemory> {
    let mut text = String::new(alloc);
    push_row(&mut text, row)?;
    Ok(text)
}

fn push_row(text: &mut String, row: &Row) -> Result<(), OutOfMemory> {
    for cell in row.cells.as_slice() {
        push_cell(text, cell)?;
    }
    push_geometry(text, &row.geometry)
}

/// Adds `null `, `text TEXT ` or `int NUMBER `.
fn push_cell(text: &mut String, cell: &Cell) -> Result<(), AllocError> {
    match cell {
        Cell::Null => text.push_str("null "),
        Cell::Text(own) => write!(text, "text {} ", own.as_str()),
        Cell::Int(number) => write!(text, "int {number} "),
    }
}
