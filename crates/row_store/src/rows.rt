//! The rows of an object in bytes.
ghost use Rattle.std.specs.Prelude.{◌≡◌, ◌++◌, ◌<◌, ◌≤◌, ◌↔◌, ℕ, length, IfOk, IfErr, OnOk, IsTrue};
ghost use Rattle.std.specs.List.{AllByRecursion};
ghost use Rattle.style_read.specs.declared.style.TheConstants.{MAX_TABLES};
ghost use Rattle.value_bytes.specs.Forms.{Spells, IsNoValue, IsFront, IsFrontless, NeedsFor};
ghost use Rattle.value_bytes.specs.Row.{IsRow};
ghost use Rattle.row_store.specs.Rows.{table_row_bytes, IsTableRow, rows_bytes, AreRows, AreSpelled};
ghost use Rattle.store_maps.specs.Rows.{AreRising, Fits, AreKept};

use osm_base::{Bytes, Items, OutOfMemory, TableRow, TableRows};
use std::alloc::Global;
use store_maps::columns_of;
use style_read::{Style, TableDef};
use value_bytes::{USUAL_BYTES, ValueFault, front_number, front_row, push_number, push_row};

/// The bytes of the rows of an object.
pub fn rows_bytes(alloc: Global, style: &Style, rows: &TableRows) -> Result<Bytes, OutOfMemory>
    requires { AreKept style.now.tables rows.now }
    ensures bytes { IfOk result (λ bytes. bytes ≡ rows_bytes rows.now) }
    ensures are { OnOk result (AreRows style.now.tables rows.now) }
{
    let mut out = Vec::with_capacity(alloc, USUAL_BYTES)?;
    push_rows(&mut out, style.tables.as_slice(), rows.as_slice())?;
    Ok(Items::from_vec(out))
}

/// The rows with these bytes.
pub fn read_rows(alloc: Global, style: &Style, bytes: &[u8]) -> Result<TableRows, ValueFault>
    ensures rows { IfOk result (Spells rows_bytes (AreRows style.now.tables) bytes.now) }
    ensures kept { IfOk result (AreKept style.now.tables) }
    ensures refused { IfErr result (NeedsFor (IsNoValue rows_bytes (AreRows style.now.tables) bytes.now)) }
{
    let rows = match all_rows(alloc, style.tables.as_slice(), bytes) {
        Ok(rows) => rows,
        Err(fault) => return Err(fault),
    };
    if rows.is_empty() || !are_rising(&rows) {
        return Err(ValueFault::NotSpelled);
    }
    Ok(Items::from_vec(rows))
}

/// The rows that the bytes are, in whatever order.
fn all_rows(alloc: Global, tables: &[TableDef], bytes: &[u8]) -> Result<Vec<TableRow>, ValueFault>
    requires { length tables.now ≤ MAX_TABLES }
    ensures rows { IfOk result (λ rows. Spells rows_bytes (AreSpelled tables.now) bytes.now rows.items) }
    ensures refused { IfErr result (NeedsFor (IsNoValue rows_bytes (AreSpelled tables.now) bytes.now)) }
{
    let mut rows = Vec::new(alloc);
    let mut rest = bytes;
    while !rest.is_empty() {
        let (row, behind) = match front_table_row(alloc, tables, rest) {
            Ok(found) => found,
            Err(fault) => return Err(fault),
        };
        rows.push(row)?;
        rest = behind;
    }
    Ok(rows)
}

/// The row at the front with the number of its table, and the bytes behind it.
fn front_table_row<'b>(
    alloc: Global,
    tables: &[TableDef],
    bytes: &'b [u8],
) -> Result<(TableRow, &'b [u8]), ValueFault>
    requires { length tables.now ≤ MAX_TABLES }
    ensures row { IfOk result (λ (row, rest). IsFront table_row_bytes (IsTableRow tables.now) bytes.now row rest.now) }
    ensures shorter { IfOk result (λ (row, rest). length rest.now < length bytes.now) }
    ensures refused { IfErr result (NeedsFor (IsFrontless table_row_bytes (IsTableRow tables.now) bytes.now)) }
{
    let Some((table, behind)) = front_number(bytes) else {
        return Err(ValueFault::NotSpelled);
    };
    if table >= tables.len() as u64 {
        return Err(ValueFault::NotSpelled);
    }
    let columns = columns_of(tables, table as usize);
    let (row, rest) = match front_row(alloc, columns, behind) {
        Ok(found) => found,
        Err(fault) => return Err(fault),
    };
    let table = table as u32;
    Ok((TableRow { table, row }, rest))
}

/// Whether each row is of a later table than the one before it.
fn are_rising(rows: &[TableRow]) -> bool
    ensures rising { IsTrue result ↔ AreRising rows.now }
{
    let mut least = 0;
    for row in rows {
        if u64::from(row.table) < least {
            return false;
        }
        least = u64::from(row.table) + 1;
    }
    true
}

/// Puts the bytes of rows behind those that are there.
fn push_rows(out: &mut Vec<u8>, tables: &[TableDef], rows: &[TableRow]) -> Result<(), OutOfMemory>
    requires { AllByRecursion (Fits tables.now) rows.now }
    ensures ok { OnOk result (out.new.items ≡ out.old.items ++ rows_bytes rows.now) }
    ensures are { OnOk result (AllByRecursion (IsTableRow tables.now) rows.now) }
{
    for row in rows {
        push_table_row(out, row)?;
    }
    Ok(())
}

/// Puts the bytes of a row, behind the number of its table, behind those that are there.
fn push_table_row(out: &mut Vec<u8>, row: &TableRow) -> Result<(), OutOfMemory>
    ensures ok { OnOk result (out.new.items ≡ out.old.items ++ table_row_bytes row.now) }
    ensures is { OnOk result (IsRow (length row.now.row.cells) row.now.row) }
{
    push_number(out, u64::from(row.table))?;
    push_row(out, &row.row)?;
    Ok(())
}
