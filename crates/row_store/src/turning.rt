//! The rows of an object with another row for one table.
ghost use Rattle.std.specs.Prelude.{◌≡◌, ◌++◌, nat_lt, length, IfOk};
ghost use Rattle.std.specs.List.{filter};
ghost use Rattle.store_maps.specs.Maps.{kept_rows};
ghost use Rattle.store_maps.specs.Rows.{AreRising};
ghost use Rattle.row_store.specs.Tables.{StandsAt, turned};

use osm_base::{Items, OutOfMemory, Row, TableRow, TableRows};
use std::alloc::Global;

/// The rows of an object, once this is its row in a table, or it has none there.
pub(crate) fn turned(
    alloc: Global,
    found: Option<TableRows>,
    table: u32,
    row: Option<Row>,
) -> Result<TableRows, OutOfMemory>
    requires { AreRising (kept_rows found) }
    ensures rows { IfOk result (λ rows. rows ≡ turned (kept_rows found) table row) }
{
    let mut rows = rows_of(alloc, found);
    let at = take_out(&mut rows, table);
    let Some(row) = row else {
        return Ok(Items::from_vec(rows));
    };
    rows.insert(at, TableRow { table, row })?;
    Ok(Items::from_vec(rows))
}

// The rows that were found, or none.
fn rows_of(alloc: Global, found: Option<TableRows>) -> Vec<TableRow>
    ensures { result.items ≡ kept_rows found }
{
    match found {
        Some(rows) => rows.into_vec(),
        None => Vec::new(alloc),
    }
}

// Takes out the row of a table, if there is one, and answers where it stood or would.
fn take_out(rows: &mut Vec<TableRow>, table: u32) -> usize
    requires { AreRising rows.old.items }
    ensures rows { rows.new.items ≡ filter (λ own. nat_lt own.table table) rows.old.items ++ filter (λ own. nat_lt table own.table) rows.old.items }
    ensures place { result ≡ length (filter (λ own. nat_lt own.table table) rows.old.items) }
{
    let at = place_of(rows.as_slice(), table);
    if at < rows.len() && rows[at].table == table {
        rows.remove(at);
    }
    at
}

// Where the row of a table stands, or would. There are few rows of an object.
fn place_of(rows: &[TableRow], table: u32) -> usize
    ensures place { StandsAt rows.now table result }
{
    let mut at = 0;
    while at < rows.len() && rows[at].table < table {
        at += 1;
    }
    at
}
