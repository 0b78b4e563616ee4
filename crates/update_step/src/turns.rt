//! What becomes of the rows of keys: in each table the old row and the new one are compared once, and of those that differ come
//! what is told, the tiles that are due, and which keys have other rows.
ghost use Rattle.std.specs.Prelude.{◌≡◌, ◌||◌, ◌++◌, not, ℕ, List, length, map, slice_get, IfOk, OnOk};
ghost use Rattle.std.specs.Option.{option_copied, option_to_list};
ghost use Rattle.osm_base.specs.declared.values.row.TableRow.{TableRow as RowOfTable};
ghost use Rattle.osm_base.specs.values.Key.{KeyOf};
ghost use Rattle.store_maps.specs.Delta.{row_in};
ghost use Rattle.store_maps.specs.SameRows.{same_found};
ghost use Rattle.store_maps.specs.Told.{change_in, told_key};
ghost use Rattle.tile_cover.specs.Runs.{has};
ghost use Rattle.update_step.specs.Due.{is_due_in, is_due_key, met_under};
ghost use Rattle.update_step.specs.Turned.{AreTurns, is_turned, is_turned_in};

use crate::row_lists::NewRows;
use due_tiles::union;
use osm_base::{Key, OutOfMemory, Row, RowChange, RowChanges, Same, TableRow, TableRows, TryCopy};
use std::alloc::Global;
use style_read::Style;
use tile_cover::{Bounds, TileRuns, cover};

/// How many runs are put together before they are put to those of all keys.
const BATCH: usize = 1024;

/// What became of the rows of keys.
#[derive(Drop)]
pub(crate) struct Turns {
    /// How they differ.
    pub(crate) changes: RowChanges,
    /// Of each key whether its rows differ.
    pub(crate) turned: Vec<bool>,
}

/// The row of a table among the rows of a key.
fn find_row(rows: &[TableRow], table: u32) -> Option<&Row>
    ensures row { option_copied result ≡ row_in rows.now table }
{
    for own in rows {
        if own.table == table {
            return Some(&own.row);
        }
    }
    None
}

/// Whether the rows are the same, or neither is there.
fn are_same(one: Option<&Row>, other: Option<&Row>) -> bool
    ensures same { result ≡ same_found (option_copied one.entry) (option_copied other.entry) }
{
    match (one, other) {
        (Some(one), Some(other)) => one.is_same(other),
        (None, None) => true,
        _ => false,
    }
}

/// A copy of a row, if there is one.
fn copy_row(alloc: Global, row: Option<&Row>) -> Result<Option<Row>, OutOfMemory>
    ensures equal { IfOk result (λ copy. copy ≡ option_copied row.entry) }
{
    match row {
        Some(row) => Ok(Some(row.copy(alloc)?)),
        None => Ok(None),
    }
}

/// Adds the tiles that a row of a table meets, if there is one.
fn add_tiles(
    alloc: Global,
    style: &Style,
    bounds: &Bounds,
    tiles: &mut TileRuns,
    table: u32,
    row: Option<&Row>,
) -> Result<(), OutOfMemory>
    ensures added { OnOk result ((zoom x y : ℕ) → has tiles.new zoom x y
        ≡ (has tiles.old zoom x y || met_under (slice_get style.now.tables table) bounds.now (option_copied row.entry) zoom x y)) }
{
    let definition = match style.tables.as_slice().get(table as usize) {
        Some(definition) => definition,
        None => return Ok(()),
    };
    match row {
        Some(row) => {
            let met = cover(alloc, bounds, &row.geometry, definition.mode)?;
            union(alloc, tiles, &met)?;
            Ok(())
        }
        None => Ok(()),
    }
}

/// Tells of the rows of a key in a table and adds the tiles that they meet, where they differ. Answers whether they do.
fn turn_in(
    alloc: Global,
    style: &Style,
    bounds: &Bounds,
    changes: &mut RowChanges,
    tiles: &mut TileRuns,
    key: Key,
    table: u32,
    old: &[TableRow],
    new: &[TableRow],
) -> Result<bool, OutOfMemory>
    ensures told { OnOk result (changes.new ≡ changes.old ++ option_to_list (change_in key old.now new.now table)) }
    ensures due { OnOk result ((zoom x y : ℕ) → has tiles.new zoom x y
        ≡ (has tiles.old zoom x y || is_due_in style.now bounds.now old.now new.now zoom x y table)) }
    ensures turned { IfOk result (λ turned. turned ≡ is_turned_in old.now new.now table) }
{
    let before = find_row(old, table);
    let after = find_row(new, table);
    if are_same(before, after) {
        return Ok(false);
    }
    let row = copy_row(alloc, after)?;
    changes.push(RowChange { table, key, row })?;
    add_tiles(alloc, style, bounds, tiles, table, before)?;
    add_tiles(alloc, style, bounds, tiles, table, after)?;
    Ok(true)
}

/// Tells of the rows of a key and adds the tiles that they meet, where they differ. Answers whether some do.
fn turn_key(
    alloc: Global,
    style: &Style,
    bounds: &Bounds,
    changes: &mut RowChanges,
    tiles: &mut TileRuns,
    key: Key,
    old: &[TableRow],
    new: &[TableRow],
) -> Result<bool, OutOfMemory>
    ensures told { OnOk result (changes.new ≡ changes.old ++ told_key (length style.now.tables) key old.now new.now) }
    ensures due { OnOk result ((zoom x y : ℕ) → has tiles.new zoom x y
        ≡ (has tiles.old zoom x y || is_due_key style.now bounds.now old.now new.now zoom x y)) }
    ensures turned { IfOk result (λ turned. turned ≡ is_turned (length style.now.tables) old.now new.now) }
{
    let tables = style.tables.as_slice().len() as u32;
    let mut turned = false;
    for table in 0..tables {
        let here = turn_in(alloc, style, bounds, changes, tiles, key, table, old, new)?;
        turned = turned | here;
    }
    Ok(turned)
}

/// Puts the tiles of a batch to the others, where the batch is large.
fn unite_batch(alloc: Global, set: &mut TileRuns, batch: &mut TileRuns) -> Result<(), OutOfMemory>
    ensures same { OnOk result ((zoom x y : ℕ) → (has set.new zoom x y || has batch.new zoom x y) ≡ (has set.old zoom x y || has batch.old zoom x y)) }
{
    if batch.as_slice().len() < BATCH {
        return Ok(());
    }
    union(alloc, set, batch)?;
    *batch = TileRuns::new(alloc);
    Ok(())
}

/// What becomes of the rows of these keys. The tiles that this makes due are put to `due`.
pub(crate) fn turns_of(
    alloc: Global,
    style: &Style,
    bounds: &Bounds,
    olds: &[TableRows],
    news: NewRows<'_>,
    due: &mut TileRuns,
) -> Result<Turns, OutOfMemory>
    requires olds { length olds.now ≡ length news.keys.now }
    ensures turns { IfOk result (λ turns. (old new : KeyOf → List RowOfTable) → olds.now ≡ map old news.entry.keys.now
        → news.entry.rows.now ≡ map new news.entry.keys.now
        → AreTurns style.now bounds.now news.entry.keys.now old new (has due.old) (has due.new) turns) }
    ensures count { IfOk result (λ turns. length turns.turned.items ≡ length news.entry.keys.now) }
{
    let keys = news.keys;
    let rows = news.rows;
    let mut changes = RowChanges::new(alloc);
    let mut turned = Vec::with_capacity(alloc, keys.len())?;
    let mut batch = TileRuns::new(alloc);
    for index in 0..keys.len() {
        let old = olds[index].as_slice();
        let new = rows[index].as_slice();
        let here = turn_key(
            alloc,
            style,
            bounds,
            &mut changes,
            &mut batch,
            keys[index],
            old,
            new,
        )?;
        turned.push(here)?;
        unite_batch(alloc, due, &mut batch)?;
    }
    union(alloc, due, &batch)?;
    Ok(Turns { changes, turned })
}
