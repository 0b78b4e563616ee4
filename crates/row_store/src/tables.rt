//! The rows of tables, put into a store one by one.
ghost use Rattle.std.specs.Prelude.{◌≡◌, None, IfSome, OnOk};
ghost use Rattle.std.specs.Option.{option_map};
ghost use Rattle.bucket_store.specs.Transaction.{IsReady};
ghost use Rattle.bucket_store.specs.Typed.{Touches};
ghost use Rattle.row_store.specs.Maps.{map_of};
ghost use Rattle.row_store.specs.Rows.{rows_bytes};
ghost use Rattle.row_store.specs.Tables.{MaySpell, SetsBytes, SetsRow};
ghost use Rattle.store_maps.specs.Append.{MayKeep};
ghost use Rattle.store_maps.specs.Asked.{row_key};
ghost use Rattle.store_maps.specs.Maps.{unless_empty};
ghost use Rattle.store_maps.specs.Rows.{Fits};

use crate::turning::turned;
use crate::{get, put, remove};
use bucket_store::Buckets;
use osm_base::{Key, Row, Spot, TableRows};
use outside::Disk;
use page_journal::StoreFault;
use std::alloc::Global;
use style_read::Style;

/// Gives a spot this row, or none.
pub fn set_row<D: Disk>(
    alloc: Global,
    buckets: &mut Buckets<'_, D>,
    style: &Style,
    spot: Spot,
    row: Option<Row>,
) -> Result<(), StoreFault>
    requires fits { IfSome row (λ row. Fits style.now.tables (record { table = spot.table; row = row })) }
    requires ready { IsReady buckets.old }
    ensures row { SetsRow style.now.tables spot row buckets.old buckets.new result }
    ensures touches { Touches (map_of spot.key.kind) (row_key spot.key.kind spot.key.id) buckets.old buckets.new result }
{
    let found = match get(alloc, buckets, style, spot.key) {
        Ok(found) => found,
        Err(fault) => return Err(fault),
    };
    let rows = match turned(alloc, found, spot.table, row) {
        Ok(rows) => rows,
        Err(_) => {
            buckets.refuse();
            return Err(StoreFault::OutOfMemory);
        }
    };
    match keep(alloc, buckets, style, spot.key, &rows) {
        Ok(()) => Ok(()),
        Err(fault) => Err(fault),
    }
}

// Gives an object these rows. Where there are none, nothing is kept of it.
fn keep<D: Disk>(
    alloc: Global,
    buckets: &mut Buckets<'_, D>,
    style: &Style,
    key: Key,
    rows: &TableRows,
) -> Result<(), StoreFault>
    requires may { MayKeep style.now.tables rows.now }
    requires ready { IsReady buckets.old }
    ensures bytes { SetsBytes (map_of key.kind) (row_key key.kind key.id) (option_map rows_bytes (unless_empty rows.now)) buckets.old buckets.new result }
    ensures spelled { OnOk result (MaySpell style.now.tables rows.now) }
    ensures touches { Touches (map_of key.kind) (row_key key.kind key.id) buckets.old buckets.new result }
{
    if rows.as_slice().is_empty() {
        return keep_none(buckets, key);
    }
    match put(alloc, buckets, style, key, rows) {
        Ok(()) => Ok(()),
        Err(fault) => Err(fault),
    }
}

// Keeps no rows of an object.
fn keep_none<D: Disk>(buckets: &mut Buckets<'_, D>, key: Key) -> Result<(), StoreFault>
    requires ready { IsReady buckets.old }
    ensures bytes { SetsBytes (map_of key.kind) (row_key key.kind key.id) None buckets.old buckets.new result }
    ensures touches { Touches (map_of key.kind) (row_key key.kind key.id) buckets.old buckets.new result }
{
    match remove(buckets, key) {
        Ok(_) => Ok(()),
        Err(fault) => Err(fault),
    }
}
