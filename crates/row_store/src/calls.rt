//! The rows of objects in a store.
ghost use Rattle.std.specs.Prelude.{◌≡◌, List, ℕ, Ok, Err, IfOk, IfSome, OnOk};
ghost use Rattle.std.specs.Option.{option_copied};
ghost use Rattle.bucket_store.specs.Transaction.{IsOpenStore, IsReady};
ghost use Rattle.bucket_store.specs.Typed.{Gets, GetsValue, ReadsAs, SetsValue, TakesValue, Touches};
ghost use Rattle.row_store.specs.Maps.{map_of};
ghost use Rattle.row_store.specs.Rows.{rows_bytes, AreRows};
ghost use Rattle.store_maps.specs.Asked.{row_key, row_map};
ghost use Rattle.store_maps.specs.Rows.{AreKept};
ghost use Rattle.value_bytes.specs.StoreMap.{map_number};

use crate::{read_rows, rows_bytes};
use bucket_store::{Buckets, refuse_value};
use osm_base::{Key, Kind, TableRows};
use outside::Disk;
use page_journal::StoreFault;
use std::alloc::Global;
use style_read::Style;
use value_bytes::{StoreMap, ValueFault};

/// The rows that the store has of an object, under its style. `None`: none.
pub fn get<D: Disk>(
    alloc: Global,
    buckets: &mut Buckets<'_, D>,
    style: &Style,
    key: Key,
) -> Result<Option<TableRows>, StoreFault>
    requires ready { IsReady buckets.old }
    ensures answers { (pages : List (List ℕ)) → IsOpenStore pages buckets.old
        → Gets rows_bytes (AreRows style.now.tables) pages buckets.old (map_of key.kind) (row_key key.kind key.id) result }
    ensures value { GetsValue rows_bytes (AreRows style.now.tables) (map_of key.kind) (row_key key.kind key.id) buckets.old buckets.new result }
    ensures kept { IfOk result (λ found. IfSome found (AreKept style.now.tables)) }
    ensures touches { Touches (map_of key.kind) (row_key key.kind key.id) buckets.old buckets.new result }
{
    get_from(alloc, buckets, style, row_map(key.kind), row_key(key))
}

/// Sets the rows that the store has of an object.
pub fn put<D: Disk>(
    alloc: Global,
    buckets: &mut Buckets<'_, D>,
    style: &Style,
    key: Key,
    rows: &TableRows,
) -> Result<(), StoreFault>
    requires kept { AreKept style.now.tables rows.now }
    requires ready { IsReady buckets.old }
    ensures value { SetsValue (map_of key.kind) (row_key key.kind key.id) (rows_bytes rows.now) buckets.old buckets.new result }
    ensures are { OnOk result (AreRows style.now.tables rows.now) }
    ensures touches { Touches (map_of key.kind) (row_key key.kind key.id) buckets.old buckets.new result }
{
    match rows_bytes(alloc, style, rows) {
        Ok(bytes) => buckets.put(row_map(key.kind), row_key(key), bytes.as_slice()),
        Err(_) => {
            buckets.refuse();
            Err(StoreFault::OutOfMemory)
        }
    }
}

/// Takes out the rows that the store has of an object, and answers whether there were some.
pub fn remove<D: Disk>(buckets: &mut Buckets<'_, D>, key: Key) -> Result<bool, StoreFault>
    requires ready { IsReady buckets.old }
    ensures value { TakesValue (map_of key.kind) (row_key key.kind key.id) buckets.old buckets.new result }
    ensures touches { Touches (map_of key.kind) (row_key key.kind key.id) buckets.old buckets.new result }
{
    buckets.remove(row_map(key.kind), row_key(key))
}

// The rows that a map has under a number.
fn get_from<D: Disk>(
    alloc: Global,
    buckets: &mut Buckets<'_, D>,
    style: &Style,
    map: StoreMap,
    number: u64,
) -> Result<Option<TableRows>, StoreFault>
    requires ready { IsReady buckets.old }
    ensures answers { (pages : List (List ℕ)) → IsOpenStore pages buckets.old
        → Gets rows_bytes (AreRows style.now.tables) pages buckets.old (map_number map) number result }
    ensures value { GetsValue rows_bytes (AreRows style.now.tables) (map_number map) number buckets.old buckets.new result }
    ensures kept { IfOk result (λ found. IfSome found (AreKept style.now.tables)) }
    ensures touches { Touches (map_number map) number buckets.old buckets.new result }
{
    if let Err(fault) = buckets.bring(map, number) {
        return Err(fault);
    }
    let read = read_bytes(alloc, style, buckets.value(map, number));
    match read {
        Ok(found) => Ok(found),
        Err(fault) => Err(refuse_value(buckets, map, number, fault)),
    }
}

// The map of the rows of objects of a kind.
fn row_map(kind: Kind) -> StoreMap
    ensures { result ≡ row_map kind }
{
    if matches!(kind, Kind::Node) {
        StoreMap::NodeRows
    } else {
        StoreMap::OtherRows
    }
}

// The number of an object in its map.
fn row_key(key: Key) -> u64
    ensures number { result ≡ row_key key.kind key.id }
{
    match key.kind {
        Kind::Node => key.id,
        Kind::Way => 2 * key.id,
        Kind::Relation => 2 * key.id + 1,
    }
}

// The rows with these bytes, if there are any.
fn read_bytes(
    alloc: Global,
    style: &Style,
    bytes: Option<&[u8]>,
) -> Result<Option<TableRows>, ValueFault>
    ensures reads { ReadsAs rows_bytes (AreRows style.now.tables) (option_copied bytes.entry) result }
    ensures kept { IfOk result (λ found. IfSome found (AreKept style.now.tables)) }
{
    match bytes {
        None => Ok(None),
        Some(bytes) => match read_rows(alloc, style, bytes) {
            Ok(rows) => Ok(Some(rows)),
            Err(fault) => Err(fault),
        },
    }
}
