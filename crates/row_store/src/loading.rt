//! The rows of all objects of a store, or those of one table, read whole.
ghost use Rattle.std.specs.Prelude.{◌≡◌, ◌⊎◌, ◌<◌, ◌≤◌, ◌%◌, ℕ, List, Ok, Err, None, Some, false, IfErr, IfSome, IsNone, IsSome, IsTrue, OnOk, IfOk, if◌then◌else◌};
ghost use Rattle.std.specs.List.{AllByRecursion};
ghost use Rattle.std.specs.FinMap as finite;
ghost use Rattle.osm_base.specs.values.Key.{IsId};
ghost use Rattle.value_bytes.specs.declared.fault.ValueFault.TheVariants as faults;
ghost use Rattle.bucket_store.specs.Image.{Has, Image, IsSoundAnswer};
ghost use Rattle.bucket_store.specs.Transaction.{IsReady};
ghost use Rattle.row_store.specs.Loading.{Among, AreRowsOf, Fills, HasOnlyRows, IsTold, Looks, LooksWithin, RowsBySpot, TellsRows, is_wanted, key_of, with_all, with_wanted};
ghost use Rattle.value_bytes.specs.StoreMap.{map_number};
ghost use Rattle.value_bytes.specs.declared.store_map.StoreMap.TheVariants.{NodeRows, OtherRows};

use crate::filling::Filled;
use crate::read_rows;
use crate::sorted::Gathered;
use bucket_records::Records;
use bucket_store::{Buckets, refuse_value};
use osm_base::{Bytes, Key, Kind, MAX_ID, OutOfMemory, Spot, TableRow, TableRows, Tables};
use outside::Disk;
use page_journal::StoreFault;
use std::alloc::Global;
use store_maps::SortedRows;
use style_read::Style;
use value_bytes::{StoreMap, ValueFault};

/// Puts the rows that the store has, of all tables or of one, among those that are there.
pub fn load<D: Disk>(
    alloc: Global,
    buckets: &mut Buckets<'_, D>,
    style: &Style,
    wanted: Option<u32>,
    tables: &mut Tables,
) -> Result<(), StoreFault>
    requires ready { IsReady buckets.old }
    ensures nodes { OnOk result ((rest now : Image) (rows : RowsBySpot) → Has rest now buckets.old
        → TellsRows style.now.tables wanted NodeRows rows now → TellsRows style.now.tables wanted OtherRows rows now
        → Fills (map_number NodeRows) rows (λ n. IsSome (finite.get (now.maps (map_number NodeRows)) n)) tables.old tables.new) }
    ensures others { OnOk result ((rest now : Image) (rows : RowsBySpot) → Has rest now buckets.old
        → TellsRows style.now.tables wanted NodeRows rows now → TellsRows style.now.tables wanted OtherRows rows now
        → Fills (map_number OtherRows) rows (λ n. IsSome (finite.get (now.maps (map_number OtherRows)) n)) tables.old tables.new) }
    // A record that does not spell rows is a refusal, and is never passed over.
    ensures spelled { OnOk result ((rest now : Image) → Has rest now buckets.old
        → HasOnlyRows style.now.tables NodeRows now × HasOnlyRows style.now.tables OtherRows now) }
    ensures has { OnOk result ((rest now : Image) → Has rest now buckets.old → Has rest now buckets.new) }
    ensures sound { (rest now : Image) (rows : RowsBySpot) → Has rest now buckets.old
        → TellsRows style.now.tables wanted NodeRows rows now → TellsRows style.now.tables wanted OtherRows rows now
        → IsSoundAnswer result }
    ensures looks { Looks buckets.old buckets.new result }
{
    add_maps(alloc, buckets, style, wanted, tables)
}

/// The rows that the store has, of all tables or of one, in the order of their spots.
pub fn load_sorted<D: Disk>(
    alloc: Global,
    buckets: &mut Buckets<'_, D>,
    style: &Style,
    wanted: Option<u32>,
) -> Result<SortedRows, StoreFault>
    requires ready { IsReady buckets.old }
    ensures nodes { IfOk result (λ found. (rest now : Image) (rows : RowsBySpot) → Has rest now buckets.old
        → TellsRows style.now.tables wanted NodeRows rows now → TellsRows style.now.tables wanted OtherRows rows now
        → Fills (map_number NodeRows) rows (λ n. IsSome (finite.get (now.maps (map_number NodeRows)) n)) finite.empty found) }
    ensures others { IfOk result (λ found. (rest now : Image) (rows : RowsBySpot) → Has rest now buckets.old
        → TellsRows style.now.tables wanted NodeRows rows now → TellsRows style.now.tables wanted OtherRows rows now
        → Fills (map_number OtherRows) rows (λ n. IsSome (finite.get (now.maps (map_number OtherRows)) n)) finite.empty found) }
    // A record that does not spell rows is a refusal, and is never passed over.
    ensures spelled { OnOk result ((rest now : Image) → Has rest now buckets.old
        → HasOnlyRows style.now.tables NodeRows now × HasOnlyRows style.now.tables OtherRows now) }
    ensures has { OnOk result ((rest now : Image) → Has rest now buckets.old → Has rest now buckets.new) }
    ensures sound { (rest now : Image) (rows : RowsBySpot) → Has rest now buckets.old
        → TellsRows style.now.tables wanted NodeRows rows now → TellsRows style.now.tables wanted OtherRows rows now
        → IsSoundAnswer result }
    ensures looks { Looks buckets.old buckets.new result }
{
    let mut gathered = Gathered::new(alloc);
    if let Err(fault) = add_maps(alloc, buckets, style, wanted, &mut gathered) {
        return Err(fault);
    }
    match gathered.sorted(alloc) {
        Ok(rows) => Ok(rows),
        Err(_) => {
            buckets.refuse();
            Err(StoreFault::OutOfMemory)
        }
    }
}

// Puts the rows of both maps among those that are there.
fn add_maps<D: Disk, F: Filled>(
    alloc: Global,
    buckets: &mut Buckets<'_, D>,
    style: &Style,
    wanted: Option<u32>,
    tables: &mut F,
) -> Result<(), StoreFault>
    requires ready { IsReady buckets.old }
    ensures nodes { OnOk result ((rest now : Image) (rows : RowsBySpot) → Has rest now buckets.old
        → TellsRows style.now.tables wanted NodeRows rows now → TellsRows style.now.tables wanted OtherRows rows now
        → Fills (map_number NodeRows) rows (λ n. IsSome (finite.get (now.maps (map_number NodeRows)) n)) (F.tables tables.old) (F.tables tables.new)) }
    ensures others { OnOk result ((rest now : Image) (rows : RowsBySpot) → Has rest now buckets.old
        → TellsRows style.now.tables wanted NodeRows rows now → TellsRows style.now.tables wanted OtherRows rows now
        → Fills (map_number OtherRows) rows (λ n. IsSome (finite.get (now.maps (map_number OtherRows)) n)) (F.tables tables.old) (F.tables tables.new)) }
    // A record that does not spell rows is a refusal, and is never passed over.
    ensures spelled { OnOk result ((rest now : Image) → Has rest now buckets.old
        → HasOnlyRows style.now.tables NodeRows now × HasOnlyRows style.now.tables OtherRows now) }
    ensures sound { (rest now : Image) (rows : RowsBySpot) → Has rest now buckets.old
        → TellsRows style.now.tables wanted NodeRows rows now → TellsRows style.now.tables wanted OtherRows rows now
        → IsSoundAnswer result }
    ensures looks { LooksWithin buckets.old buckets.new result }
{
    if let Err(fault) = add_map(alloc, buckets, style, wanted, StoreMap::NodeRows, tables) {
        return Err(fault);
    }
    match add_map(alloc, buckets, style, wanted, StoreMap::OtherRows, tables) {
        Ok(()) => Ok(()),
        Err(fault) => Err(fault),
    }
}

// Puts the rows of a map among those that are there.
fn add_map<D: Disk, F: Filled>(
    alloc: Global,
    buckets: &mut Buckets<'_, D>,
    style: &Style,
    wanted: Option<u32>,
    map: StoreMap,
    tables: &mut F,
) -> Result<(), StoreFault>
    requires ready { IsReady buckets.old }
    ensures filled { OnOk result ((rest now : Image) (rows : RowsBySpot) → Has rest now buckets.old
        → TellsRows style.now.tables wanted map rows now
        → Fills (map_number map) rows (λ n. IsSome (finite.get (now.maps (map_number map)) n)) (F.tables tables.old) (F.tables tables.new)) }
    ensures spelled { OnOk result ((rest now : Image) → Has rest now buckets.old → HasOnlyRows style.now.tables map now) }
    ensures sound { (rest now : Image) (rows : RowsBySpot) → Has rest now buckets.old
        → TellsRows style.now.tables wanted map rows now → IsSoundAnswer result }
    ensures looks { LooksWithin buckets.old buckets.new result }
{
    let count = buckets.root().buckets;
    let mut bucket = 0;
    while bucket < count {
        if let Err(fault) = add_bucket(alloc, buckets, style, wanted, map, bucket, tables) {
            return Err(fault);
        }
        bucket += 1;
    }
    Ok(())
}

// Puts the rows of a bucket of a map among those that are there.
fn add_bucket<D: Disk, F: Filled>(
    alloc: Global,
    buckets: &mut Buckets<'_, D>,
    style: &Style,
    wanted: Option<u32>,
    map: StoreMap,
    bucket: u64,
    tables: &mut F,
) -> Result<(), StoreFault>
    requires ready { IsReady buckets.old }
    ensures filled { OnOk result ((rest now : Image) (rows : RowsBySpot) → Has rest now buckets.old
        → TellsRows style.now.tables wanted map rows now
        → Fills (map_number map) rows (λ n. IsSome (finite.get (now.maps (map_number map)) n) × (n % now.root.buckets ≡ bucket % now.root.buckets)) (F.tables tables.old) (F.tables tables.new)) }
    ensures spelled { OnOk result ((rest now : Image) → Has rest now buckets.old → (number : ℕ) (bytes : List ℕ)
        → finite.get (now.maps (map_number map)) number ≡ Some bytes → number % now.root.buckets ≡ bucket % now.root.buckets
        → AreRowsOf style.now.tables (map_number map) number bytes) }
    ensures sound { (rest now : Image) (rows : RowsBySpot) → Has rest now buckets.old
        → TellsRows style.now.tables wanted map rows now → IsSoundAnswer result }
    ensures looks { LooksWithin buckets.old buckets.new result }
{
    if buckets.is_bare(map, bucket) {
        return Ok(());
    }
    if let Err(fault) = buckets.bring(map, bucket) {
        return Err(fault);
    }
    let read = match buckets.lent(map, bucket) {
        Some(records) => add_lent(alloc, style, wanted, map, records, tables),
        None => return add_copied(alloc, buckets, style, wanted, map, bucket, tables),
    };
    match read {
        Ok(()) => Ok(()),
        Err(fault) => Err(refuse_value(buckets, map, bucket, fault)),
    }
}

// Puts the rows of a bucket of a map among those that are there, out of copies of its records.
fn add_copied<D: Disk, F: Filled>(
    alloc: Global,
    buckets: &mut Buckets<'_, D>,
    style: &Style,
    wanted: Option<u32>,
    map: StoreMap,
    bucket: u64,
    tables: &mut F,
) -> Result<(), StoreFault>
    requires ready { IsReady buckets.old }
    ensures filled { OnOk result ((rest now : Image) (rows : RowsBySpot) → Has rest now buckets.old
        → TellsRows style.now.tables wanted map rows now
        → Fills (map_number map) rows (λ n. IsSome (finite.get (now.maps (map_number map)) n) × (n % now.root.buckets ≡ bucket % now.root.buckets)) (F.tables tables.old) (F.tables tables.new)) }
    ensures spelled { OnOk result ((rest now : Image) → Has rest now buckets.old → (number : ℕ) (bytes : List ℕ)
        → finite.get (now.maps (map_number map)) number ≡ Some bytes → number % now.root.buckets ≡ bucket % now.root.buckets
        → AreRowsOf style.now.tables (map_number map) number bytes) }
    ensures sound { (rest now : Image) (rows : RowsBySpot) → Has rest now buckets.old
        → TellsRows style.now.tables wanted map rows now → IsSoundAnswer result }
    ensures looks { LooksWithin buckets.old buckets.new result }
{
    let records = match buckets.records(map, bucket) {
        Ok(records) => records,
        Err(fault) => return Err(fault),
    };
    match add_records(alloc, style, wanted, map, records.as_slice(), tables) {
        Ok(()) => Ok(()),
        Err(fault) => Err(refuse_value(buckets, map, bucket, fault)),
    }
}

// Puts the rows that these records tell among those that are there.
fn add_records<F: Filled>(
    alloc: Global,
    style: &Style,
    wanted: Option<u32>,
    map: StoreMap,
    records: &[(u64, Bytes)],
    tables: &mut F,
) -> Result<(), ValueFault>
    ensures filled { OnOk result ((rows : RowsBySpot) → AllByRecursion (λ one. IsTold style.now.tables wanted (map_number map) rows one.0 one.1) records.now
        → Fills (map_number map) rows (Among records.now) (F.tables tables.old) (F.tables tables.new)) }
    ensures spelled { OnOk result (AllByRecursion (λ one. AreRowsOf style.now.tables (map_number map) one.0 one.1) records.now) }
    ensures sound { (rows : RowsBySpot) → AllByRecursion (λ one. IsTold style.now.tables wanted (map_number map) rows one.0 one.1) records.now
        → IfErr result (λ fault. fault ≡ faults.OutOfMemory) }
{
    for (number, bytes) in records {
        if let Err(fault) = add_record(
            alloc,
            style,
            wanted,
            map,
            *number,
            bytes.as_slice(),
            tables,
        ) {
            return Err(fault);
        }
    }
    Ok(())
}

// Puts the rows that the records of a bucket tell, where they lie in it, among those that are there.
fn add_lent<F: Filled>(
    alloc: Global,
    style: &Style,
    wanted: Option<u32>,
    map: StoreMap,
    records: &Records,
    tables: &mut F,
) -> Result<(), ValueFault>
    ensures filled { OnOk result ((rows : RowsBySpot) → AllByRecursion (λ one. IsTold style.now.tables wanted (map_number map) rows one.0 one.1) records.now
        → Fills (map_number map) rows (Among records.now) (F.tables tables.old) (F.tables tables.new)) }
    ensures spelled { OnOk result (AllByRecursion (λ one. AreRowsOf style.now.tables (map_number map) one.0 one.1) records.now) }
    ensures sound { (rows : RowsBySpot) → AllByRecursion (λ one. IsTold style.now.tables wanted (map_number map) rows one.0 one.1) records.now
        → IfErr result (λ fault. fault ≡ faults.OutOfMemory) }
{
    let (mut place, mut rest) = records.at_mark(0);
    while place < records.len() {
        let (number, bytes, behind) = records.front(place, rest);
        if let Err(fault) = add_record(alloc, style, wanted, map, number, bytes, tables) {
            return Err(fault);
        }
        rest = behind;
        place += 1;
    }
    Ok(())
}

// Puts the rows that a record tells among those that are there.
fn add_record<F: Filled>(
    alloc: Global,
    style: &Style,
    wanted: Option<u32>,
    map: StoreMap,
    number: u64,
    bytes: &[u8],
    tables: &mut F,
) -> Result<(), ValueFault>
    ensures filled { OnOk result ((rows : RowsBySpot) → IsTold style.now.tables wanted (map_number map) rows number bytes.now
        → Fills (map_number map) rows (λ n. number ≡ n) (F.tables tables.old) (F.tables tables.new)) }
    ensures spelled { OnOk result (AreRowsOf style.now.tables (map_number map) number bytes.now) }
    ensures sound { (rows : RowsBySpot) → IsTold style.now.tables wanted (map_number map) rows number bytes.now → IfErr result (λ fault. fault ≡ faults.OutOfMemory) }
{
    let Some(key) = key_of(map, number) else {
        return Err(ValueFault::NotSpelled);
    };
    let rows = match read_rows(alloc, style, bytes) {
        Ok(rows) => rows,
        Err(fault) => return Err(fault),
    };
    match add_rows(tables, wanted, key, rows) {
        Ok(()) => Ok(()),
        Err(_) => Err(ValueFault::OutOfMemory),
    }
}

// Puts the wanted ones of a key's rows among those that are there. The first of a table stays.
fn add_rows<F: Filled>(
    tables: &mut F,
    wanted: Option<u32>,
    key: Key,
    rows: TableRows,
) -> Result<(), OutOfMemory>
    ensures ok { OnOk result (F.tables tables.new ≡ with_all wanted key rows (F.tables tables.old)) }
{
    let mut rows = rows.into_vec();
    while let Some(row) = rows.pop() {
        add_row(tables, wanted, key, row)?;
    }
    Ok(())
}

// Puts a key's row among those that are there, if it is wanted.
fn add_row<F: Filled>(
    tables: &mut F,
    wanted: Option<u32>,
    key: Key,
    row: TableRow,
) -> Result<(), OutOfMemory>
    ensures ok { OnOk result (F.tables tables.new ≡ with_wanted wanted key row (F.tables tables.old)) }
{
    let TableRow { table, row } = row;
    if !is_wanted(wanted, table) {
        return Ok(());
    }
    tables.put(Spot { table, key }, row)
}

// Whether the rows of a table are wanted.
fn is_wanted(wanted: Option<u32>, table: u32) -> bool
    ensures { result ≡ is_wanted wanted table }
{
    match wanted {
        None => true,
        Some(one) => one == table,
    }
}

// The key whose rows a map has under a number. `None`: no key has that id.
fn key_of(map: StoreMap, number: u64) -> Option<Key>
    ensures key { IfSome result (λ key. key ≡ key_of (map_number map) number) }
    ensures id { IfSome result (λ _. IsId (key_of (map_number map) number).id) }
    ensures none { IsNone result → IsId (key_of (map_number map) number).id → ⊥ }
{
    let (kind, id) = if matches!(map, StoreMap::NodeRows) {
        (Kind::Node, number)
    } else if number % 2 == 0 {
        (Kind::Way, number / 2)
    } else {
        (Kind::Relation, number / 2)
    };
    if id >= 1 && id <= MAX_ID {
        Some(Key::new(kind, id))
    } else {
        None
    }
}
