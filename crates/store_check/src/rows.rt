//! The rows of a store, maps 6 and 7, are compared with those of an import of its objects.
ghost use Rattle.std.specs.Prelude.{◌≤◌};
ghost use Rattle.object_fold.specs.Listings.{HasIds};
ghost use Rattle.value_bytes.specs.StoreMap.{map_number};
ghost use Rattle.value_bytes.specs.declared.store_map.StoreMap.TheVariants as stored;
ghost use Rattle.store_check.specs.Held.{IsHeldOf};
ghost use Rattle.store_check.specs.Judged.{IsOfBoth, IsOfBucket, IsOfBuckets, SeesHeld, rows_map};
ghost use Rattle.store_check.specs.Finds.{Finds};
ghost use Rattle.store_check.specs.Values.{NodeMap, ObjectMap, ReadsObjects, objects_of};
ghost use Rattle.store_check.specs.Wrong.{IsLeast, IsRightIn};

use crate::held::Held;
use crate::least::Least;
use crate::reading::Reading;
use crate::row_records::judge_records;
use crate::row_source::RowSource;
use outside::Disk;
use page_journal::StoreFault;
use std::alloc::Global;
use style_read::Style;
use value_bytes::StoreMap;

/// The least key of a map of rows whose rows are not those that an import of the objects makes. A bucket of objects and its buckets of
/// rows are in memory at a time.
pub(crate) fn first_wrong_rows<D: Disk>(
    alloc: Global,
    reading: &mut Reading<'_, '_, D>,
    style: &Style,
    map: StoreMap,
    held: &Held,
) -> Result<Option<u64>, StoreFault>
    requires rows { 6 ≤ map_number map }
    ensures least { Finds reading.old reading.new result (λ rest found.
        (nodes : NodeMap) (ways relations : ObjectMap) → ReadsObjects rest nodes ways relations → HasIds (objects_of nodes ways relations)
        → IsHeldOf nodes ways relations held.now → IsLeast (IsRightIn style.now rest nodes ways relations map) found) }
{
    let count = reading.bucket_count();
    let mut wrong = Least::new();
    let mut bucket = 0;
    while bucket < count {
        if let Err(fault) = judge_buckets(alloc, reading, style, held, map, bucket, &mut wrong) {
            return Err(fault);
        }
        bucket += 1;
    }
    Ok(wrong.key())
}

/// Judges the rows of a bucket of each map that goes with a map of rows.
fn judge_buckets<D: Disk>(
    alloc: Global,
    reading: &mut Reading<'_, '_, D>,
    style: &Style,
    held: &Held,
    map: StoreMap,
    bucket: u64,
    wrong: &mut Least,
) -> Result<(), StoreFault>
    requires rows { 6 ≤ map_number map }
    ensures sees { Finds reading.old reading.new result (λ rest done.
        SeesHeld style.now held.now rest map (IsOfBuckets map rest bucket) wrong.old wrong.new) }
{
    match map {
        StoreMap::NodeRows => judge_nodes(alloc, reading, style, held, bucket, wrong),
        _ => judge_others(alloc, reading, style, held, bucket, wrong),
    }
}

/// Judges the rows of a bucket of nodes.
fn judge_nodes<D: Disk>(
    alloc: Global,
    reading: &mut Reading<'_, '_, D>,
    style: &Style,
    held: &Held,
    bucket: u64,
    wrong: &mut Least,
) -> Result<(), StoreFault>
    ensures sees { Finds reading.old reading.new result (λ rest done.
        SeesHeld style.now held.now rest stored.NodeRows (IsOfBuckets stored.NodeRows rest bucket) wrong.old wrong.new) }
{
    if let Err(fault) = judge_bucket(
        alloc,
        reading,
        style,
        held,
        RowSource {
            map: StoreMap::Nodes,
        },
        bucket,
        wrong,
    ) {
        return Err(fault);
    }
    match judge_apart(
        alloc,
        reading,
        style,
        held,
        RowSource {
            map: StoreMap::NodeRows,
        },
        bucket,
        wrong,
    ) {
        Ok(()) => Ok(()),
        Err(fault) => Err(fault),
    }
}

/// Judges the rows of a bucket of ways and one of relations, and those of a bucket of rows that have no object.
fn judge_others<D: Disk>(
    alloc: Global,
    reading: &mut Reading<'_, '_, D>,
    style: &Style,
    held: &Held,
    bucket: u64,
    wrong: &mut Least,
) -> Result<(), StoreFault>
    ensures sees { Finds reading.old reading.new result (λ rest done.
        SeesHeld style.now held.now rest stored.OtherRows (IsOfBuckets stored.OtherRows rest bucket) wrong.old wrong.new) }
{
    if let Err(fault) = judge_objects(alloc, reading, style, held, bucket, wrong) {
        return Err(fault);
    }
    match judge_apart(
        alloc,
        reading,
        style,
        held,
        RowSource {
            map: StoreMap::OtherRows,
        },
        bucket,
        wrong,
    ) {
        Ok(()) => Ok(()),
        Err(fault) => Err(fault),
    }
}

/// Judges the rows of a bucket of ways and one of relations.
fn judge_objects<D: Disk>(
    alloc: Global,
    reading: &mut Reading<'_, '_, D>,
    style: &Style,
    held: &Held,
    bucket: u64,
    wrong: &mut Least,
) -> Result<(), StoreFault>
    ensures sees { Finds reading.old reading.new result (λ rest done.
        SeesHeld style.now held.now rest stored.OtherRows (IsOfBoth rest bucket) wrong.old wrong.new) }
{
    if let Err(fault) = judge_apart(
        alloc,
        reading,
        style,
        held,
        RowSource {
            map: StoreMap::Ways,
        },
        bucket,
        wrong,
    ) {
        return Err(fault);
    }
    match judge_apart(
        alloc,
        reading,
        style,
        held,
        RowSource {
            map: StoreMap::Relations,
        },
        bucket,
        wrong,
    ) {
        Ok(()) => Ok(()),
        Err(fault) => Err(fault),
    }
}

/// Judges the rows of a bucket of a map of objects, or those of a bucket of rows that have no object. What was read is forgotten then.
fn judge_apart<D: Disk>(
    alloc: Global,
    reading: &mut Reading<'_, '_, D>,
    style: &Style,
    held: &Held,
    source: RowSource,
    bucket: u64,
    wrong: &mut Least,
) -> Result<(), StoreFault>
    ensures sees { Finds reading.old reading.new result (λ rest done.
        SeesHeld style.now held.now rest (rows_map source.map) (IsOfBucket source.map rest bucket) wrong.old wrong.new) }
{
    match judge_bucket(alloc, reading, style, held, source, bucket, wrong) {
        Ok(()) => {
            reading.forget();
            Ok(())
        }
        Err(fault) => Err(fault),
    }
}

/// Judges the rows of a bucket of a map of objects, or those of a bucket of rows that have no object.
fn judge_bucket<D: Disk>(
    alloc: Global,
    reading: &mut Reading<'_, '_, D>,
    style: &Style,
    held: &Held,
    source: RowSource,
    bucket: u64,
    wrong: &mut Least,
) -> Result<(), StoreFault>
    ensures sees { Finds reading.old reading.new result (λ rest done.
        SeesHeld style.now held.now rest (rows_map source.map) (IsOfBucket source.map rest bucket) wrong.old wrong.new) }
{
    let records = match reading.records(source.map, bucket) {
        Ok(records) => records,
        Err(fault) => return Err(fault),
    };
    match judge_records(
        alloc,
        reading,
        style,
        held,
        source,
        records.as_slice(),
        wrong,
    ) {
        Ok(()) => Ok(()),
        Err(fault) => Err(fault),
    }
}
