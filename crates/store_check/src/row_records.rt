//! The rows of a store are judged, a key at a time, and the least wrong key is noted.
ghost use Rattle.std.specs.Prelude.{◌≡◌, ◌↔◌, ℕ, List, Some, false, true, IfOk, IsTrue, is_some};
ghost use Rattle.std.specs.FinMap as finite;
ghost use Rattle.std.specs.List.{AllByRecursion};
ghost use Rattle.style_read.specs.Style.{StyleOf};
ghost use Rattle.value_bytes.specs.StoreMap.{map_number};
ghost use Rattle.value_bytes.specs.declared.store_map.StoreMap.TheVariants as stored;
ghost use Rattle.bucket_store.specs.Image.{Has, Image};
ghost use Rattle.store_maps.specs.Asked.{object_map, row_key, row_map};
ghost use Rattle.store_check.specs.Held.{HeldOf};
ghost use Rattle.store_check.specs.Judged.{IsAmong, IsAsked, IsFound, IsOne, SeesRows, is_node_rows, kind_kept, Tells, other_at, rows_key, rows_map};
ghost use Rattle.store_check.specs.Finds.{Finds};
ghost use Rattle.store_check.specs.Values.{NodeMap, ObjectMap, objects_of};
ghost use Rattle.store_check.specs.Wrong.{IsRightIn};

use crate::held::Held;
use crate::least::Least;
use crate::reading::Reading;
use crate::row_judge::{is_right_node, is_right_other};
use crate::row_source::RowSource;
use osm_base::{Bytes, Key, Kind, MAX_ID, OutOfMemory};
use outside::Disk;
use page_journal::StoreFault;
use std::alloc::Global;
use style_read::Style;
use value_bytes::StoreMap;

/// Judges the rows of these records of a map of objects, or these of a map of rows that have no object.
pub(crate) fn judge_records<D: Disk>(
    alloc: Global,
    reading: &mut Reading<'_, '_, D>,
    style: &Style,
    held: &Held,
    source: RowSource,
    records: &[(u64, Bytes)],
    wrong: &mut Least,
) -> Result<(), StoreFault>
    ensures sees { Finds reading.old reading.new result (λ rest done.
        (nodes : NodeMap) (ways relations : ObjectMap)
        → Tells held.now rest nodes ways relations
        → AllByRecursion (λ one. finite.get (rest.maps (map_number source.map)) one.0 ≡ Some one.1) records.now
        → SeesRows style.now rest nodes ways relations (rows_map source.map) (IsAmong source.map records.now) wrong.old wrong.new) }
{
    for (number, bytes) in records {
        if let Err(fault) = judge_record(
            alloc,
            reading,
            style,
            held,
            source,
            *number,
            bytes.as_slice(),
            wrong,
        ) {
            return Err(fault);
        }
    }
    Ok(())
}

/// Judges the rows of a record of a map of objects, or those of a record of a map of rows that has no object.
fn judge_record<D: Disk>(
    alloc: Global,
    reading: &mut Reading<'_, '_, D>,
    style: &Style,
    held: &Held,
    source: RowSource,
    number: u64,
    bytes: &[u8],
    wrong: &mut Least,
) -> Result<(), StoreFault>
    ensures sees { Finds reading.old reading.new result (λ rest done.
        (nodes : NodeMap) (ways relations : ObjectMap)
        → Tells held.now rest nodes ways relations → finite.get (rest.maps (map_number source.map)) number ≡ Some bytes.now
        → SeesRows style.now rest nodes ways relations (rows_map source.map) (IsOne source.map number) wrong.old wrong.new) }
{
    match wrong_key(alloc, reading, style, held, source, number, bytes) {
        Ok(Some(key)) => {
            wrong.see(key, false);
            Ok(())
        }
        Ok(None) => Ok(()),
        Err(fault) => Err(fault),
    }
}

/// The key of the rows of a record, if they are wrong.
fn wrong_key<D: Disk>(
    alloc: Global,
    reading: &mut Reading<'_, '_, D>,
    style: &Style,
    held: &Held,
    source: RowSource,
    number: u64,
    bytes: &[u8],
) -> Result<Option<u64>, StoreFault>
    ensures found { Finds reading.old reading.new result (λ rest found.
        (nodes : NodeMap) (ways relations : ObjectMap)
        → Tells held.now rest nodes ways relations → finite.get (rest.maps (map_number source.map)) number ≡ Some bytes.now
        → IsFound (IsRightIn style.now rest nodes ways relations (rows_map source.map)) (IsAsked (objects_of nodes ways relations) source.map number)
        (rows_key source.map number) found) }
{
    match kind_of(source.map) {
        Some(kind) => match wrong_of_object(alloc, reading, style, held, kind, number, bytes) {
            Ok(found) => Ok(found),
            Err(fault) => Err(fault),
        },
        None => match wrong_of_rows(reading, held, source.map, number) {
            Ok(found) => Ok(found),
            Err(fault) => Err(fault),
        },
    }
}

/// The key of the rows of an object, if they are wrong, where these bytes are what is kept of it.
fn wrong_of_object<D: Disk>(
    alloc: Global,
    reading: &mut Reading<'_, '_, D>,
    style: &Style,
    held: &Held,
    kind: Kind,
    id: u64,
    bytes: &[u8],
) -> Result<Option<u64>, StoreFault>
    ensures found { Finds reading.old reading.new result (λ rest found.
        (nodes : NodeMap) (ways relations : ObjectMap)
        → Tells held.now rest nodes ways relations → finite.get (rest.maps (map_number (object_map kind))) id ≡ Some bytes.now
        → IsFound (IsRightIn style.now rest nodes ways relations (row_map kind)) (Unit {0}) (row_key kind id) found) }
{
    if id < 1 {
        return Ok(None);
    }
    if id > MAX_ID {
        return Ok(None);
    }
    match wrong_of_key(alloc, reading, style, held, Key::new(kind, id), bytes) {
        Ok(found) => Ok(found),
        Err(fault) => Err(fault),
    }
}

/// The key of the rows of a key, if they are wrong, where these bytes are what is kept of its object.
fn wrong_of_key<D: Disk>(
    alloc: Global,
    reading: &mut Reading<'_, '_, D>,
    style: &Style,
    held: &Held,
    key: Key,
    bytes: &[u8],
) -> Result<Option<u64>, StoreFault>
    ensures found { Finds reading.old reading.new result (λ rest found.
        (nodes : NodeMap) (ways relations : ObjectMap)
        → Tells held.now rest nodes ways relations → finite.get (rest.maps (map_number (object_map key.kind))) key.id ≡ Some bytes.now
        → IsFound (IsRightIn style.now rest nodes ways relations (row_map key.kind)) (Unit {0}) (row_key key.kind key.id) found) }
{
    let number = row_key(key);
    let kept = match reading.get(row_map(key.kind), number) {
        Ok(kept) => kept,
        Err(fault) => return Err(fault),
    };
    match is_right(alloc, style, held, key, bytes, &kept) {
        Ok(true) => Ok(None),
        Ok(false) => Ok(Some(number)),
        Err(_) => Err(StoreFault::OutOfMemory),
    }
}

/// Whether what is kept of the rows of an object is right, where these bytes are what is kept of it.
fn is_right(
    alloc: Global,
    style: &Style,
    held: &Held,
    key: Key,
    bytes: &[u8],
    kept: &Option<Bytes>,
) -> Result<bool, OutOfMemory>
    ensures right { IfOk result (λ right. (rest : Image) (nodes : NodeMap) (ways relations : ObjectMap)
        → Tells held.now rest nodes ways relations → finite.get (rest.maps (map_number (object_map key.kind))) key.id ≡ Some bytes.now
        → kept.now ≡ finite.get (rest.maps (map_number (row_map key.kind))) (row_key key.kind key.id)
        → (IsTrue right ↔ IsRightIn style.now rest nodes ways relations (row_map key.kind) (row_key key.kind key.id))) }
{
    match key.kind {
        Kind::Node => Ok(is_right_node(alloc, style, held, key, bytes, kept)?),
        Kind::Way => Ok(is_right_other(alloc, style, held, key, kept)?),
        Kind::Relation => Ok(is_right_other(alloc, style, held, key, kept)?),
    }
}

/// A key of rows, which are kept, if it has no object.
fn wrong_of_rows<D: Disk>(
    reading: &mut Reading<'_, '_, D>,
    held: &Held,
    map: StoreMap,
    number: u64,
) -> Result<Option<u64>, StoreFault>
    ensures nodes { is_node_rows map ≡ true → IfOk result (λ found. (rest : Image) → Has rest rest reading.old.buckets.now → (style : StyleOf)
        (nodes : NodeMap) (ways relations : ObjectMap) → Tells held.now rest nodes ways relations → (bytes : List ℕ)
        → finite.get (rest.maps (map_number stored.NodeRows)) number ≡ Some bytes
        → IsFound (IsRightIn style rest nodes ways relations stored.NodeRows) (IsAsked (objects_of nodes ways relations) stored.NodeRows number)
        number found) }
    ensures others { Finds reading.old reading.new result (λ rest found.
        is_node_rows map ≡ false → (style : StyleOf)
        (nodes : NodeMap) (ways relations : ObjectMap) → Tells held.now rest nodes ways relations → (bytes : List ℕ)
        → finite.get (rest.maps (map_number stored.OtherRows)) number ≡ Some bytes
        → IsFound (IsRightIn style rest nodes ways relations stored.OtherRows) (IsAsked (objects_of nodes ways relations) stored.OtherRows number)
        number found) }
{
    if !is_node_rows(map) {
        return Ok(wrong_of_none(held, number));
    }
    match wrong_of_no_node(reading, number) {
        Ok(found) => Ok(found),
        Err(fault) => Err(fault),
    }
}

/// The key of rows of a node, which are kept, if there is no such node.
fn wrong_of_no_node<D: Disk>(
    reading: &mut Reading<'_, '_, D>,
    id: u64,
) -> Result<Option<u64>, StoreFault>
    ensures found { Finds reading.old reading.new result (λ rest found.
        (style : StyleOf) (own : HeldOf) (nodes : NodeMap)
        (ways relations : ObjectMap) → Tells own rest nodes ways relations → (bytes : List ℕ)
        → finite.get (rest.maps (map_number stored.NodeRows)) id ≡ Some bytes
        → IsFound (IsRightIn style rest nodes ways relations stored.NodeRows) (IsAsked (objects_of nodes ways relations) stored.NodeRows id) id found) }
{
    match reading.get(StoreMap::Nodes, id) {
        Ok(Some(_)) => Ok(None),
        Ok(None) => Ok(Some(id)),
        Err(fault) => Err(fault),
    }
}

/// The key of rows of a way or a relation, which are kept, if there is no such object.
fn wrong_of_none(held: &Held, number: u64) -> Option<u64>
    ensures found { (style : StyleOf) (rest : Image) (nodes : NodeMap) (ways relations : ObjectMap) → Tells held.now rest nodes ways relations
        → (bytes : List ℕ) → finite.get (rest.maps (map_number stored.OtherRows)) number ≡ Some bytes
        → IsFound (IsRightIn style rest nodes ways relations stored.OtherRows) (IsAsked (objects_of nodes ways relations) stored.OtherRows number)
        number result }
{
    if has_other(held, number) {
        None
    } else {
        Some(number)
    }
}

/// Whether the way or the relation is there whose rows have this key.
fn has_other(held: &Held, number: u64) -> bool
    ensures there { result ≡ is_some (other_at held.now number) }
{
    let id = number / 2;
    if number % 2 == 0 {
        held.ways.contains_key(&id)
    } else {
        held.relations.contains_key(&id)
    }
}

/// The kind of the objects of a map.
fn kind_of(map: StoreMap) -> Option<Kind>
    ensures kind { result ≡ kind_kept map }
{
    match map {
        StoreMap::Nodes => Some(Kind::Node),
        StoreMap::Ways => Some(Kind::Way),
        StoreMap::Relations => Some(Kind::Relation),
        _ => None,
    }
}

/// Whether a map has the rows of nodes.
fn is_node_rows(map: StoreMap) -> bool
    ensures is { result ≡ is_node_rows map }
{
    matches!(map, StoreMap::NodeRows)
}

/// The map of the rows of objects of a kind.
fn row_map(kind: Kind) -> StoreMap
    ensures map { result ≡ row_map kind }
{
    if matches!(kind, Kind::Node) {
        StoreMap::NodeRows
    } else {
        StoreMap::OtherRows
    }
}

/// The key of the rows of an object.
fn row_key(key: Key) -> u64
    ensures key { result ≡ row_key key.kind key.id }
{
    match key.kind {
        Kind::Node => key.id,
        Kind::Way => 2 * key.id,
        Kind::Relation => 2 * key.id + 1,
    }
}
