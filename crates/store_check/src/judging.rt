//! A value of maps 0 to 2 is judged, and what is right is held.
ghost use Rattle.std.specs.Prelude.{◌≡◌, ◌≢◌, ◌↔◌, ◌⊎◌, Bool, ℕ, Some, true, IfOk, IsTrue, OnOk};
ghost use Rattle.osm_base.specs.declared.values.key.Kind.TheVariants as kinds;
ghost use Rattle.osm_base.specs.values.Key.{IsId};
ghost use Rattle.value_bytes.specs.Nodes.{record_bytes, IsRecord};
ghost use Rattle.value_bytes.specs.Objects.{object_bytes, IsStored};
ghost use Rattle.bucket_store.specs.Image.{Image};
ghost use Rattle.row_store.specs.Loading.{Among};
ghost use Rattle.store_check.specs.Judging.{AreIn, FindsRight, IsKnownIf, IsRightAt, IsRightOf, Takes, bytes_in};
ghost use Rattle.store_check.specs.Wrong.{IsLeastOf};

use crate::held::Held;
use crate::least::Least;
use osm_base::{Bytes, Kind, MAX_ID, Object, OutOfMemory};
use std::alloc::Global;
use value_bytes::{NodeRecord, ValueFault, read_object, read_whole};

/// Holds the objects of these records of the map of a kind that are right, and sees the keys of those that are not. Where `asked`, the tags of
/// each node have to be known.
pub(crate) fn judge_all(
    alloc: Global,
    asked: bool,
    kind: Kind,
    records: &[(u64, Bytes)],
    held: &mut Held,
    least: &mut Least,
) -> Result<(), OutOfMemory>
    ensures takes { OnOk result ((image : Image) → AreIn image kind records.now
        → Takes asked image kind (Among records.now) held.old held.new) }
    ensures least { OnOk result ((image : Image) → AreIn image kind records.now
        → (was_seen : ℕ → Bool) → IsLeastOf (λ key. was_seen key ≡ true) (IsRightOf asked image kind) least.old
        → IsLeastOf (λ key. (was_seen key ≡ true) ⊎ Among records.now key) (IsRightOf asked image kind) least.new) }
{
    for (key, bytes) in records {
        let is_right = judge(alloc, asked, kind, *key, bytes.as_slice(), held)?;
        least.see(*key, is_right);
    }
    Ok(())
}

// Holds the object of a value, where the value is right, and answers whether it is.
fn judge(
    alloc: Global,
    asked: bool,
    kind: Kind,
    key: u64,
    bytes: &[u8],
    held: &mut Held,
) -> Result<bool, OutOfMemory>
    ensures right { IfOk result (λ is_right. IsTrue is_right ↔ IsRightAt asked kind key (Some bytes.now)) }
    ensures takes { OnOk result ((image : Image) → bytes_in image kind key ≡ Some bytes.now
        → Takes asked image kind (λ own. key ≡ own) held.old held.new) }
{
    match kind {
        Kind::Node => judge_node(alloc, asked, key, bytes, held),
        Kind::Way => judge_way(alloc, key, bytes, held),
        Kind::Relation => judge_relation(alloc, key, bytes, held),
    }
}

// Holds the place of a node, where its record is right.
fn judge_node(
    alloc: Global,
    asked: bool,
    id: u64,
    bytes: &[u8],
    held: &mut Held,
) -> Result<bool, OutOfMemory>
    ensures right { IfOk result (λ is_right. IsTrue is_right ↔ IsRightAt asked kinds.Node id (Some bytes.now)) }
    ensures takes { OnOk result ((image : Image) → bytes_in image kinds.Node id ≡ Some bytes.now
        → Takes asked image kinds.Node (λ own. id ≡ own) held.old held.new) }
{
    let Some(record) = right_node(alloc, asked, id, bytes)? else {
        return Ok(false);
    };
    if let Some(place) = record.place {
        held.put_place(id, place)?;
    }
    Ok(true)
}

// Holds a way, where it is right.
fn judge_way(alloc: Global, id: u64, bytes: &[u8], held: &mut Held) -> Result<bool, OutOfMemory>
    ensures right { IfOk result (λ is_right. IsTrue is_right ↔ IsRightAt true kinds.Way id (Some bytes.now)) }
    ensures takes { OnOk result ((asked : Bool) (image : Image) → bytes_in image kinds.Way id ≡ Some bytes.now
        → Takes asked image kinds.Way (λ own. id ≡ own) held.old held.new) }
{
    let Some(way) = right_object(alloc, Kind::Way, id, bytes)? else {
        return Ok(false);
    };
    held.put_way(id, way)?;
    Ok(true)
}

// Holds a relation, where it is right.
fn judge_relation(
    alloc: Global,
    id: u64,
    bytes: &[u8],
    held: &mut Held,
) -> Result<bool, OutOfMemory>
    ensures right { IfOk result (λ is_right. IsTrue is_right ↔ IsRightAt true kinds.Relation id (Some bytes.now)) }
    ensures takes { OnOk result ((asked : Bool) (image : Image) → bytes_in image kinds.Relation id ≡ Some bytes.now
        → Takes asked image kinds.Relation (λ own. id ≡ own) held.old held.new) }
{
    let Some(relation) = right_object(alloc, Kind::Relation, id, bytes)? else {
        return Ok(false);
    };
    held.put_relation(id, relation)?;
    Ok(true)
}

// The record of a node with these bytes, where it and its id are right.
fn right_node(
    alloc: Global,
    asked: bool,
    id: u64,
    bytes: &[u8],
) -> Result<Option<NodeRecord>, OutOfMemory>
    ensures right { IfOk result (FindsRight record_bytes IsRecord (IsKnownIf asked) id bytes.now) }
{
    if !is_id(id) {
        return Ok(None);
    }
    match read_whole::<NodeRecord>(alloc, bytes) {
        Ok(record) => {
            if asked && record.tags.is_none() {
                Ok(None)
            } else {
                Ok(Some(record))
            }
        }
        Err(ValueFault::NotSpelled) => Ok(None),
        Err(ValueFault::OutOfMemory) => Err(OutOfMemory),
    }
}

// The way or the relation with these bytes, where it and its id are right.
fn right_object(
    alloc: Global,
    kind: Kind,
    id: u64,
    bytes: &[u8],
) -> Result<Option<Object>, OutOfMemory>
    requires kind { kind ≢ kinds.Node }
    ensures right { IfOk result (FindsRight object_bytes (IsStored kind) (IsStored kind) id bytes.now) }
{
    if !is_id(id) {
        return Ok(None);
    }
    match read_object(alloc, kind, bytes) {
        Ok(object) => Ok(Some(object)),
        Err(ValueFault::NotSpelled) => Ok(None),
        Err(ValueFault::OutOfMemory) => Err(OutOfMemory),
    }
}

// Whether this is an id.
fn is_id(number: u64) -> bool
    ensures id { IsTrue result ↔ IsId number }
{
    number >= 1 && number <= MAX_ID
}
