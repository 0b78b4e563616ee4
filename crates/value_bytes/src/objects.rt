//! A way or a relation in bytes.
ghost use Rattle.std.specs.Prelude.{◌≡◌, ◌≢◌, ◌++◌, IfOk, IfErr, OnOk, IsTrue, ◌↔◌};
ghost use Rattle.std.specs.List.{AllByRecursion};
ghost use Rattle.osm_base.specs.values.Key.{IsId};
ghost use Rattle.osm_base.specs.declared.values.key.Kind.TheVariants as kinds;
ghost use Rattle.value_bytes.specs.Forms.{Spells, IsNoValue, NeedsFor};
ghost use Rattle.value_bytes.specs.Objects.{object_bytes, IsStored, IsKept};

use crate::{ValueFault, push_both, read_whole};
use osm_base::{Bytes, Ids, Items, Kind, MAX_ID, Members, Object, OutOfMemory, Tags};
use std::alloc::Global;

/// The object of this kind, a way or a relation, with these bytes.
pub fn read_object(alloc: Global, kind: Kind, bytes: &[u8]) -> Result<Object, ValueFault>
    requires { kind ≢ kinds.Node }
    ensures object { IfOk result (Spells object_bytes (IsStored kind) bytes.now) }
    ensures kept { IfOk result (IsKept kind) }
    ensures refused { IfErr result (NeedsFor (IsNoValue object_bytes (IsStored kind) bytes.now)) }
{
    if matches!(kind, Kind::Way) {
        read_way(alloc, bytes)
    } else {
        read_relation(alloc, bytes)
    }
}

/// The bytes of a way or a relation.
pub fn object_bytes(alloc: Global, kind: Kind, object: &Object) -> Result<Bytes, OutOfMemory>
    requires { IsKept kind object.now }
    ensures bytes { IfOk result (λ bytes. bytes ≡ object_bytes object.now) }
    ensures is { OnOk result (IsStored kind object.now) }
{
    let mut out = Vec::with_capacity(alloc, room(object))?;
    push_object(&mut out, kind, object)?;
    Ok(Items::from_vec(out))
}

/// About how many bytes a way or a relation takes: most take memory once.
fn room(object: &Object) -> usize {
    let (listed, each) = match object {
        Object::Node { .. } => (0, 0),
        Object::Way { nodes, .. } => (nodes.as_slice().len(), 8),
        Object::Relation { members, .. } => (members.as_slice().len(), 24),
    };
    listed.saturating_mul(each).saturating_add(64)
}

/// Puts the bytes of a way or a relation behind those that are there.
fn push_object(out: &mut Vec<u8>, kind: Kind, object: &Object) -> Result<(), OutOfMemory>
    requires { IsKept kind object.now }
    ensures ok { OnOk result (out.new.items ≡ out.old.items ++ object_bytes object.now) }
    ensures is { OnOk result (IsStored kind object.now) }
{
    match object {
        Object::Node { .. } => Ok(()),
        Object::Way { nodes, tags } => {
            push_both(out, nodes, tags)?;
            Ok(())
        }
        Object::Relation { members, tags } => {
            push_both(out, members, tags)?;
            Ok(())
        }
    }
}

/// The way with these bytes.
fn read_way(alloc: Global, bytes: &[u8]) -> Result<Object, ValueFault>
    ensures object { IfOk result (Spells object_bytes (IsStored kinds.Way) bytes.now) }
    ensures kept { IfOk result (IsKept kinds.Way) }
    ensures refused { IfErr result (NeedsFor (IsNoValue object_bytes (IsStored kinds.Way) bytes.now)) }
{
    let (nodes, tags): (Ids, Tags) = match read_whole(alloc, bytes) {
        Ok(found) => found,
        Err(fault) => return Err(fault),
    };
    if !are_ids(nodes.as_slice()) {
        return Err(ValueFault::NotSpelled);
    }
    Ok(Object::Way { nodes, tags })
}

/// The relation with these bytes.
fn read_relation(alloc: Global, bytes: &[u8]) -> Result<Object, ValueFault>
    ensures object { IfOk result (Spells object_bytes (IsStored kinds.Relation) bytes.now) }
    ensures kept { IfOk result (IsKept kinds.Relation) }
    ensures refused { IfErr result (NeedsFor (IsNoValue object_bytes (IsStored kinds.Relation) bytes.now)) }
{
    let (members, tags): (Members, Tags) = match read_whole(alloc, bytes) {
        Ok(found) => found,
        Err(fault) => return Err(fault),
    };
    Ok(Object::Relation { members, tags })
}

/// Whether all of these are ids.
fn are_ids(numbers: &[u64]) -> bool
    ensures ids { IsTrue result ↔ AllByRecursion IsId numbers.now }
{
    for number in numbers {
        if !is_id(*number) {
            return false;
        }
    }
    true
}

/// Whether this is an id.
fn is_id(number: u64) -> bool
    ensures id { IsTrue result ↔ IsId number }
{
    number >= 1 && number <= MAX_ID
}
