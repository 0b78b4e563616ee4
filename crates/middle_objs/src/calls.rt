//! The ways and the relations in a store.
ghost use Rattle.std.specs.Prelude.{◌≡◌, ◌≢◌, List, ℕ, Ok, Err, IfOk, IfSome, OnOk};
ghost use Rattle.std.specs.Option.{option_copied};
ghost use Rattle.osm_base.specs.declared.values.key.Kind.TheVariants as kinds;
ghost use Rattle.bucket_store.specs.Transaction.{IsOpenStore, IsReady};
ghost use Rattle.bucket_store.specs.Typed.{Gets, GetsValue, ReadsAs, SetsValue, TakesValue, Touches};
ghost use Rattle.middle_objs.specs.Maps.{map_of, object_map};
ghost use Rattle.value_bytes.specs.Objects.{object_bytes, IsStored, IsKept};
ghost use Rattle.value_bytes.specs.StoreMap.{map_number};

use bucket_store::{Buckets, refuse_value};
use osm_base::{Key, Kind, Object};
use outside::Disk;
use page_journal::StoreFault;
use std::alloc::Global;
use value_bytes::{StoreMap, ValueFault, object_bytes, read_object};

/// The way or the relation that the store has under a key. `None`: none.
pub fn get<D: Disk>(
    alloc: Global,
    buckets: &mut Buckets<'_, D>,
    key: Key,
) -> Result<Option<Object>, StoreFault>
    requires kind { key.kind ≢ kinds.Node }
    requires ready { IsReady buckets.old }
    ensures answers { (pages : List (List ℕ)) → IsOpenStore pages buckets.old
        → Gets object_bytes (IsStored key.kind) pages buckets.old (map_of key.kind) key.id result }
    ensures value { GetsValue object_bytes (IsStored key.kind) (map_of key.kind) key.id buckets.old buckets.new result }
    ensures kept { IfOk result (λ found. IfSome found (IsKept key.kind)) }
    ensures touches { Touches (map_of key.kind) key.id buckets.old buckets.new result }
{
    get_from(alloc, buckets, object_map(key.kind), key.kind, key.id)
}

/// Sets the way or the relation that the store has under a key.
pub fn put<D: Disk>(
    alloc: Global,
    buckets: &mut Buckets<'_, D>,
    key: Key,
    object: &Object,
) -> Result<(), StoreFault>
    requires kept { IsKept key.kind object.now }
    requires ready { IsReady buckets.old }
    ensures value { SetsValue (map_of key.kind) key.id (object_bytes object.now) buckets.old buckets.new result }
    ensures is { OnOk result (IsStored key.kind object.now) }
    ensures touches { Touches (map_of key.kind) key.id buckets.old buckets.new result }
{
    match object_bytes(alloc, key.kind, object) {
        Ok(bytes) => buckets.put(object_map(key.kind), key.id, bytes.as_slice()),
        Err(_) => {
            buckets.refuse();
            Err(StoreFault::OutOfMemory)
        }
    }
}

/// Takes out the way or the relation that the store has under a key, and answers whether there was one.
pub fn remove<D: Disk>(buckets: &mut Buckets<'_, D>, key: Key) -> Result<bool, StoreFault>
    requires kind { key.kind ≢ kinds.Node }
    requires ready { IsReady buckets.old }
    ensures value { TakesValue (map_of key.kind) key.id buckets.old buckets.new result }
    ensures touches { Touches (map_of key.kind) key.id buckets.old buckets.new result }
{
    buckets.remove(object_map(key.kind), key.id)
}

// The object of a kind that a map has under an id.
fn get_from<D: Disk>(
    alloc: Global,
    buckets: &mut Buckets<'_, D>,
    map: StoreMap,
    kind: Kind,
    id: u64,
) -> Result<Option<Object>, StoreFault>
    requires kind { kind ≢ kinds.Node }
    requires ready { IsReady buckets.old }
    ensures answers { (pages : List (List ℕ)) → IsOpenStore pages buckets.old → Gets object_bytes (IsStored kind) pages buckets.old (map_number map) id result }
    ensures value { GetsValue object_bytes (IsStored kind) (map_number map) id buckets.old buckets.new result }
    ensures kept { IfOk result (λ found. IfSome found (IsKept kind)) }
    ensures touches { Touches (map_number map) id buckets.old buckets.new result }
{
    if let Err(fault) = buckets.bring(map, id) {
        return Err(fault);
    }
    let read = read_bytes(alloc, kind, buckets.value(map, id));
    match read {
        Ok(found) => Ok(found),
        Err(fault) => Err(refuse_value(buckets, map, id, fault)),
    }
}

// The map of the objects of a kind.
fn object_map(kind: Kind) -> StoreMap
    ensures { result ≡ object_map kind }
{
    if matches!(kind, Kind::Way) {
        StoreMap::Ways
    } else {
        StoreMap::Relations
    }
}

// The object of this kind with these bytes, if there are any.
fn read_bytes(alloc: Global, kind: Kind, bytes: Option<&[u8]>) -> Result<Option<Object>, ValueFault>
    requires { kind ≢ kinds.Node }
    ensures reads { ReadsAs object_bytes (IsStored kind) (option_copied bytes.entry) result }
    ensures kept { IfOk result (λ found. IfSome found (IsKept kind)) }
{
    match bytes {
        None => Ok(None),
        Some(bytes) => match read_object(alloc, kind, bytes) {
            Ok(object) => Ok(Some(object)),
            Err(fault) => Err(fault),
        },
    }
}
