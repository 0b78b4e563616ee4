//! The records of nodes in a store.
ghost use Rattle.std.specs.Prelude.{◌≡◌, List, ℕ, Ok, Err, OnOk};
ghost use Rattle.std.specs.Option.{option_copied};
ghost use Rattle.bucket_store.specs.Transaction.{IsOpenStore, IsReady};
ghost use Rattle.bucket_store.specs.Typed.{Gets, GetsValue, ReadsAs, SetsValue, TakesValue, Touches};
ghost use Rattle.value_bytes.specs.Nodes.{record_bytes, IsRecord};
ghost use Rattle.value_bytes.specs.StoreMap.{map_number};
ghost use Rattle.value_bytes.specs.declared.store_map.StoreMap.TheVariants.{Nodes};

use bucket_store::{Buckets, refuse_value};
use outside::Disk;
use page_journal::StoreFault;
use std::alloc::Global;
use value_bytes::{NodeRecord, StoreMap, ValueFault, bytes_of, read_whole};

/// What the store keeps of a node. `None`: nothing.
pub fn get<D: Disk>(
    alloc: Global,
    buckets: &mut Buckets<'_, D>,
    id: u64,
) -> Result<Option<NodeRecord>, StoreFault>
    requires ready { IsReady buckets.old }
    ensures answers { (pages : List (List ℕ)) → IsOpenStore pages buckets.old → Gets record_bytes IsRecord pages buckets.old (map_number Nodes) id result }
    ensures value { GetsValue record_bytes IsRecord (map_number Nodes) id buckets.old buckets.new result }
    ensures touches { Touches (map_number Nodes) id buckets.old buckets.new result }
{
    if let Err(fault) = buckets.bring(StoreMap::Nodes, id) {
        return Err(fault);
    }
    let read = read_record(alloc, buckets.value(StoreMap::Nodes, id));
    match read {
        Ok(found) => Ok(found),
        Err(fault) => Err(refuse_value(buckets, StoreMap::Nodes, id, fault)),
    }
}

/// Sets what the store keeps of a node.
pub fn put<D: Disk>(
    alloc: Global,
    buckets: &mut Buckets<'_, D>,
    id: u64,
    node: &NodeRecord,
) -> Result<(), StoreFault>
    requires ready { IsReady buckets.old }
    ensures value { SetsValue (map_number Nodes) id (record_bytes node.now) buckets.old buckets.new result }
    ensures is { OnOk result (IsRecord node.now) }
    ensures touches { Touches (map_number Nodes) id buckets.old buckets.new result }
{
    match bytes_of(alloc, node) {
        Ok(bytes) => buckets.put(StoreMap::Nodes, id, bytes.as_slice()),
        Err(_) => {
            buckets.refuse();
            Err(StoreFault::OutOfMemory)
        }
    }
}

/// Takes out what the store keeps of a node, and answers whether that was anything.
pub fn remove<D: Disk>(buckets: &mut Buckets<'_, D>, id: u64) -> Result<bool, StoreFault>
    requires ready { IsReady buckets.old }
    ensures value { TakesValue (map_number Nodes) id buckets.old buckets.new result }
    ensures touches { Touches (map_number Nodes) id buckets.old buckets.new result }
{
    buckets.remove(StoreMap::Nodes, id)
}

// The record with these bytes, if there are any.
fn read_record(alloc: Global, bytes: Option<&[u8]>) -> Result<Option<NodeRecord>, ValueFault>
    ensures reads { ReadsAs record_bytes IsRecord (option_copied bytes.entry) result }
{
    match bytes {
        None => Ok(None),
        Some(bytes) => match read_whole::<NodeRecord>(alloc, bytes) {
            Ok(node) => Ok(Some(node)),
            Err(fault) => Err(fault),
        },
    }
}
