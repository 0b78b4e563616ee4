//! The records of nodes in an old store are written anew.
ghost use Rattle.std.specs.Prelude.{◌≡◌, List, Option, Some, OnOk};
ghost use Rattle.osm_base.specs.values.Place.{PlaceOf};
ghost use Rattle.style_read.specs.declared.style.TableDef.{TableDef};
ghost use Rattle.value_bytes.specs.Forms.{IsNoValue};
ghost use Rattle.bucket_store.specs.Image.{Has, Image, IsSoundAnswer, with_value};
ghost use Rattle.bucket_store.specs.Transaction.{IsReady};
ghost use Rattle.value_bytes.specs.StoreMap.{map_number};
ghost use Rattle.value_bytes.specs.declared.store_map.StoreMap.TheVariants.{Nodes};
ghost use Rattle.middle_nodes.specs.Old.{IsOldPlace, old_bytes, unknown};
ghost use Rattle.value_bytes.specs.Nodes.{record_bytes};
ghost use Rattle.row_store.specs.Loading.{Among};
ghost use Rattle.back_index.specs.Calls.{page_in};
ghost use Rattle.store_maps.specs.Maps.{Maps};
ghost use Rattle.update_flow.specs.maps.Held.{Beside, HasMaps, HasOldMaps};
ghost use Rattle.update_flow.specs.maps.Migrating.{Always, Any, AreThere, HasOldUnread, IsIn, Renews, RenewsOnce};

use bucket_store::{Buckets, refuse_value};
use middle_nodes::{put, read_old};
use osm_base::Bytes;
use outside::Disk;
use page_journal::StoreFault;
use std::alloc::Global;
use value_bytes::{NodeRecord, StoreMap};

/// The records of all nodes of an old store are written anew, with tags that are unknown. Nothing else is changed.
pub(crate) fn migrate_nodes<D: Disk>(
    alloc: Global,
    buckets: &mut Buckets<'_, D>,
) -> Result<(), StoreFault>
    requires ready { IsReady buckets.old }
    ensures becomes { OnOk result ((definitions : List TableDef) (under : Beside) (maps : Maps)
        → HasOldMaps definitions under maps buckets.old → HasMaps definitions under maps buckets.new) }
    ensures renews { OnOk result ((rest now : Image) → Has rest now buckets.old
        → (after : Image) × Has rest after buckets.new × Renews Any now after) }
    ensures sound { (definitions : List TableDef) (under : Beside) (maps : Maps)
        → HasOldMaps definitions under maps buckets.old → IsSoundAnswer result }
    ensures once { RenewsOnce Always (HasOldUnread Any buckets.old) buckets.old buckets.new result }
{
    let count = buckets.root().buckets;
    let mut bucket = 0;
    while bucket < count {
        if let Err(fault) = renew_bucket(alloc, buckets, bucket) {
            return Err(fault);
        }
        bucket += 1;
    }
    Ok(())
}

// The records of the nodes in a bucket are written anew.
fn renew_bucket<D: Disk>(
    alloc: Global,
    buckets: &mut Buckets<'_, D>,
    bucket: u64,
) -> Result<(), StoreFault>
    requires ready { IsReady buckets.old }
    ensures renews { OnOk result ((rest now : Image) → Has rest now buckets.old
        → (after : Image) × Has rest after buckets.new × Renews (IsIn now.root.buckets bucket) now after) }
    ensures once { RenewsOnce Always (λ now. HasOldUnread (IsIn now.root.buckets bucket) buckets.old now) buckets.old buckets.new result }
{
    let records = match buckets.records(StoreMap::Nodes, bucket) {
        Ok(records) => records,
        Err(fault) => return Err(fault),
    };
    renew_records(alloc, buckets, records.as_slice())
}

// These records of nodes are written anew.
fn renew_records<D: Disk>(
    alloc: Global,
    buckets: &mut Buckets<'_, D>,
    records: &[(u64, Bytes)],
) -> Result<(), StoreFault>
    requires ready { IsReady buckets.old }
    ensures renews { OnOk result ((rest now : Image) → Has rest now buckets.old → AreThere now records.now
        → (after : Image) × Has rest after buckets.new × Renews (Among records.now) now after) }
    ensures once { RenewsOnce (λ now. AreThere now records.now) (HasOldUnread (Among records.now) buckets.old)
        buckets.old buckets.new result }
{
    for (id, bytes) in records {
        if let Err(fault) = renew(alloc, buckets, *id, bytes.as_slice()) {
            return Err(fault);
        }
    }
    Ok(())
}

// The record of a node, which had these bytes, is written anew.
fn renew<D: Disk>(
    alloc: Global,
    buckets: &mut Buckets<'_, D>,
    id: u64,
    bytes: &[u8],
) -> Result<(), StoreFault>
    requires ready { IsReady buckets.old }
    ensures renews { OnOk result ((rest now : Image) → Has rest now buckets.old
        → (place : Option PlaceOf) × IsOldPlace place × (bytes.now ≡ old_bytes place)
        × Has rest (with_value (map_number Nodes) id (Some (record_bytes (unknown place))) now) buckets.new) }
    ensures once { RenewsOnce Always (λ now at. IsNoValue old_bytes IsOldPlace bytes.now × (at ≡ page_in buckets.old (map_number Nodes) id))
        buckets.old buckets.new result }
{
    match read_old(alloc, bytes) {
        Ok(place) => {
            let record = NodeRecord { place, tags: None };
            put(alloc, buckets, id, &record)
        }
        Err(fault) => Err(refuse_value(buckets, StoreMap::Nodes, id, fault)),
    }
}
