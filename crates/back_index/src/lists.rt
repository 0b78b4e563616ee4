//! One list of the index in a store.
ghost use Rattle.std.specs.Prelude.{◌≡◌, IfOk, IfErr, OnOk};
ghost use Rattle.std.specs.FinMap as finite;
ghost use Rattle.bucket_store.specs.Image.{Has, Image, with_value};
ghost use Rattle.bucket_store.specs.Transaction.{IsReady, IsThere};
ghost use Rattle.bucket_store.specs.Typed.{refusal_of};
ghost use Rattle.store_maps.specs.Asked.{MayKey};
ghost use Rattle.value_bytes.specs.Forms.{NeedsFor};
ghost use Rattle.value_bytes.specs.StoreMap.{map_number};
ghost use Rattle.back_index.specs.Calls.{AsksLists, FindsIds, Marks, NoDamage, TouchesLists, page_in};
ghost use Rattle.back_index.specs.Relisting.{IsUnread, ReadsIds, kept_list};

use crate::{ids_bytes, read_ids};
use bucket_store::Buckets;
use osm_base::{Ids, OutOfMemory};
use outside::Disk;
use page_journal::StoreFault;
use std::alloc::Global;
use value_bytes::{StoreMap, ValueFault};

/// The rising ids of a list. `BadStore` comes with the first page of its bucket where it is not spelled.
pub fn listers<D: Disk>(
    alloc: Global,
    buckets: &mut Buckets<'_, D>,
    map: StoreMap,
    id: u64,
) -> Result<Ids, StoreFault>
    requires ready { IsReady buckets.old }
    ensures ids { IfOk result (FindsIds (λ now ids. ReadsIds (finite.get (now.maps (map_number map)) id) ids) buckets.old) }
    ensures asks { AsksLists (λ may. MayKey may map id)
        (λ now at. IsUnread (finite.get (now.maps (map_number map)) id) × (at ≡ page_in buckets.old (map_number map) id))
        buckets.old buckets.new result }
{
    if let Err(fault) = buckets.bring(map, id) {
        return Err(fault);
    }
    match read_list(alloc, buckets, map, id) {
        Ok(ids) => Ok(ids),
        Err(fault) => {
            let page = buckets.page_of(map, id);
            Err(refused(buckets, page, fault))
        }
    }
}

/// The ids of a list whose bucket is there.
fn read_list<D: Disk>(
    alloc: Global,
    buckets: &Buckets<'_, D>,
    map: StoreMap,
    id: u64,
) -> Result<Ids, ValueFault>
    requires there { IsThere buckets.now (map_number map) id }
    ensures ids { IfOk result (FindsIds (λ now ids. ReadsIds (finite.get (now.maps (map_number map)) id) ids) buckets.now) }
    ensures refused { IfErr result (NeedsFor ((rest now : Image) → Has rest now buckets.now → IsUnread (finite.get (now.maps (map_number map)) id))) }
{
    match buckets.value(map, id) {
        Some(bytes) => read_ids(alloc, bytes),
        None => Ok(Ids::new(alloc)),
    }
}

/// Keeps a list in a store; where it is empty, nothing.
pub fn keep_list<D: Disk>(
    alloc: Global,
    buckets: &mut Buckets<'_, D>,
    map: StoreMap,
    id: u64,
    ids: &[u64],
) -> Result<(), StoreFault>
    requires ready { IsReady buckets.old }
    ensures keeps { OnOk result ((rest now : Image) → Has rest now buckets.old
        → Has rest (with_value (map_number map) id (kept_list ids.now) now) buckets.new) }
    ensures touches { TouchesLists (λ may. MayKey may map id) NoDamage buckets.old buckets.new result }
{
    if ids.is_empty() {
        return match buckets.remove(map, id) {
            Ok(_) => Ok(()),
            Err(fault) => Err(fault),
        };
    }
    match ids_bytes(alloc, ids) {
        Ok(bytes) => buckets.put(map, id, bytes.as_slice()),
        Err(_) => Err(refused(buckets, 0, ValueFault::OutOfMemory)),
    }
}

/// Marks the transaction refused, for a value that is not read, whose page this is.
pub fn refused<D: Disk>(buckets: &mut Buckets<'_, D>, page: u64, fault: ValueFault) -> StoreFault
    ensures fault { result ≡ refusal_of fault page }
    ensures marks { Marks buckets.old buckets.new }
{
    buckets.refuse();
    match fault {
        ValueFault::NotSpelled => StoreFault::BadStore { page },
        ValueFault::OutOfMemory => StoreFault::OutOfMemory,
    }
}
