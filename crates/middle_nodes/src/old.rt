//! The records of nodes in a store of the old format.
ghost use Rattle.std.specs.Prelude.{◌≡◌, List, ℕ, Ok, Err, IfErr, IfOk};
ghost use Rattle.std.specs.Option.{option_copied};
ghost use Rattle.bucket_store.specs.Transaction.{IsOpenStore, IsReady};
ghost use Rattle.bucket_store.specs.Typed.{Gets, GetsValue, ReadsAs, Touches};
ghost use Rattle.middle_nodes.specs.Old.{old_bytes, IsOldPlace};
ghost use Rattle.value_bytes.specs.Forms.{IsNoValue, NeedsFor, Spells};
ghost use Rattle.value_bytes.specs.StoreMap.{map_number};
ghost use Rattle.value_bytes.specs.declared.store_map.StoreMap.TheVariants.{Nodes};

use bucket_store::{Buckets, refuse_value};
use osm_base::Place;
use outside::Disk;
use page_journal::StoreFault;
use std::alloc::Global;
use value_bytes::{StoreMap, ValueFault, read_whole};

/// What a store of the old format keeps of a node, which is its place. `None`: nothing.
/// For callers outside: the program does not use it.
pub fn get_old<D: Disk>(
    alloc: Global,
    buckets: &mut Buckets<'_, D>,
    id: u64,
) -> Result<Option<Option<Place>>, StoreFault>
    requires ready { IsReady buckets.old }
    ensures answers { (pages : List (List ℕ)) → IsOpenStore pages buckets.old → Gets old_bytes IsOldPlace pages buckets.old (map_number Nodes) id result }
    ensures value { GetsValue old_bytes IsOldPlace (map_number Nodes) id buckets.old buckets.new result }
    ensures touches { Touches (map_number Nodes) id buckets.old buckets.new result }
{
    if let Err(fault) = buckets.bring(StoreMap::Nodes, id) {
        return Err(fault);
    }
    let read = read_found(alloc, buckets.value(StoreMap::Nodes, id));
    match read {
        Ok(found) => Ok(found),
        Err(fault) => Err(refuse_value(buckets, StoreMap::Nodes, id, fault)),
    }
}

/// The place that a record of the old format has.
pub fn read_old(alloc: Global, bytes: &[u8]) -> Result<Option<Place>, ValueFault>
    ensures place { IfOk result (Spells old_bytes IsOldPlace bytes.now) }
    ensures refused { IfErr result (NeedsFor (IsNoValue old_bytes IsOldPlace bytes.now)) }
{
    read_whole::<Option<Place>>(alloc, bytes)
}

// The place that the record with these bytes has, if there are any.
fn read_found(alloc: Global, bytes: Option<&[u8]>) -> Result<Option<Option<Place>>, ValueFault>
    ensures reads { ReadsAs old_bytes IsOldPlace (option_copied bytes.entry) result }
{
    match bytes {
        None => Ok(None),
        Some(bytes) => match read_old(alloc, bytes) {
            Ok(place) => Ok(Some(place)),
            Err(fault) => Err(fault),
        },
    }
}
