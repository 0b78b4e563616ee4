//! Values are read from the buckets of an open store, by the maps that it has.
ghost use Rattle.std.specs.Prelude.{◌≡◌, List};
ghost use Rattle.style_read.specs.declared.style.TableDef.{TableDef};
ghost use Rattle.bucket_store.specs.Transaction.{IsReady};
ghost use Rattle.store_maps.specs.Asked.{MayObject};
ghost use Rattle.store_maps.specs.Maps.{node_in, object_in};
ghost use Rattle.store_maps.specs.Named.{place_in};
ghost use Rattle.update_flow.specs.maps.Touched.{Asks, Finds};

use bucket_store::Buckets;
use osm_base::{Key, Kind, Object, Place};
use outside::Disk;
use page_journal::StoreFault;
use std::alloc::Global;
use value_bytes::NodeRecord;

/// The object of a key; none of a node whose tags are not known.
pub(crate) fn find_object<D: Disk>(
    alloc: Global,
    buckets: &mut Buckets<'_, D>,
    key: Key,
) -> Result<Option<Object>, StoreFault>
    requires ready { IsReady buckets.old }
    ensures finds { (definitions : List TableDef) → Finds definitions (λ maps. object_in maps key.kind key.id) buckets.old result }
    ensures asks { Asks (λ may. MayObject may key) buckets.old buckets.new result }
{
    match key.kind {
        Kind::Node => match middle_nodes::get(alloc, buckets, key.id) {
            Ok(found) => Ok(node_in(found)),
            Err(fault) => Err(fault),
        },
        _ => middle_objs::get(alloc, buckets, key),
    }
}

/// The node that is kept so, where its tags are known.
fn node_in(found: Option<NodeRecord>) -> Option<Object>
    ensures { result ≡ node_in found }
{
    let NodeRecord { place, tags } = found?;
    let tags = tags?;
    Some(Object::Node { place, tags })
}

/// The place of a node that is kept so.
pub(crate) fn place_in(found: Option<NodeRecord>) -> Option<Place>
    ensures { result ≡ place_in found }
{
    match found {
        Some(record) => record.place,
        None => None,
    }
}
