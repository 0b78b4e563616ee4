//! Values are set in the buckets of an open store, by the maps that it has.
ghost use Rattle.std.specs.Prelude.{List, None, Some, OnOk};
ghost use Rattle.style_read.specs.declared.style.TableDef.{TableDef};
ghost use Rattle.object_fold.specs.Change.{IsOfKind};
ghost use Rattle.bucket_store.specs.Transaction.{IsReady};
ghost use Rattle.store_maps.specs.Append.{MayKeep};
ghost use Rattle.store_maps.specs.Asked.{MayObject, MayRows};
ghost use Rattle.store_maps.specs.Maps.{Maps, set_object, set_rows};
ghost use Rattle.update_flow.specs.maps.Held.{Beside, HasMaps};
ghost use Rattle.update_flow.specs.maps.Touched.{Puts};

use bucket_store::Buckets;
use osm_base::{Key, Kind, Object, TableRows, TryCopy};
use outside::Disk;
use page_journal::StoreFault;
use std::alloc::Global;
use style_read::Style;
use value_bytes::NodeRecord;

/// The object of a key is this one.
pub(crate) fn put_object<D: Disk>(
    alloc: Global,
    buckets: &mut Buckets<'_, D>,
    key: Key,
    object: &Object,
) -> Result<(), StoreFault>
    requires ready { IsReady buckets.old }
    requires proper { IsOfKind key.kind object.now }
    ensures sets { OnOk result ((definitions : List TableDef) (under : Beside) (maps : Maps) → HasMaps definitions under maps buckets.old
        → HasMaps definitions under (set_object maps key.kind key.id (Some object.now)) buckets.new) }
    ensures puts { Puts (λ may. MayObject may key) buckets.old buckets.new result }
{
    let Object::Node { place, tags } = object else {
        return middle_objs::put(alloc, buckets, key, object);
    };
    match tags.copy(alloc) {
        Ok(tags) => {
            let record = NodeRecord {
                place: *place,
                tags: Some(tags),
            };
            middle_nodes::put(alloc, buckets, key.id, &record)
        }
        Err(_) => {
            buckets.refuse();
            Err(StoreFault::OutOfMemory)
        }
    }
}

/// A key has no object. Answers whether it had one.
pub(crate) fn take_object<D: Disk>(
    buckets: &mut Buckets<'_, D>,
    key: Key,
) -> Result<bool, StoreFault>
    requires ready { IsReady buckets.old }
    ensures sets { OnOk result ((definitions : List TableDef) (under : Beside) (maps : Maps) → HasMaps definitions under maps buckets.old
        → HasMaps definitions under (set_object maps key.kind key.id None) buckets.new) }
    ensures puts { Puts (λ may. MayObject may key) buckets.old buckets.new result }
{
    match key.kind {
        Kind::Node => middle_nodes::remove(buckets, key.id),
        _ => middle_objs::remove(buckets, key),
    }
}

/// A key has these rows; none where there are none.
pub(crate) fn keep_rows<D: Disk>(
    alloc: Global,
    buckets: &mut Buckets<'_, D>,
    style: &Style,
    key: Key,
    rows: &TableRows,
) -> Result<(), StoreFault>
    requires ready { IsReady buckets.old }
    requires kept { MayKeep style.now.tables rows.now }
    ensures sets { OnOk result ((under : Beside) (maps : Maps) → HasMaps style.now.tables under maps buckets.old
        → HasMaps style.now.tables under (set_rows maps key.kind key.id rows.now) buckets.new) }
    ensures puts { Puts (λ may. MayRows may key) buckets.old buckets.new result }
{
    if rows.as_slice().is_empty() {
        return match row_store::remove(buckets, key) {
            Ok(_) => Ok(()),
            Err(fault) => Err(fault),
        };
    }
    row_store::put(alloc, buckets, style, key, rows)
}
