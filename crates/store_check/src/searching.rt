//! The first value of a store that is not right.
ghost use Rattle.std.specs.Prelude.{◌≡◌, ◌≤◌, None, false, IfOk, IfSome, OnOk};
ghost use Rattle.object_fold.specs.Listings.{HasIds};
ghost use Rattle.bucket_store.specs.Image.{Has, Image, IsSoundAnswer};
ghost use Rattle.bucket_store.specs.Transaction.{IsReady, has_refused};
ghost use Rattle.row_store.specs.Loading.{Looks};
ghost use Rattle.value_bytes.specs.StoreMap.{map_number};
ghost use Rattle.store_check.specs.Held.{IsHeldOf};
ghost use Rattle.store_check.specs.Objects.{HoldsObjects};
ghost use Rattle.store_check.specs.Finds.{Finds, FindsThere};
ghost use Rattle.store_check.specs.Reading.{IsUnchanged, IsUnwritten};
ghost use Rattle.store_check.specs.Values.{NodeMap, ObjectMap, ReadsObjects, objects_of};
ghost use Rattle.store_check.specs.Wrong.{AllRight, IsFirstWrong, IsRightIn, IsWrongIn, wrong_at};

use crate::Wrong;
use crate::held::Held;
use crate::lists::first_wrong_list;
use crate::objects::{Found, read_objects};
use crate::reading::Reading;
use crate::rows::first_wrong_rows;
use bucket_store::Buckets;
use outside::Disk;
use page_journal::StoreFault;
use std::alloc::Global;
use style_read::Style;
use value_bytes::StoreMap;

/// The value of a map under a key that is not right, if there is one.
fn wrong_at(map: StoreMap, found: Option<u64>) -> Option<Wrong>
    ensures { result ≡ wrong_at map found }
{
    match found {
        Some(key) => Some(Wrong { map, key }),
        None => None,
    }
}

/// The least key of a map of lists or of rows whose value is not right.
fn wrong_in<D: Disk>(
    alloc: Global,
    reading: &mut Reading<'_, '_, D>,
    style: &Style,
    map: StoreMap,
    held: &Held,
) -> Result<Option<Wrong>, StoreFault>
    requires behind { 3 ≤ map_number map }
    ensures least { Finds reading.old reading.new result (λ rest found.
        (nodes : NodeMap) (ways relations : ObjectMap) → ReadsObjects rest nodes ways relations → HasIds (objects_of nodes ways relations)
        → IsHeldOf nodes ways relations held.now → IsWrongIn (IsRightIn style.now rest nodes ways relations) map found) }
{
    let least = if map.number() < 6 {
        first_wrong_list(alloc, reading, map, held)
    } else {
        first_wrong_rows(alloc, reading, style, map, held)
    };
    match least {
        Ok(found) => Ok(wrong_at(map, found)),
        Err(fault) => Err(fault),
    }
}

/// The first value of maps 3 to 7 that is not right.
fn wrong_behind<D: Disk>(
    alloc: Global,
    reading: &mut Reading<'_, '_, D>,
    style: &Style,
    held: &Held,
) -> Result<Option<Wrong>, StoreFault>
    ensures right { IfOk result (λ found. found ≡ None → (rest : Image) → Has rest rest reading.old.buckets.now → HoldsObjects style.now rest held.now → AllRight style.now rest) }
    ensures wrong { Finds reading.old reading.new result (λ rest found.
        IfSome found (λ own. HoldsObjects style.now rest held.now → IsFirstWrong style.now rest own.map own.key)) }
{
    let mut number = 3;
    while let Some(map) = StoreMap::with_number(number) {
        match wrong_in(alloc, reading, style, map, held) {
            Ok(None) => number += 1,
            Ok(Some(wrong)) => return Ok(Some(wrong)),
            Err(fault) => return Err(fault),
        }
    }
    Ok(None)
}

/// The first value that is not right in a store that is read.
fn wrong_read<D: Disk>(
    alloc: Global,
    reading: &mut Reading<'_, '_, D>,
    style: &Style,
) -> Result<Option<Wrong>, StoreFault>
    ensures right { IfOk result (λ found. found ≡ None → (rest : Image) → Has rest rest reading.old.buckets.now → AllRight style.now rest) }
    ensures wrong { Finds reading.old reading.new result (λ rest found.
        IfSome found (λ own. IsFirstWrong style.now rest own.map own.key)) }
{
    let held = match read_objects(alloc, reading, style) {
        Ok(Found::Objects(held)) => held,
        Ok(Found::Wrong(wrong)) => return Ok(Some(wrong)),
        Err(fault) => return Err(fault),
    };
    wrong_behind(alloc, reading, style, &held)
}

/// The same of a transaction, which is not refused for what it was asked then.
fn wrong_there<D: Disk>(
    alloc: Global,
    buckets: &mut Buckets<'_, D>,
    style: &Style,
) -> Result<Option<Wrong>, StoreFault>
    requires unchanged { IsUnchanged buckets.old }
    ensures right { IfOk result (λ found. found ≡ None → (rest : Image) → Has rest rest buckets.old → AllRight style.now rest) }
    ensures wrong { FindsThere buckets.old buckets.new result (λ rest found.
        IfSome found (λ own. IsFirstWrong style.now rest own.map own.key)) }
    ensures going { has_refused buckets.new ≡ false }
{
    let mut reading = Reading { buckets };
    wrong_read(alloc, &mut reading, style)
}

/// The first value that is not right in a store whose chains and records are read: of the least map, and there of the least key.
/// `None`: all are right. One bucket is in memory at a time, but for those of the lists.
pub fn first_wrong<D: Disk>(
    alloc: Global,
    buckets: &mut Buckets<'_, D>,
    style: &Style,
) -> Result<Option<Wrong>, StoreFault>
    requires ready { IsReady buckets.old }
    requires unwritten { IsUnwritten buckets.old }
    ensures right { IfOk result (λ found. found ≡ None → (rest : Image) → Has rest rest buckets.old → AllRight style.now rest) }
    ensures wrong { IfOk result (λ found. IfSome found (λ own. (rest : Image) → Has rest rest buckets.old → IsFirstWrong style.now rest own.map own.key)) }
    ensures has { OnOk result ((rest : Image) → Has rest rest buckets.old → Has rest rest buckets.new) }
    ensures sound { (rest : Image) → Has rest rest buckets.old → IsSoundAnswer result }
    ensures looks { Looks buckets.old buckets.new result }
{
    match wrong_there(alloc, buckets, style) {
        Ok(found) => Ok(found),
        Err(fault) => {
            buckets.refuse();
            Err(fault)
        }
    }
}
