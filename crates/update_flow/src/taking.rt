//! Rows that a block tells are put into the store of a follower, within its buckets.
ghost use Rattle.std.specs.Prelude.{◌≡◌, IfOk, OnOk};
ghost use Rattle.std.specs.List.Sorted.{IsPermutation};
ghost use Rattle.std.specs.Result.{result_err};
ghost use Rattle.osm_base.specs.map.Spots.{TableMap, changed, changed_all};
ghost use Rattle.bucket_store.specs.Buckets.{bucket_count};
ghost use Rattle.bucket_store.specs.Image.{Has, Image};
ghost use Rattle.bucket_store.specs.Transaction.{chains_of};
ghost use Rattle.row_store.specs.Tables.{HoldsTables};
ghost use Rattle.update_flow.specs.Taking.{AllFit, FitsTable, HasTables};
ghost use Rattle.update_flow.specs.Within.{GoesOn, IsFilled, IsSound};

use crate::FlowFault;
use crate::fault::store_fault;
use bucket_store::Buckets;
use osm_base::{OutOfMemory, RowChange, RowChanges, Spot};
use outside::Disk;
use row_store::set_row;
use std::alloc::Global;
use style_read::Style;

/// What changes say of rows is so from now on, by rising keys. The list shrinks as the buckets grow.
pub(crate) fn take_rows<D: Disk>(
    alloc: Global,
    buckets: &mut Buckets<'_, D>,
    style: &Style,
    changes: RowChanges,
) -> Result<(), FlowFault>
    requires filled { IsFilled buckets.old }
    requires fit { AllFit style.now.tables changes }
    ensures taken { OnOk result ((rest now : Image) (tables : TableMap) → Has rest now buckets.old → HoldsTables style.now.tables now.maps tables
        → HasTables style.now.tables (changed_all tables changes) rest now buckets.new) }
    ensures sound { (rest now : Image) (tables : TableMap) → Has rest now buckets.old → HoldsTables style.now.tables now.maps tables
        → IsSound (result_err result) }
    ensures goes { GoesOn buckets.old buckets.new result }
{
    let Ok(mut changes) = by_key(changes) else {
        return Err(FlowFault::OutOfMemory);
    };
    changes.reverse();
    while let Some(change) = changes.pop() {
        if let Err(fault) = take_row(alloc, buckets, style, change) {
            return Err(fault);
        }
    }
    Ok(())
}

// A record whose key is above all that its bucket has is put behind them.
/// The changes by rising keys; those of one key stay in their order.
fn by_key(changes: RowChanges) -> Result<Vec<RowChange>, OutOfMemory>
    ensures moved { IfOk result (λ sorted. IsPermutation changes sorted.items) }
    ensures same { IfOk result (λ sorted. (tables : TableMap) → changed_all tables sorted.items ≡ changed_all tables changes) }
{
    let mut changes = changes.into_vec();
    changes.sort_by_key(|change: &RowChange| change.key)?;
    Ok(changes)
}

/// What a change says of a row is so from now on.
fn take_row<D: Disk>(
    alloc: Global,
    buckets: &mut Buckets<'_, D>,
    style: &Style,
    change: RowChange,
) -> Result<(), FlowFault>
    requires filled { IsFilled buckets.old }
    requires fits { FitsTable style.now.tables change }
    ensures taken { OnOk result ((rest now : Image) (tables : TableMap) → Has rest now buckets.old → HoldsTables style.now.tables now.maps tables
        → HasTables style.now.tables (changed tables change) rest now buckets.new) }
    ensures count { bucket_count (chains_of buckets.new) ≡ bucket_count (chains_of buckets.old) }
    ensures sound { (rest now : Image) (tables : TableMap) → Has rest now buckets.old → HoldsTables style.now.tables now.maps tables
        → IsSound (result_err result) }
    ensures goes { GoesOn buckets.old buckets.new result }
{
    let RowChange { table, key, row } = change;
    match set_row(alloc, buckets, style, Spot { table, key }, row) {
        Ok(()) => Ok(()),
        Err(fault) => Err(store_fault(fault)),
    }
}
