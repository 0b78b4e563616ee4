//! The due tiles of a store: they are one of its texts.
ghost use Rattle.std.specs.Prelude.{◌≡◌, ℕ, IfOk, OnOk};
ghost use Rattle.std.specs.Result.{result_err};
ghost use Rattle.tile_cover.specs.Runs.{has};
ghost use Rattle.due_tiles.specs.Spelling.{set_bytes};
ghost use Rattle.bucket_store.specs.Image.{Has, Image};
ghost use Rattle.bucket_store.specs.Transaction.{chains_of};
ghost use Rattle.chain_store.specs.Reads.{ReadsOnly};
ghost use Rattle.update_flow.specs.Due.{Tiles};
ghost use Rattle.update_flow.specs.Stands.{AreDue, IsImported};
ghost use Rattle.update_flow.specs.State.{Holding};
ghost use Rattle.update_flow.specs.Within.{GoesOn, IsGoing, IsSound, StoresText};
ghost use Rattle.update_flow.specs.declared.fields.TheConstants.{DUE_TEXT};

use crate::fault::store_fault;
use crate::{DUE_TEXT, FlowFault};
use bucket_store::Buckets;
use due_tiles::{DueFault, decode, encode};
use outside::Disk;
use page_journal::StoreFault;
use std::alloc::Global;
use tile_cover::TileRuns;

/// The tiles that are due. `BadStore` comes with the root page where the text spells none.
pub(crate) fn load_due<D: Disk>(
    alloc: Global,
    buckets: &mut Buckets<'_, D>,
) -> Result<TileRuns, FlowFault>
    requires ready { IsGoing buckets.old }
    ensures due { IfOk result (λ found. (rest now : Image) (held : Holding) → Has rest now buckets.old → IsImported held now
        → (zoom x y : ℕ) → has found zoom x y ≡ held.due zoom x y) }
    ensures has { OnOk result ((rest now : Image) → Has rest now buckets.old → Has rest now buckets.new) }
    ensures sound { (rest now : Image) (held : Holding) → Has rest now buckets.old → IsImported held now → IsSound (result_err result) }
    ensures spelled { (rest now : Image) (due : Tiles) → Has rest now buckets.old → AreDue (now.texts DUE_TEXT) due → IsSound (result_err result) }
    ensures reads { OnOk result (ReadsOnly (λ n. n ≡ DUE_TEXT) (chains_of buckets.old) (chains_of buckets.new)) }
    ensures goes { GoesOn buckets.old buckets.new result }
{
    let bytes = match buckets.load(DUE_TEXT) {
        Ok(bytes) => bytes,
        Err(fault) => return Err(store_fault(fault)),
    };
    match decode(alloc, bytes.as_slice()) {
        Ok(due) => Ok(due),
        Err(DueFault::NotSpelled) => Err(FlowFault::Store(StoreFault::BadStore { page: 1 })),
        Err(DueFault::OutOfMemory) => Err(FlowFault::OutOfMemory),
    }
}

/// These tiles are due.
pub(crate) fn store_due<D: Disk>(
    alloc: Global,
    buckets: &mut Buckets<'_, D>,
    due: &TileRuns,
) -> Result<(), FlowFault>
    requires ready { IsGoing buckets.old }
    ensures stores { StoresText DUE_TEXT (set_bytes due.now) buckets.old buckets.new result }
    ensures reads { OnOk result (ReadsOnly (λ n. n ≡ DUE_TEXT) (chains_of buckets.old) (chains_of buckets.new)) }
{
    let bytes = match encode(alloc, due) {
        Ok(bytes) => bytes,
        Err(_) => return Err(FlowFault::OutOfMemory),
    };
    match buckets.store(DUE_TEXT, bytes) {
        Ok(()) => Ok(()),
        Err(fault) => Err(store_fault(fault)),
    }
}
