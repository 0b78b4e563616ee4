//! What a change leaves beside the maps of a store is committed with them.
ghost use Rattle.std.specs.Prelude.{◌≡◌, OnOk};
ghost use Rattle.std.specs.Result.{result_err};
ghost use Rattle.bucket_store.specs.Image.{Has, Image};
ghost use Rattle.update_flow.specs.Reads.{ReadsToCommit};
ghost use Rattle.update_flow.specs.Settling.{committed_due};
ghost use Rattle.update_flow.specs.Turning.{CommitsWith};
ghost use Rattle.update_flow.specs.Within.{IsGoing};
ghost use Rattle.update_flow.specs.declared.fields.TheConstants.{DUE_TEXT};

use crate::FlowFault;
use crate::due_text::store_due;
use crate::finishing::finish;
use bucket_store::Buckets;
use chain_store::Root;
use outside::Disk;
use std::alloc::Global;
use tile_cover::TileRuns;

/// Commits what the transaction has changed, with these due tiles and this number of changes.
pub(crate) fn commit_due<D: Disk>(
    alloc: Global,
    buckets: &mut Buckets<'_, D>,
    due: &TileRuns,
    number: u64,
) -> Result<(), FlowFault>
    requires ready { IsGoing buckets.old }
    ensures commits { CommitsWith (committed_due number due.now) (result_err result) buckets.old buckets.new }
    ensures reads { OnOk result ((rest now : Image) → Has rest now buckets.old → ReadsToCommit (λ n. n ≡ DUE_TEXT) buckets.old buckets.new) }
{
    match store_due(alloc, buckets, due) {
        Ok(()) => {
            let root = buckets.root();
            buckets.set_root(Root {
                changes: number,
                ..root
            });
            finish(buckets)
        }
        Err(fault) => Err(fault),
    }
}
