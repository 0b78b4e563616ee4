//! What a transaction has made of a store is made to stand.
ghost use Rattle.std.specs.Prelude.{OnOk};
ghost use Rattle.std.specs.Result.{result_err};
ghost use Rattle.bucket_store.specs.Image.{Has, Image};
ghost use Rattle.update_flow.specs.Reads.{ReadsToCommit};
ghost use Rattle.update_flow.specs.Turning.{CommitsWith};
ghost use Rattle.update_flow.specs.Within.{IsGoing};

use crate::FlowFault;
use crate::fault::store_fault;
use bucket_store::Buckets;
use outside::Disk;

/// Makes what the transaction has changed stand, all of it or nothing.
pub(crate) fn finish<D: Disk>(buckets: &mut Buckets<'_, D>) -> Result<(), FlowFault>
    requires ready { IsGoing buckets.old }
    ensures commits { CommitsWith (λ now. now) (result_err result) buckets.old buckets.new }
    ensures reads { OnOk result ((rest now : Image) → Has rest now buckets.old → ReadsToCommit (λ _. ⊥) buckets.old buckets.new) }
{
    match buckets.commit() {
        Ok(()) => Ok(()),
        Err(fault) => Err(store_fault(fault)),
    }
}
