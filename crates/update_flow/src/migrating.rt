//! An old store is written in the format of today, within its buckets.
ghost use Rattle.std.specs.Prelude.{◌≡◌, Some};
ghost use Rattle.std.specs.Result.{result_err};
ghost use Rattle.osm_base.specs.declared.bounds.limits.LimitNumbers.{LimitNumbers};
ghost use Rattle.bucket_store.specs.Image.{Has, Image};
ghost use Rattle.update_flow.specs.Settling.{migrated};
ghost use Rattle.update_flow.specs.Stands.{IsOld};
ghost use Rattle.update_flow.specs.State.{Holding, Migrate, outdated};
ghost use Rattle.update_flow.specs.Turning.{CommitsWith, EndsIn, TurnsIn, limit_in};
ghost use Rattle.update_flow.specs.Within.{IsGoing};

use crate::fault::store_fault;
use crate::finishing::finish;
use crate::maps::migrate_nodes;
use crate::{FlowFault, IMPORTED_FORMAT};
use bucket_store::Buckets;
use chain_store::Root;
use outside::Disk;
use page_journal::StoreFault;
use std::alloc::Global;

/// Writes the nodes of an old store anew, with unknown tags, and commits them in the format of today.
pub(crate) fn migrate<D: Disk>(alloc: Global, buckets: &mut Buckets<'_, D>) -> Result<(), FlowFault>
    requires ready { IsGoing buckets.old }
    ensures turns { (limits : LimitNumbers) (held : Holding) (rest : Image) → limit_in buckets.old ≡ limits.pages → Has rest rest buckets.old
        → IsOld held rest → TurnsIn limits (outdated held) Migrate (result_err result) buckets.old buckets.new }
    ensures ends { EndsIn (Some Migrate) (result_err result) buckets.old buckets.new }
{
    if buckets.root().buckets == 0 {
        return Err(FlowFault::Store(StoreFault::BadStore { page: 1 }));
    }
    match migrate_nodes(alloc, buckets) {
        Ok(()) => finish_migrated(buckets),
        Err(fault) => Err(store_fault(fault)),
    }
}

/// Commits what the transaction has changed, in the format of today.
fn finish_migrated<D: Disk>(buckets: &mut Buckets<'_, D>) -> Result<(), FlowFault>
    requires ready { IsGoing buckets.old }
    ensures commits { CommitsWith migrated (result_err result) buckets.old buckets.new }
{
    let root = buckets.root();
    buckets.set_root(Root {
        format: IMPORTED_FORMAT,
        ..root
    });
    finish(buckets)
}
