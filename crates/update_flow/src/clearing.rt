//! The due tiles of a store are cleared.
ghost use Rattle.std.specs.Prelude.{◌≡◌, Some};
ghost use Rattle.std.specs.Result.{result_err};
ghost use Rattle.osm_base.specs.declared.bounds.limits.LimitNumbers.{LimitNumbers};
ghost use Rattle.bucket_store.specs.Image.{Has, Image};
ghost use Rattle.update_flow.specs.Sound.{IsSoundImport};
ghost use Rattle.update_flow.specs.SoundTurns.{TurnsSound};
ghost use Rattle.update_flow.specs.Stands.{IsImported};
ghost use Rattle.update_flow.specs.State.{Clear, Holding, imported};
ghost use Rattle.update_flow.specs.Turning.{EndsIn, TurnsIn, limit_in};
ghost use Rattle.update_flow.specs.Within.{IsGoing};

use crate::FlowFault;
use crate::due_text::store_due;
use crate::finishing::finish;
use bucket_store::Buckets;
use outside::Disk;
use std::alloc::Global;
use tile_cover::TileRuns;

/// No tile is due any more, by one commit.
pub(crate) fn clear<D: Disk>(alloc: Global, buckets: &mut Buckets<'_, D>) -> Result<(), FlowFault>
    requires ready { IsGoing buckets.old }
    ensures turns { (limits : LimitNumbers) (held : Holding) (rest : Image) → limit_in buckets.old ≡ limits.pages → Has rest rest buckets.old
        → IsImported held rest → TurnsIn limits (imported held) Clear (result_err result) buckets.old buckets.new }
    ensures sound { (limits : LimitNumbers) (held : Holding) (rest : Image) → limit_in buckets.old ≡ limits.pages → Has rest rest buckets.old
        → IsSoundImport held rest → TurnsSound limits (imported held) Clear (result_err result) buckets.old buckets.new }
    ensures ends { EndsIn (Some Clear) (result_err result) buckets.old buckets.new }
{
    let none = TileRuns::new(alloc);
    match store_due(alloc, buckets, &none) {
        Ok(()) => finish(buckets),
        Err(fault) => Err(fault),
    }
}
