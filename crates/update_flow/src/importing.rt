//! The first import into a store, within its buckets.
ghost use Rattle.std.specs.Prelude.{◌≡◌, None, Some};
ghost use Rattle.std.specs.Result.{result_err};
ghost use Rattle.osm_base.specs.declared.bounds.limits.LimitNumbers.{LimitNumbers};
ghost use Rattle.bucket_store.specs.Image.{Has, Image};
ghost use Rattle.update_flow.specs.maps.Calls.{buckets_of, stop_of, style_in};
ghost use Rattle.update_flow.specs.Asked.{MayImport};
ghost use Rattle.update_flow.specs.Settling.{begun};
ghost use Rattle.update_flow.specs.SoundTurns.{TurnsSound};
ghost use Rattle.update_flow.specs.Stands.{IsBlank};
ghost use Rattle.update_flow.specs.State.{Import, formatted};
ghost use Rattle.update_flow.specs.Turning.{CommitsWith, EndsIn, TurnsIn, limit_in};
ghost use Rattle.update_flow.specs.Within.{IsGoing};

use crate::fault::step_fault;
use crate::finishing::finish;
use crate::ids::known_ids;
use crate::maps::StoreTxn;
use crate::style_text::store_style;
use crate::{FlowFault, IMPORTED, IMPORTED_FORMAT};
use bucket_store::Buckets;
use chain_store::Root;
use geom_workers::Hands;
use object_fold::Change;
use outside::{Disk, Gate};
use page_journal::StoreFault;
use std::alloc::Global;
use std::thread::Threads;
use style_read::Style;
use update_step::import_maps;

/// Gives the maps of a store that was only made so many buckets each, puts the objects of a change and their rows into them, and
/// commits them with the style's bytes.
pub(crate) fn import<D: Disk, R: Threads + Sync, G: Gate>(
    hands: &Hands<'_, R, G>,
    maps: &mut StoreTxn<'_, '_, D>,
    style_bytes: &[u8],
    style: &Style,
    change: Change,
    buckets: u64,
) -> Result<(), FlowFault>
    requires ready { IsGoing (buckets_of maps.old) }
    requires fresh { stop_of maps.old ≡ None }
    requires style { style_in maps.old ≡ style.now }
    requires asked { MayImport style_bytes.now style.now buckets change }
    ensures turns { (limits : LimitNumbers) (rest : Image) → limit_in (buckets_of maps.old) ≡ limits.pages → Has rest rest (buckets_of maps.old)
        → IsBlank rest → TurnsIn limits formatted (Import style.now style_bytes.now buckets change) (result_err result) (buckets_of maps.old) (buckets_of maps.new) }
    ensures sound { (limits : LimitNumbers) (rest : Image) → limit_in (buckets_of maps.old) ≡ limits.pages → Has rest rest (buckets_of maps.old)
        → IsBlank rest → TurnsSound limits formatted (Import style.now style_bytes.now buckets change) (result_err result) (buckets_of maps.old) (buckets_of maps.new) }
    ensures ends { EndsIn (Some (Import style.now style_bytes.now buckets change)) (result_err result) (buckets_of maps.old) (buckets_of maps.new) }
{
    if maps.indexed.buckets.root().buckets != 0 {
        return Err(FlowFault::Store(StoreFault::BadStore { page: 1 }));
    }
    known_ids(change.entries());
    maps.indexed.buckets.set_buckets(buckets);
    match import_maps(hands, maps, style, change) {
        Ok(()) => begin(hands.alloc, &mut maps.indexed.buckets, style_bytes),
        Err(why) => Err(step_fault(why)),
    }
}

/// Commits what the transaction has changed as an imported store, with the bytes of its style.
fn begin<D: Disk>(
    alloc: Global,
    buckets: &mut Buckets<'_, D>,
    style_bytes: &[u8],
) -> Result<(), FlowFault>
    requires ready { IsGoing buckets.old }
    ensures commits { CommitsWith (begun style_bytes.now) (result_err result) buckets.old buckets.new }
{
    match store_style(alloc, buckets, style_bytes) {
        Ok(()) => {
            let root = buckets.root();
            buckets.set_root(Root {
                format: IMPORTED_FORMAT,
                state: IMPORTED,
                changes: 0,
                buckets: root.buckets,
            });
            finish(buckets)
        }
        Err(fault) => Err(fault),
    }
}
