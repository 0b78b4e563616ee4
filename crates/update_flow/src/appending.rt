//! A change is made in a store, within its buckets.
ghost use Rattle.std.specs.Prelude.{◌≡◌, ◌≤◌, ◌+◌, ℕ, List, None, Some, IfOk, OnOk};
ghost use Rattle.std.specs.FinMap as finite;
ghost use Rattle.std.specs.Result.{result_err};
ghost use Rattle.osm_base.specs.map.Objects.{folded_all};
ghost use Rattle.row_rules.specs.Row.{tables};
ghost use Rattle.chain_store.specs.Answers.{RestsWith};
ghost use Rattle.chain_store.specs.Chains.{disk_of, journal_of, kept_of, read_of};
ghost use Rattle.bucket_store.specs.Buckets.{bucket_count};
ghost use Rattle.bucket_store.specs.Image.{Has, Image};
ghost use Rattle.bucket_store.specs.Transaction.{chains_of};
ghost use Rattle.store_maps.specs.Asked.{May};
ghost use Rattle.update_step.specs.Touch.{MayTouch};
ghost use Rattle.update_flow.specs.maps.Calls.{buckets_of, stop_of, style_in};
ghost use Rattle.update_flow.specs.Changes.{AreChanges};
ghost use Rattle.update_flow.specs.Reads.{MayLoad, ReadsOnce};
ghost use Rattle.update_flow.specs.Sound.{IsSoundImport};
ghost use Rattle.update_flow.specs.SoundTurns.{TurnsSound};
ghost use Rattle.update_flow.specs.Stands.{IsImported};
ghost use Rattle.update_flow.specs.State.{Append, Holding, imported};
ghost use Rattle.update_flow.specs.Turning.{EndsIn, TurnsIn, limit_in};
ghost use Rattle.update_flow.specs.Within.{IsGoing};
ghost use Rattle.update_flow.specs.declared.fault.TheConstants.{LAST_CHANGE};

use crate::due_text::load_due;
use crate::fault::step_fault;
use crate::ids::known_ids;
use crate::maps::StoreTxn;
use crate::settling::commit_due;
use crate::{FlowFault, LAST_CHANGE};
use geom_workers::Hands;
use object_fold::Change;
use osm_base::{Limits, RowChanges};
use outside::{Disk, Gate};
use page_journal::StoreFault;
use std::thread::Threads;
use style_read::Style;
use tile_cover::Bounds;
use update_step::change_maps;

/// Makes a change in the maps of a store, puts the tiles that it makes due to those that are, and commits both with this number of
/// changes. Answers how the rows of the tables differ from then on.
pub(crate) fn append<D: Disk, R: Threads + Sync, G: Gate>(
    hands: &Hands<'_, R, G>,
    maps: &mut StoreTxn<'_, '_, D>,
    style: &Style,
    bounds: &Bounds,
    change: &Change,
    limits: &Limits,
    number: u64,
) -> Result<RowChanges, FlowFault>
    requires ready { IsGoing (buckets_of maps.old) }
    requires fresh { stop_of maps.old ≡ None }
    requires style { style_in maps.old ≡ style.now }
    requires counted { number ≤ LAST_CHANGE }
    ensures turns { (held : Holding) (rest : Image) → limit_in (buckets_of maps.old) ≡ limits.now.pages → Has rest rest (buckets_of maps.old)
        → IsImported held rest → held.style ≡ style.now → held.changes + 1 ≡ number
        → TurnsIn limits.now (imported held) (Append bounds.now change.now) (result_err result) (buckets_of maps.old) (buckets_of maps.new) }
    ensures changes { IfOk result (λ changes. (held : Holding) (rest : Image) → Has rest rest (buckets_of maps.old) → IsImported held rest
        → held.style ≡ style.now → AreChanges (tables held.style held.objects) (tables held.style (folded_all held.objects change.now)) changes) }

    // Over a sound store it is refused for the disk, memory and limits alone, and leaves a sound one.
    ensures sound { (held : Holding) (rest : Image) → limit_in (buckets_of maps.old) ≡ limits.now.pages → Has rest rest (buckets_of maps.old)
        → IsSoundImport held rest → held.style ≡ style.now → held.changes + 1 ≡ number
        → TurnsSound limits.now (imported held) (Append bounds.now change.now) (result_err result) (buckets_of maps.old) (buckets_of maps.new) }

    // Whatever the store holds.
    ensures ends { EndsIn (Some (Append bounds.now change.now)) (result_err result) (buckets_of maps.old) (buckets_of maps.new) }

    // It reads the due tiles, what the change touches, and the free list, each page once.
    ensures reads { OnOk result ((held : Holding) (rest : Image) → Has rest rest (buckets_of maps.old) → IsImported held rest → held.style ≡ style.now
        → read_of (chains_of (buckets_of maps.old)) ≡ finite.empty → (may : May) → MayTouch style.now held.objects change.now may
        → (pages : List (List ℕ)) → RestsWith pages (journal_of (chains_of (buckets_of maps.old)))
        → ReadsOnce (MayLoad may (bucket_count (chains_of (buckets_of maps.old)))) pages (kept_of (chains_of (buckets_of maps.old)))
        (disk_of (chains_of (buckets_of maps.old))) (disk_of (chains_of (buckets_of maps.new)))) }
{
    let alloc = hands.alloc;
    let mut due = match load_due(alloc, &mut maps.indexed.buckets) {
        Ok(due) => due,
        Err(fault) => return Err(fault),
    };
    if maps.indexed.buckets.root().buckets == 0 {
        return Err(FlowFault::Store(StoreFault::BadStore { page: 1 }));
    }
    let told = match change_maps(hands, maps, style, bounds, change, limits, &mut due) {
        Ok(told) => told,
        Err(why) => return Err(step_fault(why)),
    };
    let _runs = due.as_slice();
    known_ids(change.entries());
    match commit_due(alloc, &mut maps.indexed.buckets, &due, number) {
        Ok(()) => Ok(told),
        Err(fault) => Err(fault),
    }
}
