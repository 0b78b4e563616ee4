//! A change of a map, whole.
ghost use Rattle.std.specs.Prelude.{◌≡◌, ◌≤◌, false};
ghost use Rattle.osm_base.specs.map.Objects.{ObjectSet};
ghost use Rattle.row_rules.specs.Condition.{reaches_nodes};
ghost use Rattle.dep_closure.specs.PendingSet.{AreTooMany, IsPendingOf};
ghost use Rattle.tile_cover.specs.Runs.{has};
ghost use Rattle.store_maps.specs.Asked.{May};
ghost use Rattle.store_maps.specs.Maps.{Maps};
ghost use Rattle.store_maps.specs.Stands.{Stands, StandsOn};
ghost use Rattle.update_step.specs.Changing.{Changes};
ghost use Rattle.update_step.specs.Looks.{Goes};
ghost use Rattle.update_step.specs.Touch.{MayTouch};
ghost use Rattle.update_step.specs.Unknown.{KeepsKnown, StandsKnown};

use crate::StepFault;
use crate::entries::{apply_change, old_relations};
use crate::lacking::keys_lacking;
use crate::pending_keys::{PendingKeys, keys_due};
use crate::rebuilding::rebuild;
use geom_workers::Hands;
use object_fold::Change;
use osm_base::{Limits, RowChanges};
use outside::Gate;
use std::thread::Threads;
use store_maps::MapStore;
use style_read::Style;
use tile_cover::{Bounds, TileRuns};

/// Makes a change in a store, and rebuilds what depends on it by all workers. Answers how the rows of the tables differ from
/// then on, each change once, by key and then by table, and puts to `due` the tiles that this makes due.
pub fn change_maps<S: MapStore, R: Threads + Sync, G: Gate>(
    hands: &Hands<'_, R, G>,
    store: &mut S,
    style: &Style,
    bounds: &Bounds,
    change: &Change,
    limits: &Limits,
    due: &mut TileRuns,
) -> Result<RowChanges, StepFault<S::Refusal>>
    requires spent { S.spent store.old ≡ false }
    requires style { S.style store.old ≡ style.now }

    // Where its maps stand for objects, they stand for those after it then.
    ensures changes { (under : S.Under) (maps : Maps) (objects : ObjectSet) → S.holds store.old under maps → Stands style.now maps objects
        → Changes (S.holds store.new under) S.allowed style.now bounds.now limits.now.pending objects change.now (has due.old) (has due.new) result }
    ensures within { (under : S.Under) (maps : Maps) (objects : ObjectSet) → S.holds store.old under maps → Stands style.now maps objects
        → (may : May) → MayTouch style.now objects change.now may → S.within may store.old → S.within may store.new }

    // Where nobody knows the tags of some nodes they stand for the objects but for the rows of these, then too.
    ensures known { (under : S.Under) (maps : Maps) (objects : ObjectSet) → S.holds store.old under maps → StandsKnown style.now maps objects
        → KeepsKnown (S.holds store.new under) S.allowed style.now limits.now.pending maps objects change.now result }

    // Whatever it answers, below the maps it has only looked.
    ensures goes { Goes S.MapStore.own S.Back (λ value. (under : S.Under) (maps : Maps) (objects : ObjectSet) → S.holds store.old under maps
        → StandsOn (reaches_nodes style.now) maps objects → AreTooMany limits.now.pending (λ set. IsPendingOf style.now objects change.now set) value) store.old store.new result }
{
    let alloc = hands.alloc;
    let _entries = change.entries();
    let _most = limits.pending();
    let lacking = keys_lacking(alloc, store, style, change)?;
    let lacking = lacking.as_slice();
    let old = old_relations(alloc, store, change)?;
    apply_change(store, change).map_err(StepFault::Store)?;
    match keys_due(alloc, store, style, change, &old, limits) {
        Ok(set) => {
            let pending = PendingKeys { set };
            rebuild(hands, store, style, bounds, &pending, change, lacking, due)
        }
        Err(why) => Err(why),
    }
}
