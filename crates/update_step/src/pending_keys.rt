//! The keys whose rows a change may change.
ghost use Rattle.std.specs.Prelude.{◌≡◌, ◌≤◌, length, false, IfOk, IfErr, OnOk};
ghost use Rattle.osm_base.specs.map.Objects.{ObjectSet, folded_all};
ghost use Rattle.row_rules.specs.Condition.{reaches_nodes};
ghost use Rattle.dep_closure.specs.PendingSet.{AreTooMany, HasOldForms, IsPendingOf, LeavesRows, size};
ghost use Rattle.geom_workers.specs.Keys.{keys_of};
ghost use Rattle.geom_workers.specs.declared.keys.TheConstants.{MAX_KEYS};
ghost use Rattle.store_maps.specs.Asked.{May};
ghost use Rattle.store_maps.specs.Maps.{Maps};
ghost use Rattle.store_maps.specs.Named.{WaysAreThere};
ghost use Rattle.store_maps.specs.Stands.{StandsOn};
ghost use Rattle.update_step.specs.Ends.{MayRefuse, of_pending};
ghost use Rattle.update_step.specs.Looks.{Goes};
ghost use Rattle.update_step.specs.Touch.{MayTouch};

use crate::StepFault;
use dep_closure::{PendingFault, pending};
use object_fold::{Change, Objects};
use osm_base::{Limits, PendingSet};
use std::alloc::Global;
use store_maps::MapStore;
use style_read::Style;

/// A pending set of no more keys than can be numbered.
#[derive(Drop)]
pub(crate) struct PendingKeys {
    pub(crate) set: PendingSet,
    ghost few: { length (keys_of set) ≤ MAX_KEYS },
}

/// Why a change is not made, where the search for what it makes due ended so.
fn step_fault<E>(why: PendingFault<E>) -> StepFault<E>
    ensures same { result ≡ of_pending why }
{
    match why {
        PendingFault::Back(refusal) => StepFault::Store(refusal),
        PendingFault::TooMany { value } => StepFault::TooMany { value },
        PendingFault::OutOfMemory => StepFault::OutOfMemory,
    }
}

/// The keys whose rows a change may change, which the maps have seen. `old` has the relations that it replaced.
pub(crate) fn keys_due<S: MapStore>(
    alloc: Global,
    store: &mut S,
    style: &Style,
    change: &Change,
    old: &Objects,
    limits: &Limits,
) -> Result<PendingSet, StepFault<S::Refusal>>
    requires spent { S.spent store.old ≡ false }
    ensures pending { IfOk result (λ set. (objects : ObjectSet) → HasOldForms old.now objects change.now → (under : S.Under) (maps : Maps) → S.holds store.old under maps
        → StandsOn (reaches_nodes style.now) maps (folded_all objects change.now)
        → IsPendingOf style.now objects change.now set × LeavesRows style.now objects change.now set) }
    ensures few { IfOk result (λ set. size set ≤ limits.now.pending) }
    ensures holds { OnOk result ((under : S.Under) (maps : Maps) → S.holds store.old under maps → S.holds store.new under maps) }
    ensures within { (under : S.Under) (maps : Maps) (objects : ObjectSet) → S.holds store.old under maps → StandsOn (reaches_nodes style.now) maps (folded_all objects change.now)
        → (may : May) → MayTouch style.now objects change.now may → S.within may store.old → S.within may store.new }
    ensures allowed { (under : S.Under) (maps : Maps) → S.holds store.old under maps → WaysAreThere maps → IfErr result (MayRefuse S.allowed) }
    ensures goes { Goes S.MapStore.own S.Back (λ value. (objects : ObjectSet) → HasOldForms old.now objects change.now → (under : S.Under) (maps : Maps) → S.holds store.old under maps
        → StandsOn (reaches_nodes style.now) maps (folded_all objects change.now)
        → AreTooMany limits.now.pending (λ set. IsPendingOf style.now objects change.now set) value) store.old store.new result }
{
    match pending(alloc, style, change, store, old, limits) {
        Ok(set) => Ok(set),
        Err(why) => Err(step_fault(why)),
    }
}
