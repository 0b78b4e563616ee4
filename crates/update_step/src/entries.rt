//! What the entries of a change make of the maps, and the relations that they replace.
ghost use Rattle.std.specs.Prelude.{◌≡◌, Bool, false, fold, IfOk, IfErr, OnOk};
ghost use Rattle.std.specs.FinMap as finite;
ghost use Rattle.osm_base.specs.map.Listers.{is_kind};
ghost use Rattle.osm_base.specs.map.Objects.{ObjectSet};
ghost use Rattle.object_fold.specs.Change.{IsProper};
ghost use Rattle.store_maps.specs.Asked.{May, MayList, MayObject};
ghost use Rattle.store_maps.specs.Looks.{Sets};
ghost use Rattle.store_maps.specs.Maps.{Maps, way_or_relation_in};
ghost use Rattle.store_maps.specs.Stands.{StandsOn};
ghost use Rattle.store_maps.specs.Step.{AreTold, change_on, entry_on};
ghost use Rattle.update_step.specs.Looks.{Looks};
ghost use Rattle.update_step.specs.Old.{with_old};
ghost use Rattle.update_step.specs.Touch.{MayEntries, MayTurnAll};

use crate::StepFault;
use object_fold::{Change, Objects};
use osm_base::{Entry, Key, Kind};
use std::alloc::Global;
use store_maps::MapStore;

/// Whether a key is of a kind.
pub(crate) fn is_of_kind(key: Key, kind: Kind) -> bool
    ensures same { result ≡ is_kind kind key.kind }
{
    key.kind == kind
}

/// What an entry says is so in the maps.
fn apply_entry<S: MapStore>(store: &mut S, entry: &Entry) -> Result<(), S::Refusal>
    requires spent { S.spent store.old ≡ false }
    requires proper { IsProper entry.now }
    ensures holds { OnOk result ((under : S.Under) (maps : Maps) → S.holds store.old under maps → S.holds store.new under (entry_on maps entry.now)) }
    ensures within { (under : S.Under) (maps : Maps) → S.holds store.old under maps → (may : May)
        → MayObject may entry.now.key → MayList may entry.now.key (way_or_relation_in maps entry.now.key.kind entry.now.key.id)
        → MayList may entry.now.key entry.now.object
        → S.within may store.old → S.within may store.new }
    ensures allowed { (under : S.Under) (maps : Maps) → S.holds store.old under maps
        → AreTold maps entry.now.key (way_or_relation_in maps entry.now.key.kind entry.now.key.id) → IfErr result S.allowed }
    ensures sets { Sets S.looked S.spent S.bears S.faults store.old store.new result }
{
    let old = store.way_or_relation(entry.key)?;
    store.relist(entry.key, &old, &entry.object)?;
    store.set(entry.key, &entry.object)?;
    Ok(())
}

/// What the entries of a change say is so in the maps.
pub(crate) fn apply_change<S: MapStore>(store: &mut S, change: &Change) -> Result<(), S::Refusal>
    requires spent { S.spent store.old ≡ false }
    ensures holds { OnOk result ((under : S.Under) (maps : Maps) → S.holds store.old under maps → S.holds store.new under (change_on maps change.now)) }
    ensures within { (under : S.Under) (maps : Maps) → S.holds store.old under maps → (reaches : Bool) (objects : ObjectSet) → StandsOn reaches maps objects
        → (may : May) → MayTurnAll objects may change.now → S.within may store.old → S.within may store.new }
    ensures allowed { (under : S.Under) (maps : Maps) → S.holds store.old under maps
        → (reaches : Bool) (objects : ObjectSet) → StandsOn reaches maps objects → IfErr result S.allowed }
    ensures sets { Sets S.looked S.spent S.bears S.faults store.old store.new result }
{
    for entry in change.entries() {
        apply_entry(store, entry)?;
    }
    Ok(())
}

/// The relations that a change replaces.
pub(crate) fn old_relations<S: MapStore>(
    alloc: Global,
    store: &mut S,
    change: &Change,
) -> Result<Objects, StepFault<S::Refusal>>
    requires spent { S.spent store.old ≡ false }
    ensures old { IfOk result (λ objects. (under : S.Under) (maps : Maps) → S.holds store.old under maps → objects ≡ fold (with_old maps) finite.empty change.now) }
    ensures within { (may : May) → MayEntries may change.now → S.within may store.old → S.within may store.new }
    ensures looks { Looks S.MapStore.own S.Back store.old store.new result }
{
    let mut objects = Objects::new(alloc);
    for entry in change.entries() {
        let key = entry.key;
        if is_of_kind(key, Kind::Relation) {
            let object = store.way_or_relation(key).map_err(StepFault::Store)?;
            objects.apply(Entry { key, object })?;
        }
    }
    Ok(objects)
}
