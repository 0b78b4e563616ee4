//! The keys of a change that have no rows before it, so that none need be read.
ghost use Rattle.std.specs.Prelude.{◌≡◌, true, false, [], IfOk};
ghost use Rattle.osm_base.specs.declared.values.key.Kind.TheVariants as kinds;
ghost use Rattle.osm_base.specs.map.Listers.{is_kind};
ghost use Rattle.osm_base.specs.map.Objects.{ObjectSet};
ghost use Rattle.row_rules.specs.Condition.{reaches_nodes};
ghost use Rattle.row_rules.specs.Rows.{rows_in};
ghost use Rattle.store_maps.specs.Asked.{May, MayObject};
ghost use Rattle.store_maps.specs.Maps.{Maps};
ghost use Rattle.store_maps.specs.Stands.{StandsOn};
ghost use Rattle.update_step.specs.Lacking.{AreLacking};
ghost use Rattle.update_step.specs.Looks.{Looks};
ghost use Rattle.update_step.specs.Touch.{MayEntries};
ghost use Rattle.update_step.specs.Unknown.{AreUnplaced, IsUnplaced};

use crate::StepFault;
use crate::entries::is_of_kind;
use object_fold::Change;
use osm_base::{Key, Kind};
use row_map::may_have_rows;
use std::alloc::Global;
use store_maps::MapStore;
use style_read::Style;

/// Whether a node has no rows for sure: it has no place, or no table may want it. Of one whose tags are not known no more than its
/// place is known. The place is asked first, since a node that comes anew has none.
fn node_lacks_rows<S: MapStore>(
    store: &mut S,
    style: &Style,
    key: Key,
) -> Result<bool, StepFault<S::Refusal>>
    requires spent { S.spent store.old ≡ false }
    requires node { is_kind kinds.Node key.kind ≡ true }
    ensures none { IfOk result (λ lacks. (under : S.Under) (maps : Maps) (objects : ObjectSet) → S.holds store.old under maps → StandsOn (reaches_nodes style.now) maps objects
        → lacks ≡ true → rows_in style.now objects key ≡ []) }
    ensures unplaced { IfOk result (λ lacks. (under : S.Under) (maps : Maps) → S.holds store.old under maps → lacks ≡ true → IsUnplaced maps key) }
    ensures within { (may : May) → MayObject may key → S.within may store.old → S.within may store.new }
    ensures looks { Looks S.MapStore.own S.Back store.old store.new result }
{
    let place = store.place(key.id).map_err(StepFault::Store)?;
    if place.is_none() {
        return Ok(true);
    }
    let object = store.object(key).map_err(StepFault::Store)?;
    if object.is_none() {
        return Ok(false);
    }
    Ok(!may_have_rows(style, &object))
}

/// Whether a key has no rows for sure: no table may want its object, or it is a node that has no place.
fn lacks_rows<S: MapStore>(
    store: &mut S,
    style: &Style,
    key: Key,
) -> Result<bool, StepFault<S::Refusal>>
    requires spent { S.spent store.old ≡ false }
    ensures none { IfOk result (λ lacks. (under : S.Under) (maps : Maps) (objects : ObjectSet) → S.holds store.old under maps → StandsOn (reaches_nodes style.now) maps objects
        → lacks ≡ true → rows_in style.now objects key ≡ []) }
    ensures unplaced { IfOk result (λ lacks. (under : S.Under) (maps : Maps) → S.holds store.old under maps → lacks ≡ true → IsUnplaced maps key) }
    ensures within { (may : May) → MayObject may key → S.within may store.old → S.within may store.new }
    ensures looks { Looks S.MapStore.own S.Back store.old store.new result }
{
    if is_of_kind(key, Kind::Node) {
        return node_lacks_rows(store, style, key);
    }
    let object = store.object(key).map_err(StepFault::Store)?;
    Ok(!may_have_rows(style, &object))
}

/// The keys of a change that have no rows before it, in the order of the entries.
pub(crate) fn keys_lacking<S: MapStore>(
    alloc: Global,
    store: &mut S,
    style: &Style,
    change: &Change,
) -> Result<Vec<Key>, StepFault<S::Refusal>>
    requires spent { S.spent store.old ≡ false }
    ensures lacking { IfOk result (λ keys. (under : S.Under) (maps : Maps) (objects : ObjectSet) → S.holds store.old under maps → StandsOn (reaches_nodes style.now) maps objects
        → AreLacking (rows_in style.now objects) keys.items) }
    ensures unplaced { IfOk result (λ keys. (under : S.Under) (maps : Maps) → S.holds store.old under maps → AreUnplaced maps keys.items) }
    ensures within { (may : May) → MayEntries may change.now → S.within may store.old → S.within may store.new }
    ensures looks { Looks S.MapStore.own S.Back store.old store.new result }
{
    let mut keys = Vec::new(alloc);
    for entry in change.entries() {
        let key = entry.key;
        let lacks = lacks_rows(store, style, key)?;
        if lacks {
            keys.push(key)?;
        }
    }
    Ok(keys)
}
