//! The rows of pending keys, built anew.
ghost use Rattle.std.specs.Prelude.{◌≡◌, List, length, map, false, IfErr};
ghost use Rattle.std.specs.List.{AllByRecursion};
ghost use Rattle.osm_base.specs.declared.values.row.TableRow.{TableRow};
ghost use Rattle.osm_base.specs.values.Key.{KeyOf};
ghost use Rattle.row_rules.specs.Condition.{reaches_nodes};
ghost use Rattle.geom_workers.specs.Keys.{keys_of};
ghost use Rattle.tile_cover.specs.Runs.{has};
ghost use Rattle.store_maps.specs.Append.{MayKeep};
ghost use Rattle.store_maps.specs.Asked.{May};
ghost use Rattle.store_maps.specs.Maps.{Maps};
ghost use Rattle.store_maps.specs.Named.{known_on};
ghost use Rattle.update_step.specs.Changing.{Replaces};
ghost use Rattle.update_step.specs.Ends.{MayRefuse};
ghost use Rattle.update_step.specs.Gather.{all_needs};
ghost use Rattle.update_step.specs.Looks.{Goes};
ghost use Rattle.update_step.specs.Named.{AreKnown};
ghost use Rattle.update_step.specs.Suffices.{IsBuilt};
ghost use Rattle.update_step.specs.Touch.{MayAllRows, MayAskAll};
ghost use Rattle.update_step.specs.Turned.{HadRows};

use crate::StepFault;
use crate::gathering::gathered;
use crate::pending_keys::PendingKeys;
use crate::row_lists::{NewRows, all_before, keys_in, put_rows};
use crate::turns::turns_of;
use dep_closure::reaches_nodes;
use geom_workers::{Hands, build_all, key_count};
use object_fold::Change;
use osm_base::{Key, RowChanges};
use outside::Gate;
use std::alloc::Global;
use std::thread::Threads;
use store_maps::MapStore;
use style_read::Style;
use tile_cover::{Bounds, TileRuns};

/// Sets the new rows of keys. Answers how they differ from those that were there, and puts to `due` the tiles that this makes due.
/// `lacking` are keys that had no rows.
fn replace<S: MapStore>(
    alloc: Global,
    store: &mut S,
    style: &Style,
    bounds: &Bounds,
    lacking: &[Key],
    news: NewRows<'_>,
    due: &mut TileRuns,
) -> Result<RowChanges, StepFault<S::Refusal>>
    requires spent { S.spent store.old ≡ false }
    requires style { S.style store.old ≡ style.now }
    requires kept { AllByRecursion (MayKeep style.now.tables) news.rows.now }
    ensures replaces { (under : S.Under) (maps : Maps) (old new : KeyOf → List TableRow) → S.holds store.old under maps → HadRows (length style.now.tables) lacking.now maps old
        → news.entry.rows.now ≡ map new news.entry.keys.now
        → Replaces (S.holds store.new under) style.now bounds.now maps news.entry.keys.now old new (has due.old) (has due.new) result }
    ensures within { (may : May) → MayAllRows may news.entry.keys.now → S.within may store.old → S.within may store.new }
    ensures allowed { (under : S.Under) (maps : Maps) (old new : KeyOf → List TableRow) → S.holds store.old under maps → HadRows (length style.now.tables) lacking.now maps old
        → news.entry.rows.now ≡ map new news.entry.keys.now → IfErr result (MayRefuse S.allowed) }
    ensures goes { Goes S.MapStore.own S.Back (λ _. ⊥) store.old store.new result }
{
    let before = all_before(alloc, store, news.keys, lacking)?;
    let olds = before.as_slice();
    let turns = turns_of(alloc, style, bounds, olds, news, due)?;
    let turned = turns.turned.as_slice();
    match put_rows(store, news, turned) {
        Ok(()) => Ok(turns.changes),
        Err(refusal) => Err(StepFault::Store(refusal)),
    }
}

/// Builds the rows of pending keys anew and sets them. Answers how they differ from those that were there, and puts to `due` the
/// tiles that this makes due. The store has what the change says; `lacking` are keys that had no rows.
pub(crate) fn rebuild<S: MapStore, R: Threads + Sync, G: Gate>(
    hands: &Hands<'_, R, G>,
    store: &mut S,
    style: &Style,
    bounds: &Bounds,
    pending: &PendingKeys,
    change: &Change,
    lacking: &[Key],
    due: &mut TileRuns,
) -> Result<RowChanges, StepFault<S::Refusal>>
    requires spent { S.spent store.old ≡ false }
    requires style { S.style store.old ≡ style.now }
    ensures replaces { (under : S.Under) (maps : Maps) (old rows : KeyOf → List TableRow) → S.holds store.old under maps → HadRows (length style.now.tables) lacking.now maps old
        → IsBuilt style.now maps (keys_of pending.now.set) rows → AreKnown (known_on maps) change.now
        → Replaces (S.holds store.new under) style.now bounds.now maps (keys_of pending.now.set) old rows
        (has due.old) (has due.new) result }
    ensures within { (under : S.Under) (maps : Maps) → S.holds store.old under maps → AreKnown (known_on maps) change.now → (may : May)
        → MayAskAll may (all_needs style.now (reaches_nodes style.now) (known_on maps) (keys_of pending.now.set))
        → MayAllRows may (keys_of pending.now.set) → S.within may store.old → S.within may store.new }
    ensures allowed { (under : S.Under) (maps : Maps) (old : KeyOf → List TableRow) → S.holds store.old under maps → HadRows (length style.now.tables) lacking.now maps old
        → IfErr result (MayRefuse S.allowed) }
    ensures goes { Goes S.MapStore.own S.Back (λ _. ⊥) store.old store.new result }
{
    let alloc = hands.alloc;
    let keys = keys_in(alloc, pending)?;
    let keys = keys.as_slice();
    let known = gathered(alloc, store, change, style, reaches_nodes(style), keys)?;
    let few = Hands {
        rt: hands.rt,
        alloc,
        workers: hands.workers.for_keys(key_count(&pending.set)),
        gate: hands.gate,
    };
    let built = build_all(&few, style, &pending.set, &known)?;
    // What the rows were built of is let go before they are kept: of a large change it is as much as they are.
    drop(known);
    let rows = built.rows.as_slice();
    let news = NewRows { keys, rows };
    replace(alloc, store, style, bounds, lacking, news, due)
}
