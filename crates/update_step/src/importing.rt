//! The first import.
ghost use Rattle.std.specs.Prelude.{◌≡◌, ◌≤◌, ◌&&◌, ℕ, List, false, length, map, IfOk, IfErr, OnOk};
ghost use Rattle.std.specs.FinMap as finite;
ghost use Rattle.std.specs.List.{AllByRecursion};
ghost use Rattle.osm_base.specs.declared.values.row.TableRow.{TableRow};
ghost use Rattle.osm_base.specs.map.Listers.{is_kind};
ghost use Rattle.osm_base.specs.map.Objects.{folded_all};
ghost use Rattle.osm_base.specs.values.Ids.{AreRisingIds};
ghost use Rattle.osm_base.specs.values.Key.{KeyOf};
ghost use Rattle.row_rules.specs.Rows.{rows_in};
ghost use Rattle.row_rules.specs.Wanted.{may_have_rows};
ghost use Rattle.geom_workers.specs.Keys.{keys_of};
ghost use Rattle.store_maps.specs.Append.{MayKeep, set_all_rows};
ghost use Rattle.store_maps.specs.Looks.{Sets};
ghost use Rattle.store_maps.specs.Maps.{Maps, empty_maps};
ghost use Rattle.store_maps.specs.Stands.{Stands};
ghost use Rattle.store_maps.specs.Step.{change_on};
ghost use Rattle.update_step.specs.Ends.{MayRefuse};
ghost use Rattle.update_step.specs.Importing.{LacksRows, ids_named, keys_named, wanted_among};
ghost use Rattle.update_step.specs.Looks.{Goes};

use crate::StepFault;
use crate::entries::is_of_kind;
use crate::new_objects::NewObjects;
use crate::pending_keys::PendingKeys;
use crate::row_lists::put_turned;
use geom_workers::{Built, Hands, build_all, key_count, key_of};
use object_fold::Change;
use osm_base::{
    Entry, Ids, Key, Kind, MAX_ID, MAX_PENDING, OutOfMemory, PendingSet, RowLists, TableRows,
};
use outside::Gate;
use row_map::may_have_rows;
use std::alloc::Global;
use std::thread::{Threads, join_mut};
use store_maps::MapStore;
use style_read::Style;

/// Whether an entry is of a kind and its object may have rows.
fn is_wanted(style: &Style, kind: Kind, entry: &Entry) -> bool
    ensures wanted { result ≡ (is_kind kind entry.now.key.kind && may_have_rows style.now entry.now.object) }
{
    is_of_kind(entry.key, kind) && may_have_rows(style, &entry.object)
}

/// The ids of the entries of one kind whose objects may have rows.
fn ids_of(alloc: Global, style: &Style, kind: Kind, change: &Change) -> Result<Ids, OutOfMemory>
    ensures ids { IfOk result (λ ids. ids ≡ ids_named kind (wanted_among style.now change.now)) }
    ensures rising { IfOk result AreRisingIds }
{
    let mut ids = Vec::new(alloc);
    for entry in change.entries() {
        let key = entry.key;
        prove!(1 <= key.id && key.id <= MAX_ID);
        if is_wanted(style, kind, entry) {
            ids.push(key.id)?;
        }
    }
    Ok(Ids::from_vec(ids))
}

/// The keys of the entries whose objects may have rows.
fn wanted_keys(alloc: Global, style: &Style, change: &Change) -> Result<PendingKeys, OutOfMemory>
    requires few { length change.now ≤ MAX_PENDING }
    ensures keys { IfOk result (λ keys. keys_of keys.set ≡ keys_named (wanted_among style.now change.now)) }
{
    let _entries = change.entries();
    let nodes = ids_of(alloc, style, Kind::Node, change)?;
    let ways = ids_of(alloc, style, Kind::Way, change)?;
    let relations = ids_of(alloc, style, Kind::Relation, change)?;
    let set = PendingSet::new(nodes, ways, relations);
    Ok(PendingKeys { set })
}

/// What the entries of a change say is so in maps without a value: first who lists what, each list once, and then the objects.
fn add_entries<S: MapStore>(store: &mut S, change: &Change) -> Result<(), S::Refusal>
    requires spent { S.spent store.old ≡ false }
    ensures holds { OnOk result ((under : S.Under) → S.holds store.old under empty_maps → S.holds store.new under (change_on empty_maps change.now)) }
    ensures allowed { (under : S.Under) → S.holds store.old under empty_maps → IfErr result S.allowed }
    ensures sets { Sets S.looked S.spent S.bears S.faults store.old store.new result }
{
    let entries = change.entries();
    store.list_all(entries)?;
    for entry in entries {
        store.set(entry.key, &entry.object)?;
    }
    Ok(())
}

/// The rows of these keys, which all workers build of the objects of the entries, in memory.
fn rows_of<R: Threads + Sync, G: Gate>(
    hands: &Hands<'_, R, G>,
    style: &Style,
    change: &Change,
    keys: &PendingKeys,
) -> Result<RowLists, OutOfMemory>
    ensures rows { IfOk result (λ rows. rows ≡ map (rows_in style.now (folded_all finite.empty change.now)) (keys_of keys.now.set)) }
    ensures kept { IfOk result (AllByRecursion (MayKeep style.now.tables)) }
{
    let objects = NewObjects::of(hands.alloc, change)?;
    let Built { rows, .. } = build_all(hands, style, &keys.set, &objects)?;
    Ok(rows)
}

/// Puts what the entries of a change say into maps without a value, while the workers build the rows of these keys, of which neither
/// waits for the other.
fn add_beside<S: MapStore, R: Threads + Sync, G: Gate>(
    hands: &Hands<'_, R, G>,
    store: &mut S,
    style: &Style,
    change: Change,
    keys: &PendingKeys,
) -> (Result<(), S::Refusal>, Result<RowLists, OutOfMemory>)
    requires spent { S.spent store.old ≡ false }
    ensures holds { OnOk result.0 ((under : S.Under) → S.holds store.old under empty_maps → S.holds store.new under (change_on empty_maps change)) }
    ensures allowed { (under : S.Under) → S.holds store.old under empty_maps → IfErr result.0 S.allowed }
    ensures sets { Sets S.looked S.spent S.bears S.faults store.old store.new result.0 }
    ensures rows { IfOk result.1 (λ rows. rows ≡ map (rows_in style.now (folded_all finite.empty change)) (keys_of keys.now.set)) }
    ensures kept { IfOk result.1 (AllByRecursion (MayKeep style.now.tables)) }
{
    let rt = hands.rt;
    let alloc = hands.alloc;
    let workers = hands.workers;
    let gate = hands.gate;
    let change = &change;
    if workers.count() == 1 {
        let added = add_entries(store, change);
        return (added, rows_of(hands, style, change, keys));
    }
    let (rows, added) = join_mut(
        rt,
        &mut || -> Result<RowLists, OutOfMemory>
            ensures { IfOk result (λ rows. (rows ≡ map (rows_in style.entry.now (folded_all finite.empty change.entry.now)) (keys_of keys.entry.now.set))
                × AllByRecursion (MayKeep style.entry.now.tables) rows) }
        {
            let hands = Hands {
                rt,
                alloc,
                workers,
                gate,
            };
            rows_of(&hands, style, change, keys)
        },
        &mut || -> Result<(), S::Refusal>
            requires { S.spent store.now ≡ false }
            ensures { OnOk result ((under : S.Under) → S.holds store.entry.now under empty_maps → S.holds store.exit.now under (change_on empty_maps change.entry.now))
                × ((under : S.Under) → S.holds store.entry.now under empty_maps → IfErr result S.allowed)
                × Sets S.looked S.spent S.bears S.faults store.entry.now store.exit.now result }
        { add_entries(store, change) },
    );
    (added, rows)
}

/// Each of these keys, which have no rows yet, has its rows.
fn put_all<S: MapStore>(
    store: &mut S,
    keys: &PendingKeys,
    rows: &[TableRows],
) -> Result<(), S::Refusal>
    requires spent { S.spent store.old ≡ false }
    requires count { length rows.now ≡ length (keys_of keys.now.set) }
    requires kept { AllByRecursion (MayKeep (S.style store.old).tables) rows.now }
    ensures holds { OnOk result ((under : S.Under) (maps : Maps) (new : KeyOf → List TableRow) → rows.now ≡ map new (keys_of keys.now.set)
        → LacksRows maps new → S.holds store.old under maps → S.holds store.new under (set_all_rows maps new (keys_of keys.now.set))) }
    ensures allowed { (under : S.Under) (maps : Maps) (new : KeyOf → List TableRow) → rows.now ≡ map new (keys_of keys.now.set)
        → LacksRows maps new → S.holds store.old under maps → IfErr result S.allowed }
    ensures sets { Sets S.looked S.spent S.bears S.faults store.old store.new result }
{
    let set = &keys.set;
    for index in 0..key_count(set) {
        let own = &rows[index];
        put_turned(
            store,
            key_of(set, index as u32),
            !own.as_slice().is_empty(),
            own,
        )?;
    }
    Ok(())
}

/// Puts the objects of entries into a store without any, with their rows, which all workers build.
pub fn import_maps<S: MapStore, R: Threads + Sync, G: Gate>(
    hands: &Hands<'_, R, G>,
    store: &mut S,
    style: &Style,
    change: Change,
) -> Result<(), StepFault<S::Refusal>>
    requires spent { S.spent store.old ≡ false }
    requires style { S.style store.old ≡ style.now }
    requires few { length change ≤ MAX_PENDING }
    ensures stands { OnOk result ((under : S.Under) → S.holds store.old under empty_maps
        → (after : Maps) × S.holds store.new under after × Stands style.now after (folded_all finite.empty change)) }
    ensures allowed { (under : S.Under) → S.holds store.old under empty_maps → IfErr result (MayRefuse S.allowed) }

    // Whatever it answers, below the maps it has only looked.
    ensures goes { Goes S.MapStore.own S.Back (λ _. ⊥) store.old store.new result }
{
    let _entries = change.entries();
    let keys = wanted_keys(hands.alloc, style, &change)?;
    let (added, rows) = add_beside(hands, store, style, change, &keys);
    added.map_err(StepFault::Store)?;
    let rows = rows?;
    match put_all(store, &keys, rows.as_slice()) {
        Ok(()) => Ok(()),
        Err(refusal) => Err(StepFault::Store(refusal)),
    }
}
