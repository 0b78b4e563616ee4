//! The rows of keys in a store, as they are and as they come to be.
ghost use Rattle.std.specs.Prelude.{◌≡◌, List, [], length, map, true, false, IfOk, IfErr, OnOk};
ghost use Rattle.std.specs.List.{AllByRecursion};
ghost use Rattle.osm_base.specs.declared.values.row.TableRow.{TableRow as RowOfTable};
ghost use Rattle.osm_base.specs.values.Key.{KeyOf};
ghost use Rattle.geom_workers.specs.Keys.{keys_of};
ghost use Rattle.store_maps.specs.Append.{MayKeep, set_all_rows};
ghost use Rattle.store_maps.specs.Asked.{May, MayRows};
ghost use Rattle.store_maps.specs.Looks.{Sets};
ghost use Rattle.store_maps.specs.Maps.{Maps, rows_at, set_rows, unless_empty};
ghost use Rattle.store_maps.specs.Stands.{HoldsRows};
ghost use Rattle.update_step.specs.Lacking.{AreLacking};
ghost use Rattle.update_step.specs.Looks.{Looks};
ghost use Rattle.update_step.specs.Touch.{MayAllRows};
ghost use Rattle.update_step.specs.Turned.{HasTurned};

use crate::StepFault;
use crate::pending_keys::PendingKeys;
use geom_workers::{key_count, key_of};
use osm_base::{Key, OutOfMemory, RowLists, TableRows};
use std::alloc::Global;
use store_maps::MapStore;

/// Keys with the rows that each of them comes to have.
#[derive(Clone, Copy)]
pub(crate) struct NewRows<'a> {
    pub(crate) keys: &'a [Key],
    pub(crate) rows: &'a [TableRows],
    ghost same: { length rows.now ≡ length keys.now },
}

/// The keys of a pending set: its nodes, its ways and its relations.
pub(crate) fn keys_in(alloc: Global, pending: &PendingKeys) -> Result<Vec<Key>, OutOfMemory>
    ensures keys { IfOk result (λ keys. keys.items ≡ keys_of pending.now.set) }
{
    let set = &pending.set;
    let count = key_count(set);
    let mut keys = Vec::with_capacity(alloc, count)?;
    for number in 0..count as u32 {
        keys.push(key_of(set, number))?;
    }
    Ok(keys)
}

/// Whether a key is one of these, which rise.
fn is_among(keys: &[Key], key: Key) -> bool
    ensures lacking { (rows : KeyOf → List RowOfTable) → AreLacking rows keys.now → result ≡ true → rows key ≡ [] }
{
    keys.binary_search(&key).is_ok()
}

/// The rows that a store has of a key. A key that is one of these is without rows and is not looked up.
fn rows_before<S: MapStore>(
    alloc: Global,
    store: &mut S,
    key: Key,
    lacking: &[Key],
) -> Result<TableRows, StepFault<S::Refusal>>
    requires spent { S.spent store.old ≡ false }
    ensures kept { IfOk result (λ kept. (under : S.Under) (maps : Maps) (old : KeyOf → List RowOfTable) → S.holds store.old under maps
        → HoldsRows maps old → AreLacking old lacking.now → kept ≡ old key) }
    ensures within { (may : May) → MayRows may key → S.within may store.old → S.within may store.new }
    ensures looks { Looks S.MapStore.own S.Back store.old store.new result }
{
    if is_among(lacking, key) {
        return Ok(TableRows::new(alloc));
    }
    let kept = store.rows(key).map_err(StepFault::Store)?;
    match kept {
        Some(rows) => Ok(rows),
        None => Ok(TableRows::new(alloc)),
    }
}

/// The rows that a store has of each of these keys. `lacking` are keys without any.
pub(crate) fn all_before<S: MapStore>(
    alloc: Global,
    store: &mut S,
    keys: &[Key],
    lacking: &[Key],
) -> Result<RowLists, StepFault<S::Refusal>>
    requires spent { S.spent store.old ≡ false }
    ensures kept { IfOk result (λ kept. (under : S.Under) (maps : Maps) (old : KeyOf → List RowOfTable) → S.holds store.old under maps
        → HoldsRows maps old → AreLacking old lacking.now → kept ≡ map old keys.now) }
    ensures count { IfOk result (λ kept. length kept ≡ length keys.now) }
    ensures within { (may : May) → MayAllRows may keys.now → S.within may store.old → S.within may store.new }
    ensures looks { Looks S.MapStore.own S.Back store.old store.new result }
{
    let mut all = RowLists::new(alloc);
    for &key in keys {
        let rows = rows_before(alloc, store, key, lacking)?;
        all.push(rows)?;
    }
    Ok(all)
}

/// A key has these rows from now on. Where it has them already, nothing is to be done.
pub(crate) fn put_turned<S: MapStore>(
    store: &mut S,
    key: Key,
    turned: bool,
    new: &TableRows,
) -> Result<(), S::Refusal>
    requires spent { S.spent store.old ≡ false }
    requires kept { MayKeep (S.style store.old).tables new.now }
    ensures holds { OnOk result ((under : S.Under) (maps : Maps) → S.holds store.old under maps
        → (turned ≡ false → rows_at maps key.kind key.id ≡ unless_empty new.now) → S.holds store.new under (set_rows maps key.kind key.id new.now)) }
    ensures within { (may : May) → MayRows may key → S.within may store.old → S.within may store.new }
    ensures allowed { (under : S.Under) (maps : Maps) → S.holds store.old under maps → IfErr result S.allowed }
    ensures sets { Sets S.looked S.spent S.bears S.faults store.old store.new result }
{
    if !turned {
        return Ok(());
    }
    store.set_rows(key, new)?;
    Ok(())
}

/// Each of these keys has its new rows. `turned` tells of each whether they differ from those that it had.
pub(crate) fn put_rows<S: MapStore>(
    store: &mut S,
    news: NewRows<'_>,
    turned: &[bool],
) -> Result<(), S::Refusal>
    requires spent { S.spent store.old ≡ false }
    requires turned { length turned.now ≡ length news.keys.now }
    requires kept { AllByRecursion (MayKeep (S.style store.old).tables) news.rows.now }
    ensures holds { OnOk result ((under : S.Under) (maps : Maps) (old new : KeyOf → List RowOfTable) → S.holds store.old under maps
        → HasTurned (length (S.style store.old).tables) maps news.entry.keys.now old new turned.now news.entry.rows.now
        → S.holds store.new under (set_all_rows maps new news.entry.keys.now)) }
    ensures within { (may : May) → MayAllRows may news.entry.keys.now → S.within may store.old → S.within may store.new }
    ensures allowed { (under : S.Under) (maps : Maps) (old new : KeyOf → List RowOfTable) → S.holds store.old under maps
        → HasTurned (length (S.style store.old).tables) maps news.entry.keys.now old new turned.now news.entry.rows.now
        → IfErr result S.allowed }
    ensures sets { Sets S.looked S.spent S.bears S.faults store.old store.new result }
{
    let keys = news.keys;
    let rows = news.rows;
    for index in 0..keys.len() {
        put_turned(store, keys[index], turned[index], &rows[index])?;
    }
    Ok(())
}
