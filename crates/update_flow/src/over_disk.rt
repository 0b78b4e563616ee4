//! A store stands on its disk between two calls. For a call its buckets are laid over the disk, and taken off again.
ghost use Rattle.std.specs.Prelude.{◌≡◌, ◌≤◌, ◌<◌, ◌+◌, ℕ, None, Some, IfOk, List, OnOk};
ghost use Rattle.std.specs.Result.{result_err};
ghost use Rattle.osm_base.specs.map.Objects.{folded_all};
ghost use Rattle.outside.specs.Disk.{Stays};
ghost use Rattle.row_rules.specs.Row.{tables};
ghost use Rattle.tile_cover.specs.Runs.{has};
ghost use Rattle.bucket_store.specs.Opening.{Fits};
ghost use Rattle.delta_feed.specs.Sound.{IsDelta, IsFull};
ghost use Rattle.delta_feed.specs.declared.block.Block.TheVariants as blocks;
ghost use Rattle.page_journal.specs.Crash.{IsAtRest};
ghost use Rattle.store_maps.specs.Asked.{May};
ghost use Rattle.update_step.specs.Touch.{MayTouch};
ghost use Rattle.update_flow.specs.ChangeReads.{ReadsTouched};
ghost use Rattle.update_flow.specs.Asked.{MayImport};
ghost use Rattle.update_flow.specs.Changes.{AreChanges};
ghost use Rattle.update_flow.specs.Opening.{HoldsState};
ghost use Rattle.update_flow.specs.SoundTurns.{HoldsSound, LooksSoundOn, TurnsSoundOn};
ghost use Rattle.update_flow.specs.State.{Append, Clear, Follow, Following, Holding, Import, Migrate, following, formatted, imported, outdated};
ghost use Rattle.update_flow.specs.Turning.{EndsOn, LooksOn, TurnsOn};
ghost use Rattle.update_flow.specs.Within.{wanted_of};
ghost use Rattle.update_flow.specs.declared.fault.TheConstants.{LAST_CHANGE};

use crate::appending::append;
use crate::clearing::clear;
use crate::due_text::load_due;
use crate::following::{take_delta, take_whole};
use crate::importing::import;
use crate::maps::StoreTxn;
use crate::migrating::migrate;
use crate::reading::{load_rows, load_sorted};
use crate::style_text::load_style_bytes;
use crate::{FlowFault, LAST_CHANGE};
use bucket_store::{Buckets, Resting};
use geom_workers::Hands;
use object_fold::Change;
use osm_base::{Bytes, Delta, Limits, RowChanges, Tables};
use outside::{Disk, Gate};
use std::alloc::Global;
use std::thread::Threads;
use store_maps::SortedRows;
use style_read::Style;
use tile_cover::{Bounds, TileRuns};

/// No tile is due any more, by one commit.
pub(crate) fn clear_on<D: Disk>(
    alloc: Global,
    disk: &mut D,
    limits: &Limits,
    store: Resting,
    kept: &mut Option<Resting>,
) -> Result<(), FlowFault>
    ensures turns { (held : Holding) → Fits store (D.view disk.old) → HoldsState (imported held) (D.view disk.old)
        → TurnsOn limits.now (imported held) Clear (result_err result) (D.view disk.old) (D.view disk.new) kept.new }
    ensures sound { (held : Holding) → Fits store (D.view disk.old) → HoldsSound (imported held) (D.view disk.old)
        → TurnsSoundOn limits.now (imported held) Clear (result_err result) (D.view disk.old) (D.view disk.new) kept.new }
    ensures ends { EndsOn (Some Clear) (result_err result) (D.view disk.old) (D.view disk.new) kept.new }
{
    let mut buckets = Buckets::on(alloc, disk, limits, store);
    let cleared = clear(alloc, &mut buckets);
    let _disk = buckets.hand_back(kept);
    cleared
}

/// An old store is written in the format of today, by one commit.
pub(crate) fn migrate_on<D: Disk>(
    alloc: Global,
    disk: &mut D,
    limits: &Limits,
    store: Resting,
    kept: &mut Option<Resting>,
) -> Result<(), FlowFault>
    ensures turns { (held : Holding) → Fits store (D.view disk.old) → HoldsState (outdated held) (D.view disk.old)
        → TurnsOn limits.now (outdated held) Migrate (result_err result) (D.view disk.old) (D.view disk.new) kept.new }
    ensures ends { EndsOn (Some Migrate) (result_err result) (D.view disk.old) (D.view disk.new) kept.new }
{
    let mut buckets = Buckets::on(alloc, disk, limits, store);
    let migrated = migrate(alloc, &mut buckets);
    let _disk = buckets.hand_back(kept);
    migrated
}

/// The tiles that are due.
pub(crate) fn due_on<D: Disk>(
    alloc: Global,
    disk: &mut D,
    limits: &Limits,
    store: Resting,
    kept: &mut Option<Resting>,
) -> Result<TileRuns, FlowFault>
    ensures looks { (held : Holding) → Fits store (D.view disk.old) → HoldsState (imported held) (D.view disk.old)
        → LooksOn (imported held) (result_err result) (D.view disk.old) (D.view disk.new) kept.new }
    ensures due { IfOk result (λ found. (held : Holding) → Fits store (D.view disk.old) → HoldsState (imported held) (D.view disk.old)
        → (zoom x y : ℕ) → has found zoom x y ≡ held.due zoom x y) }
    ensures sound { (held : Holding) → Fits store (D.view disk.old) → HoldsSound (imported held) (D.view disk.old)
        → LooksSoundOn (imported held) (result_err result) (D.view disk.new) kept.new }
    ensures stays { Stays (D.view disk.old) (D.view disk.new) }
    ensures ends { EndsOn None (result_err result) (D.view disk.old) (D.view disk.new) kept.new }
{
    let mut buckets = Buckets::on(alloc, disk, limits, store);
    let due = load_due(alloc, &mut buckets);
    let _disk = buckets.hand_back(kept);
    due
}

/// The bytes of the style.
pub(crate) fn style_bytes_on<D: Disk>(
    alloc: Global,
    disk: &mut D,
    limits: &Limits,
    store: Resting,
    kept: &mut Option<Resting>,
) -> Result<Bytes, FlowFault>
    ensures looks { (held : Holding) → Fits store (D.view disk.old) → HoldsState (imported held) (D.view disk.old)
        → LooksOn (imported held) (result_err result) (D.view disk.old) (D.view disk.new) kept.new }
    ensures bytes { IfOk result (λ found. (held : Holding) → Fits store (D.view disk.old) → HoldsState (imported held) (D.view disk.old)
        → found ≡ held.style_bytes) }
    ensures sound { (held : Holding) → Fits store (D.view disk.old) → HoldsSound (imported held) (D.view disk.old)
        → LooksSoundOn (imported held) (result_err result) (D.view disk.new) kept.new }
    ensures trusted { IfOk result (λ found. (held : Holding) → Fits store (D.view disk.old) → HoldsSound (imported held) (D.view disk.old)
        → found ≡ held.style_bytes) }
    ensures stays { Stays (D.view disk.old) (D.view disk.new) }
    ensures ends { EndsOn None (result_err result) (D.view disk.old) (D.view disk.new) kept.new }
{
    let mut buckets = Buckets::on(alloc, disk, limits, store);
    let bytes = load_style_bytes(&mut buckets);
    let _disk = buckets.hand_back(kept);
    bytes
}

/// The rows of one table of a store with this style, or of all.
pub(crate) fn rows_on<D: Disk>(
    alloc: Global,
    disk: &mut D,
    limits: &Limits,
    store: Resting,
    kept: &mut Option<Resting>,
    style: &Style,
    wanted: Option<u32>,
) -> Result<Tables, FlowFault>
    ensures looks { (held : Holding) → Fits store (D.view disk.old) → HoldsState (imported held) (D.view disk.old) → held.style ≡ style.now
        → LooksOn (imported held) (result_err result) (D.view disk.old) (D.view disk.new) kept.new }
    ensures tables { IfOk result (λ found. (held : Holding) → Fits store (D.view disk.old) → HoldsState (imported held) (D.view disk.old)
        → held.style ≡ style.now → found ≡ wanted_of wanted (tables held.style held.objects)) }
    ensures follower { (held : Following) → Fits store (D.view disk.old) → HoldsState (following held) (D.view disk.old) → held.style ≡ style.now
        → LooksOn (following held) (result_err result) (D.view disk.old) (D.view disk.new) kept.new }
    ensures followed { IfOk result (λ found. (held : Following) → Fits store (D.view disk.old) → HoldsState (following held) (D.view disk.old)
        → held.style ≡ style.now → found ≡ wanted_of wanted held.tables) }
    ensures sound { (held : Holding) → Fits store (D.view disk.old) → HoldsSound (imported held) (D.view disk.old) → held.style ≡ style.now
        → LooksSoundOn (imported held) (result_err result) (D.view disk.new) kept.new }
    ensures stays { Stays (D.view disk.old) (D.view disk.new) }
    ensures ends { EndsOn None (result_err result) (D.view disk.old) (D.view disk.new) kept.new }
{
    let mut buckets = Buckets::on(alloc, disk, limits, store);
    let rows = load_rows(alloc, &mut buckets, style, wanted);
    let _disk = buckets.hand_back(kept);
    rows
}

/// The rows of all tables of a store with this style, in order.
pub(crate) fn sorted_on<D: Disk>(
    alloc: Global,
    disk: &mut D,
    limits: &Limits,
    store: Resting,
    kept: &mut Option<Resting>,
    style: &Style,
) -> Result<SortedRows, FlowFault>
    ensures looks { (held : Holding) → Fits store (D.view disk.old) → HoldsState (imported held) (D.view disk.old) → held.style ≡ style.now
        → LooksOn (imported held) (result_err result) (D.view disk.old) (D.view disk.new) kept.new }
    ensures tables { IfOk result (λ found. (held : Holding) → Fits store (D.view disk.old) → HoldsState (imported held) (D.view disk.old)
        → held.style ≡ style.now → found ≡ tables held.style held.objects) }
    ensures sound { (held : Holding) → Fits store (D.view disk.old) → HoldsSound (imported held) (D.view disk.old) → held.style ≡ style.now
        → LooksSoundOn (imported held) (result_err result) (D.view disk.new) kept.new }
    ensures stays { Stays (D.view disk.old) (D.view disk.new) }
    ensures ends { EndsOn None (result_err result) (D.view disk.old) (D.view disk.new) kept.new }
{
    let mut buckets = Buckets::on(alloc, disk, limits, store);
    let rows = load_sorted(alloc, &mut buckets, style);
    let _disk = buckets.hand_back(kept);
    rows
}

/// The first import, in one commit.
pub(crate) fn import_on<D: Disk, R: Threads + Sync, G: Gate>(
    hands: &Hands<'_, R, G>,
    disk: &mut D,
    limits: &Limits,
    store: Resting,
    kept: &mut Option<Resting>,
    style_bytes: &[u8],
    style: &Style,
    change: Change,
    buckets: u64,
) -> Result<(), FlowFault>
    requires asked { MayImport style_bytes.now style.now buckets change }
    ensures turns { Fits store (D.view disk.old) → HoldsState formatted (D.view disk.old)
        → TurnsOn limits.now formatted (Import style.now style_bytes.now buckets change) (result_err result) (D.view disk.old) (D.view disk.new) kept.new }
    ensures sound { Fits store (D.view disk.old) → HoldsSound formatted (D.view disk.old)
        → TurnsSoundOn limits.now formatted (Import style.now style_bytes.now buckets change) (result_err result) (D.view disk.old) (D.view disk.new) kept.new }
    ensures ends { EndsOn (Some (Import style.now style_bytes.now buckets change)) (result_err result) (D.view disk.old) (D.view disk.new) kept.new }
{
    let opened = Buckets::on(hands.alloc, disk, limits, store);
    let mut maps = StoreTxn::over(hands.alloc, opened, style);
    let done = import(hands, &mut maps, style_bytes, style, change, buckets);
    let _disk = maps.close().hand_back(kept);
    done
}

/// A change, in one commit, which makes so many changes. Answers how the rows of the tables differ from then on.
pub(crate) fn append_on<D: Disk, R: Threads + Sync, G: Gate>(
    hands: &Hands<'_, R, G>,
    disk: &mut D,
    limits: &Limits,
    store: Resting,
    kept: &mut Option<Resting>,
    style: &Style,
    bounds: &Bounds,
    change: &Change,
    number: u64,
) -> Result<RowChanges, FlowFault>
    requires counted { number ≤ LAST_CHANGE }
    ensures turns { (held : Holding) → Fits store (D.view disk.old) → HoldsState (imported held) (D.view disk.old) → held.style ≡ style.now
        → held.changes + 1 ≡ number
        → TurnsOn limits.now (imported held) (Append bounds.now change.now) (result_err result) (D.view disk.old) (D.view disk.new) kept.new }
    ensures changes { IfOk result (λ changes. (held : Holding) → Fits store (D.view disk.old) → HoldsState (imported held) (D.view disk.old)
        → held.style ≡ style.now → AreChanges (tables held.style held.objects) (tables held.style (folded_all held.objects change.now)) changes) }
    ensures reads { OnOk result ((held : Holding) → Fits store (D.view disk.old) → HoldsState (imported held) (D.view disk.old) → held.style ≡ style.now
        → (may : May) → MayTouch style.now held.objects change.now may → (pages : List (List ℕ)) → IsAtRest pages (D.view disk.old)
        → ReadsTouched may held.buckets pages (D.view disk.old) (D.view disk.new)) }
    ensures sound { (held : Holding) → Fits store (D.view disk.old) → HoldsSound (imported held) (D.view disk.old) → held.style ≡ style.now
        → held.changes + 1 ≡ number
        → TurnsSoundOn limits.now (imported held) (Append bounds.now change.now) (result_err result) (D.view disk.old) (D.view disk.new) kept.new }
    ensures ends { EndsOn (Some (Append bounds.now change.now)) (result_err result) (D.view disk.old) (D.view disk.new) kept.new }
{
    let buckets = Buckets::on(hands.alloc, disk, limits, store);
    let mut maps = StoreTxn::over(hands.alloc, buckets, style);
    let told = append(hands, &mut maps, style, bounds, change, limits, number);
    let _disk = maps.close().hand_back(kept);
    told
}

/// Whole tables of a version take the place of those of a follower's store, or of one that was only made, by one commit.
pub(crate) fn whole_on<D: Disk>(
    alloc: Global,
    disk: &mut D,
    limits: &Limits,
    store: Resting,
    kept: &mut Option<Resting>,
    version: u64,
    style_bytes: Bytes,
    style: &Style,
    rows: RowChanges,
) -> Result<(), FlowFault>
    requires block { IsFull version style_bytes style.now rows }
    ensures begun { Fits store (D.view disk.old) → HoldsState formatted (D.view disk.old)
        → TurnsOn limits.now formatted (Follow (blocks.Full version style_bytes style.now rows)) (result_err result) (D.view disk.old) (D.view disk.new) kept.new }
    ensures turns { (held : Following) → Fits store (D.view disk.old) → HoldsState (following held) (D.view disk.old) → held.version < version
        → TurnsOn limits.now (following held) (Follow (blocks.Full version style_bytes style.now rows)) (result_err result) (D.view disk.old) (D.view disk.new)
        kept.new }
    ensures ends { EndsOn (Some (Follow (blocks.Full version style_bytes style.now rows))) (result_err result) (D.view disk.old) (D.view disk.new) kept.new }
{
    let mut buckets = Buckets::on(alloc, disk, limits, store);
    let taken = take_whole(alloc, &mut buckets, version, style_bytes, style, rows);
    let _disk = buckets.hand_back(kept);
    taken
}

/// What the next change made of the tables is done to those of a follower's store with this style, by one commit.
pub(crate) fn delta_on<D: Disk>(
    alloc: Global,
    disk: &mut D,
    limits: &Limits,
    store: Resting,
    kept: &mut Option<Resting>,
    style: &Style,
    delta: Delta,
) -> Result<(), FlowFault>
    requires block { IsDelta style.now.tables delta.version delta.changes }
    ensures turns { (held : Following) → Fits store (D.view disk.old) → HoldsState (following held) (D.view disk.old) → held.style ≡ style.now
        → delta.version ≡ held.version + 1
        → TurnsOn limits.now (following held) (Follow (blocks.Delta delta)) (result_err result) (D.view disk.old) (D.view disk.new) kept.new }
    ensures ends { EndsOn (Some (Follow (blocks.Delta delta))) (result_err result) (D.view disk.old) (D.view disk.new) kept.new }
{
    let mut buckets = Buckets::on(alloc, disk, limits, store);
    let taken = take_delta(alloc, &mut buckets, style, delta);
    let _disk = buckets.hand_back(kept);
    taken
}
