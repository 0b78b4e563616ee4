//! What a feed tells of an open store: a block of all its tables, and one of what each change makes of them.
ghost use Rattle.std.specs.Prelude.{◌≡◌, ◌≤◌, ◌+◌, ℕ, true, length};
ghost use Rattle.std.specs.Result.{result_err};
ghost use Rattle.osm_base.specs.declared.bounds.limits.TheConstants.{MAX_ENTRIES};
ghost use Rattle.outside.specs.Inputs.{FilesView};
ghost use Rattle.update_flow.specs.Handle.{view_of};
ghost use Rattle.update_flow.specs.State.{Holding, imported};
ghost use Rattle.update_flow.specs.Updater.{handle_of};
ghost use Rattle.run_promise.specs.Courses.{feeds_changes};
ghost use Rattle.run_promise.specs.Files.{IsChange};
ghost use Rattle.run_promise.specs.Progress.{Progress};
ghost use Rattle.run_promise.specs.World.{Before, world};
ghost use Rattle.updater.specs.Feeding.{FeedsFull, FeedsOne, feed_fault};
ghost use Rattle.updater.specs.FileReads.{Among, IsRead};
ghost use Rattle.updater.specs.Heads.{GoesOn, IsHead};
ghost use Rattle.updater.specs.Works.{KeepsOpen, Works, WorksOn};

use crate::file_reads::read_change;
use change_pipe::ChangeFiles;
use delta_feed::{FeedWrite, write_delta, write_full_by};
use geom_workers::Hands;
use object_fold::Change;
use outside::{Disk, Gate, GatePlace, Inputs, Sink};
use run_promise::Fault;
use std::thread::Threads;
use tile_cover::Bounds;
use update_flow::Updater;

/// What a run ends with where a block was not written whole.
fn in_feed(fault: FeedWrite) -> Fault
    ensures fault { result ≡ feed_fault fault }
{
    match fault {
        FeedWrite::WriteFault => Fault::WriteFault,
        FeedWrite::OutOfMemory => Fault::OutOfMemory,
    }
}

/// Tells the block of all tables of a store that was imported.
fn feed_tables<R: Threads + Sync, D: Disk, S: Sink, G: Gate>(
    hands: &Hands<'_, R, G>,
    store: &mut Updater<'_, D>,
    out: &mut S,
) -> Result<(), Fault>
    ensures feeds { (next : ℕ) (files : FilesView) (old : Before) (start done : Progress) (held : Holding)
        → IsHead start done (imported held) next old files (handle_of store.old) (S.view out.old)
        → FeedsFull true (result_err result) start done held next old files (handle_of store.new) (S.view out.new) }
    ensures keeps { KeepsOpen (result_err result) store.old store.new }
{
    let style = match store.style_bytes() {
        Ok(style) => style,
        Err(fault) => return Err(Fault::in_flow(fault)),
    };
    let tables = match store.load_sorted() {
        Ok(tables) => tables,
        Err(fault) => return Err(Fault::in_flow(fault)),
    };
    match write_full_by(
        hands.rt,
        hands.alloc,
        hands.workers.count(),
        store.changes(),
        style.as_slice(),
        &tables,
        out,
    ) {
        Ok(()) => Ok(()),
        Err(fault) => Err(in_feed(fault)),
    }
}

/// Does so where it is asked for.
pub fn feed_full<R: Threads + Sync, D: Disk, S: Sink, G: Gate>(
    hands: &Hands<'_, R, G>,
    full: bool,
    store: &mut Updater<'_, D>,
    out: &mut S,
) -> Result<(), Fault>
    ensures feeds { (next : ℕ) (files : FilesView) (old : Before) (start done : Progress) (held : Holding)
        → IsHead start done (imported held) next old files (handle_of store.old) (S.view out.old)
        → FeedsFull full (result_err result) start done held next old files (handle_of store.new) (S.view out.new) }
    ensures keeps { KeepsOpen (result_err result) store.old store.new }
{
    if full {
        return feed_tables(hands, store, out);
    }
    Ok(())
}

/// Appends the entries of a change to a store that was imported, in one commit, and then tells the block of it.
fn feed_change<R: Threads + Sync, D: Disk, S: Sink, G: Gate>(
    hands: &Hands<'_, R, G>,
    bounds: &Bounds,
    change: Change,
    store: &mut Updater<'_, D>,
    out: &mut S,
) -> Result<(), Fault>
    requires few { length change ≤ MAX_ENTRIES }

    // Where a file was read as this change.
    ensures feeds { (file : ℕ) (files read : FilesView) (old : Before) (start done : Progress) (held : Holding) → IsRead (IsChange file) file change files read
        → IsHead start done (imported held) file old files (handle_of store.old) (S.view out.old)
        → FeedsOne bounds.now file (result_err result) start done held old read (handle_of store.new) (S.view out.new) }
    ensures keeps { KeepsOpen (result_err result) store.old store.new }
{
    let delta = match store.append_one(hands, bounds, change) {
        Ok(delta) => delta,
        Err(fault) => return Err(Fault::in_flow(fault)),
    };
    match write_delta(hands.alloc, &delta, out) {
        Ok(()) => Ok(()),
        Err(fault) => Err(in_feed(fault)),
    }
}

/// Reads a change file, and does so with its entries.
fn feed_file<R: Threads + Sync, I: Inputs, D: Disk, S: Sink, G: Gate>(
    hands: &Hands<'_, R, G>,
    bounds: &Bounds,
    file: u32,
    inputs: &mut I,
    store: &mut Updater<'_, D>,
    out: &mut S,
) -> Result<(), Fault>
    ensures feeds { (old : Before) (start done : Progress) (held : Holding) → IsHead start done (imported held) file old (I.view inputs.old) (handle_of store.old) (S.view out.old)
        → FeedsOne bounds.now file (result_err result) start done held old (I.view inputs.new) (handle_of store.new) (S.view out.new) }
    ensures works { WorksOn (λ asked. I.reads inputs.old asked inputs.new) file (result_err result) store.old store.new }
{
    let change = match read_change(hands, inputs, file) {
        Ok(change) => change,
        Err(fault) => return Err(fault),
    };
    feed_change(hands, bounds, change, store, out)
}

/// Does so with these change files, one after another. The gate is passed before each, with its number from 1.
pub fn feed_files<R: Threads + Sync, I: Inputs, D: Disk, S: Sink, G: Gate>(
    hands: &Hands<'_, R, G>,
    bounds: &Bounds,
    files: ChangeFiles,
    inputs: &mut I,
    store: &mut Updater<'_, D>,
    out: &mut S,
) -> Result<(), Fault>
    ensures feeds { (old : Before) (start done : Progress) (held : Holding) → IsHead start done (imported held) files.first old (I.view inputs.old) (handle_of store.old) (S.view out.old)
        → GoesOn (feeds_changes bounds.now held files.first files.count) start done (result_err result) old
        (world (I.view inputs.new) (view_of (handle_of store.new)) (S.view out.new)) }
    ensures works { Works (λ asked. I.reads inputs.old asked inputs.new) (Among files.first files.count) (result_err result) store.old store.new }
{
    let end = files.first + files.count;
    let mut file = files.first;
    while file < end {
        hands
            .gate
            .pass(GatePlace::BeforeChange, u64::from(file - files.first + 1));
        match feed_file(hands, bounds, file, inputs, store, out) {
            Ok(()) => {}
            Err(fault) => return Err(fault),
        }
        file += 1;
    }
    Ok(())
}
