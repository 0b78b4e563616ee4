//! `replay STORE STYLE BOUNDS INPUT CHANGE*`: a store made, imported and changed, and all that it holds.
ghost use Rattle.std.specs.Prelude.{◌≢◌, ◌≤◌, ◌+◌, List, ℕ, Some};
ghost use Rattle.std.specs.Result.{result_err};
ghost use Rattle.outside.specs.Inputs.{FilesView};
ghost use Rattle.update_flow.specs.Handle.{view_of};
ghost use Rattle.update_flow.specs.State.{Holding, State, imported};
ghost use Rattle.update_flow.specs.Updater.{handle_of};
ghost use Rattle.run_promise.specs.CommandOf.{FitFrom};
ghost use Rattle.updater.specs.Command.{IsReadAs};
ghost use Rattle.run_promise.specs.Course.{formats, looks};
ghost use Rattle.run_promise.specs.Courses.{fills, if_blank, onward, replay_course, telling};
ghost use Rattle.updater.specs.Heads.{GoesOn, IsHead, IsSoFar};
ghost use Rattle.run_promise.specs.Making.{reading_alone};
ghost use Rattle.run_promise.specs.Progress.{Progress, begun, unused};
ghost use Rattle.updater.specs.FileReads.{Among};
ghost use Rattle.run_promise.specs.Runs.{AsksOnly, GoesBy};
ghost use Rattle.updater.specs.Works.{KeepsOpen, Makes, Works};
ghost use Rattle.run_promise.specs.World.{Before, world};
ghost use Rattle.updater.specs.commands.Replay as replay;

use crate::file_reads::{StyleFile, read_bounds_file, read_style_file};
use crate::forms::{Words, stored_files};
use crate::making::{MADE_BUCKETS, wants_empty};
use crate::options::{Allowed, options_of, usual_workers};
use crate::telling::tell;
use crate::versions::{append_files, import_file};
use crate::whole_text::whole_text;
use crate::words::Command;
use change_pipe::ChangeFiles;
use geom_workers::Hands;
use osm_base::Limits;
use outside::{Disk, Gate, Inputs, Sink};
use page_journal::format;
use run_promise::{Fault, Files};
use std::alloc::Global;
use std::thread::Threads;
use tile_cover::Bounds;
use update_flow::{Updater, open};

/// The options that belong to it.
const ALLOWED: Allowed = Allowed {
    workers: true,
    readers: false,
    buckets: false,
    clear: false,
    ahead: false,
    full: false,
};

/// The form of its words.
pub fn form(words: Words<'_>) -> Option<Command<'_>>
    ensures read { IsReadAs replay.form words.entry result }
{
    let own = options_of(ALLOWED, words.options)?;
    let (store, files) = stored_files(words, 3)?;
    Some(Command::Replay {
        store,
        files,
        workers: own.workers.unwrap_or(usual_workers()),
    })
}

/// Makes a store on an empty disk, imports INPUT into it under STYLE, appends the change files under BOUNDS, and writes all that it
/// holds then.
pub fn replay<R: Threads + Sync, I: Inputs, D: Disk, S: Sink, G: Gate>(
    hands: &Hands<'_, R, G>,
    files: Files,
    inputs: &mut I,
    disk: &mut D,
    out: &mut S,
) -> Result<(), Fault>
    requires fits { FitFrom 3 files }
    ensures course { GoesBy (replay_course files) (begun unused 0) (result_err result)
        (world (I.view inputs.old) (D.view disk.old) (S.view out.old))
        (world (I.view inputs.new) (D.view disk.new) (S.view out.new)) }
    ensures asked { AsksOnly (λ asked. I.reads inputs.old asked inputs.new) (Among files.first files.count) }
    ensures makes { Makes (result_err result) (D.view disk.old) (D.view disk.new) }
{
    if let Err(fault) = wants_empty(disk) {
        return Err(fault);
    }
    let style = match read_style_file(hands.alloc, inputs, files.first) {
        Ok(style) => style,
        Err(fault) => return Err(fault),
    };
    let bounds = match read_bounds_file(hands.alloc, inputs, files.first + 1) {
        Ok(bounds) => bounds,
        Err(fault) => return Err(fault),
    };
    make_store(
        hands,
        style,
        &bounds,
        files.first + 2,
        files.count - 3,
        inputs,
        disk,
        out,
    )
}

/// Makes a store on an empty disk, and fills it.
fn make_store<R: Threads + Sync, I: Inputs, D: Disk, S: Sink, G: Gate>(
    hands: &Hands<'_, R, G>,
    style: StyleFile,
    bounds: &Bounds,
    first: u32,
    changes: u32,
    inputs: &mut I,
    disk: &mut D,
    out: &mut S,
) -> Result<(), Fault>
    requires fits { first + 1 + changes ≤ 8192 }
    ensures goes_on { (old : Before) (read : List ℕ)
        → IsSoFar (begun unused 0) (reading_alone read) first old (I.view inputs.old) (D.view disk.old) (S.view out.old)
        → GoesOn (formats (looks (fills (style.style, style.bytes) bounds.now first changes))) (begun unused 0) (reading_alone read) (result_err result) old
        (world (I.view inputs.new) (D.view disk.new) (S.view out.new)) }
    ensures asked { AsksOnly (λ asked. I.reads inputs.old asked inputs.new) (Among first (changes + 1)) }
    ensures formatted { result_err result ≢ Some Fault.NotFormatted }
{
    if let Err(fault) = format(disk) {
        return Err(Fault::in_store(fault));
    }
    let limits = Limits::standard();
    let found = match open(hands.alloc, disk, &limits) {
        Ok(found) => found,
        Err(fault) => return Err(Fault::in_made(fault)),
    };
    let Some(opened) = found else {
        return Err(Fault::AlreadyImported);
    };
    let mut store = Updater::over(hands.alloc, disk, opened, &limits);
    let done = fill_store(
        hands, style, bounds, first, changes, inputs, &mut store, out,
    );
    let _disk = store.close();
    done
}

/// Imports a file into a store that was only made, appends so many behind it, and writes all that the store holds then.
fn fill_store<R: Threads + Sync, I: Inputs, D: Disk, S: Sink, G: Gate>(
    hands: &Hands<'_, R, G>,
    style: StyleFile,
    bounds: &Bounds,
    first: u32,
    changes: u32,
    inputs: &mut I,
    store: &mut Updater<'_, D>,
    out: &mut S,
) -> Result<(), Fault>
    requires fits { first + 1 + changes ≤ 8192 }
    ensures goes_on { (old : Before) (start done : Progress) (state : State) → IsHead start done state first old (I.view inputs.old) (handle_of store.old) (S.view out.old)
        → GoesOn (if_blank (fills (style.style, style.bytes) bounds.now first changes) state) start done (result_err result) old
        (world (I.view inputs.new) (view_of (handle_of store.new)) (S.view out.new)) }
    ensures works { Works (λ asked. I.reads inputs.old asked inputs.new) (Among first (changes + 1)) (result_err result) store.old store.new }
{
    if store.imported() {
        return Err(Fault::AlreadyImported);
    }
    match import_file(hands, style, MADE_BUCKETS, first, inputs, store, out) {
        Ok(()) => {}
        Err(fault) => return Err(fault),
    }
    let files = ChangeFiles {
        first: first + 1,
        count: changes,
    };
    match append_files(hands, bounds, files, inputs, store, out) {
        Ok(()) => {}
        Err(fault) => return Err(fault),
    }
    tell_whole(hands.alloc, bounds.zoom(), store, out)
}

/// Writes all that a store holds, of its due tiles those from this zoom on.
fn tell_whole<D: Disk, S: Sink>(
    alloc: Global,
    least: u32,
    store: &mut Updater<'_, D>,
    out: &mut S,
) -> Result<(), Fault>
    ensures goes_on { (old : Before) (files : FilesView) (start done : Progress) (held : Holding) (next : ℕ)
        → IsHead start done (imported held) next old files (handle_of store.old) (S.view out.old)
        → GoesOn (onward (telling least) held) start done (result_err result) old (world files (view_of (handle_of store.new)) (S.view out.new)) }
    ensures keeps { KeepsOpen (result_err result) store.old store.new }
{
    let tables = match store.load_tables() {
        Ok(tables) => tables,
        Err(fault) => return Err(Fault::in_flow(fault)),
    };
    let due = match store.due() {
        Ok(due) => due,
        Err(fault) => return Err(Fault::in_flow(fault)),
    };
    let text = match store.style() {
        Some(style) => whole_text(alloc, style, &tables, &due, least),
        None => return Err(Fault::NotImported),
    };
    match text {
        Ok(text) => tell(out, &text),
        Err(_) => Err(Fault::OutOfMemory),
    }
}
