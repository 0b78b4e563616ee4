//! `append STORE BOUNDS CHANGE+`: change files, one after another, of which some are read ahead.
ghost use Rattle.std.specs.Prelude.{◌≤◌, List, ℕ, OnOk};
ghost use Rattle.run_promise.specs.Ahead.{IsReadAhead, MayBeRead};
ghost use Rattle.run_promise.specs.CommandOf.{FitFrom};
ghost use Rattle.run_promise.specs.declared.ranges.TheConstants.{MAX_AHEAD};
ghost use Rattle.updater.specs.Command.{IsReadAs};
ghost use Rattle.updater.specs.commands.Append as append;
ghost use Rattle.std.specs.Result.{result_err};
ghost use Rattle.outside.specs.Inputs.{FilesView};
ghost use Rattle.page_journal.specs.Crash.{IsAtRest};
ghost use Rattle.update_flow.specs.State.{Holding, State, imported};
ghost use Rattle.update_flow.specs.Handle.{IsOpen, view_of};
ghost use Rattle.update_flow.specs.Updater.{handle_of};
ghost use Rattle.run_promise.specs.Course.{opens};
ghost use Rattle.updater.specs.Heads.{GoesOn, IsHead};
ghost use Rattle.run_promise.specs.Locality.{AppendsAll, IsLocal};
ghost use Rattle.run_promise.specs.Progress.{Progress};
ghost use Rattle.run_promise.specs.World.{Before, world};
ghost use Rattle.run_promise.specs.Courses.{append_to};
ghost use Rattle.updater.specs.FileReads.{Among};
ghost use Rattle.updater.specs.Works.{Does, Works};

use crate::ahead::append_ahead;
use crate::file_reads::read_bounds_file;
use crate::forms::{Words, stored_files};
use crate::options::{Allowed, options_of, usual_workers};
use crate::words::Command;
use change_pipe::ChangeFiles;
use geom_workers::Hands;
use osm_base::Limits;
use outside::{Disk, Gate, Inputs, Sink};
use run_promise::{Fault, Files};
use std::sync::Wait;
use std::thread::Threads;
use update_flow::{Updater, open};

/// The options that belong to it.
const ALLOWED: Allowed = Allowed {
    workers: true,
    readers: false,
    buckets: false,
    clear: false,
    ahead: true,
    full: false,
};

/// The form of its words.
pub fn form(words: Words<'_>) -> Option<Command<'_>>
    ensures read { IsReadAs append.form words.entry result }
{
    let own = options_of(ALLOWED, words.options)?;
    let (store, files) = stored_files(words, 2)?;
    Some(Command::Append {
        store,
        files,
        ahead: own.ahead.unwrap_or(0),
        workers: own.workers.unwrap_or(usual_workers()),
    })
}

/// Opens the store, and appends the change files to it under BOUNDS, of which so many are read ahead. It goes by its course over the
/// files as it has seen them.
pub fn append<R: Threads + Wait + Sync, I: Inputs, D: Disk, S: Sink, G: Gate>(
    hands: &Hands<'_, R, G>,
    files: Files,
    ahead: u32,
    inputs: &mut I,
    disk: &mut D,
    out: &mut S,
) -> Result<(), Fault>
    requires fits { FitFrom 2 files × (ahead ≤ MAX_AHEAD) }
    ensures does { (seen : FilesView) × IsReadAhead (MayBeRead files ahead (result_err result)) seen (I.view inputs.new)
        × Does (opens (append_to files)) (λ asked. I.reads inputs.old asked inputs.new) (Among files.first files.count)
        (world (I.view inputs.old) (D.view disk.old) (S.view out.old)) (world seen (D.view disk.new) (S.view out.new)) (result_err result) }
    ensures local { OnOk result (IsLocal files
        (world (I.view inputs.old) (D.view disk.old) (S.view out.old))
        (world (I.view inputs.new) (D.view disk.new) (S.view out.new))) }
{
    let limits = Limits::standard();
    let found = match open(hands.alloc, disk, &limits) {
        Ok(found) => found,
        Err(fault) => return Err(Fault::in_flow(fault)),
    };
    let Some(opened) = found else {
        return Err(Fault::Follower);
    };
    let mut store = Updater::over(hands.alloc, disk, opened, &limits);
    let done = append_store(hands, files, ahead, inputs, &mut store, out);
    let _disk = store.close();
    done
}

/// The same on an open store.
fn append_store<R: Threads + Wait + Sync, I: Inputs, D: Disk, S: Sink, G: Gate>(
    hands: &Hands<'_, R, G>,
    files: Files,
    ahead: u32,
    inputs: &mut I,
    store: &mut Updater<'_, D>,
    out: &mut S,
) -> Result<(), Fault>
    requires fits { FitFrom 2 files × (ahead ≤ MAX_AHEAD) }
    ensures goes_on { (seen : FilesView) × IsReadAhead (MayBeRead files ahead (result_err result)) seen (I.view inputs.new)
        × ((old : Before) (start done : Progress) (state : State) → IsHead start done state files.first old (I.view inputs.old) (handle_of store.old) (S.view out.old)
        → GoesOn (append_to files state) start done (result_err result) old (world seen (view_of (handle_of store.new)) (S.view out.new))) }
    ensures local { OnOk result ((held : Holding) (pages : List (List ℕ)) → IsOpen (imported held) (handle_of store.old) → IsAtRest pages (view_of (handle_of store.old))
        → AppendsAll files held pages (I.view inputs.old) (view_of (handle_of store.old)).reads (view_of (handle_of store.new)).reads) }
    ensures works { Works (λ asked. I.reads inputs.old asked inputs.new) (Among files.first files.count) (result_err result) store.old store.new }
{
    if store.old() {
        return Err(Fault::OldFormat);
    }
    if !store.imported() {
        return Err(Fault::NotImported);
    }
    let bounds = match read_bounds_file(hands.alloc, inputs, files.first) {
        Ok(bounds) => bounds,
        Err(fault) => return Err(fault),
    };
    let changes = ChangeFiles {
        first: files.first + 1,
        count: files.count - 1,
    };
    append_ahead(hands, &bounds, changes, ahead, inputs, store, out)
}
