//! `feed STORE BOUNDS CHANGE*`: change files, one after another, and a block of what each makes of the tables for those that follow.
ghost use Rattle.run_promise.specs.CommandOf.{FitFrom};
ghost use Rattle.updater.specs.Command.{IsReadAs};
ghost use Rattle.updater.specs.commands.Feed as feed;
ghost use Rattle.std.specs.Result.{result_err};
ghost use Rattle.update_flow.specs.State.{State};
ghost use Rattle.update_flow.specs.Handle.{view_of};
ghost use Rattle.update_flow.specs.Updater.{handle_of};
ghost use Rattle.run_promise.specs.Course.{opens};
ghost use Rattle.updater.specs.Heads.{GoesOn, IsHead};
ghost use Rattle.run_promise.specs.Progress.{Progress};
ghost use Rattle.run_promise.specs.World.{Before, world};
ghost use Rattle.run_promise.specs.Courses.{feed_to};
ghost use Rattle.updater.specs.FileReads.{Among};
ghost use Rattle.updater.specs.Works.{Does, Works};

use crate::feeding::{feed_files, feed_full};
use crate::file_reads::read_bounds_file;
use crate::forms::{Words, stored_files};
use crate::options::{Allowed, options_of, usual_workers};
use crate::words::Command;
use change_pipe::ChangeFiles;
use geom_workers::Hands;
use osm_base::Limits;
use outside::{Disk, Gate, Inputs, Sink};
use run_promise::{Fault, Files};
use std::thread::Threads;
use update_flow::{Updater, open};

/// The options that belong to it.
const ALLOWED: Allowed = Allowed {
    workers: true,
    readers: false,
    buckets: false,
    clear: false,
    ahead: false,
    full: true,
};

/// The form of its words.
pub fn form(words: Words<'_>) -> Option<Command<'_>>
    ensures read { IsReadAs feed.form words.entry result }
{
    let own = options_of(ALLOWED, words.options)?;
    let (store, files) = stored_files(words, 1)?;
    Some(Command::Feed {
        store,
        files,
        full: own.full,
        workers: own.workers.unwrap_or(usual_workers()),
    })
}

/// Opens the store, and appends the change files to it under BOUNDS. Of each the block of what it makes of the tables is told, and with
/// `full` that of all tables before.
pub fn feed<R: Threads + Sync, I: Inputs, D: Disk, S: Sink, G: Gate>(
    hands: &Hands<'_, R, G>,
    files: Files,
    full: bool,
    inputs: &mut I,
    disk: &mut D,
    out: &mut S,
) -> Result<(), Fault>
    requires fits { FitFrom 1 files }
    ensures does { Does (opens (feed_to files full)) (λ asked. I.reads inputs.old asked inputs.new) (Among files.first files.count)
        (world (I.view inputs.old) (D.view disk.old) (S.view out.old)) (world (I.view inputs.new) (D.view disk.new) (S.view out.new)) (result_err result) }
{
    let limits = Limits::standard();
    let found = match open(hands.alloc, disk, &limits) {
        Ok(found) => found,
        Err(fault) => return Err(Fault::in_flow(fault)),
    };
    let Some(opened) = found else {
        return Err(Fault::Follower);
    };
    let mut store = Updater::over(hands.alloc, disk, opened, &limits);
    let done = feed_store(hands, files, full, inputs, &mut store, out);
    let _disk = store.close();
    done
}

/// The same on an open store.
fn feed_store<R: Threads + Sync, I: Inputs, D: Disk, S: Sink, G: Gate>(
    hands: &Hands<'_, R, G>,
    files: Files,
    full: bool,
    inputs: &mut I,
    store: &mut Updater<'_, D>,
    out: &mut S,
) -> Result<(), Fault>
    requires fits { FitFrom 1 files }
    ensures goes_on { (old : Before) (start done : Progress) (state : State) → IsHead start done state files.first old (I.view inputs.old) (handle_of store.old) (S.view out.old)
        → GoesOn (feed_to files full state) start done (result_err result) old (world (I.view inputs.new) (view_of (handle_of store.new)) (S.view out.new)) }
    ensures works { Works (λ asked. I.reads inputs.old asked inputs.new) (Among files.first files.count) (result_err result) store.old store.new }
{
    if store.old() {
        return Err(Fault::OldFormat);
    }
    if !store.imported() {
        return Err(Fault::NotImported);
    }
    let bounds = match read_bounds_file(hands.alloc, inputs, files.first) {
        Ok(bounds) => bounds,
        Err(fault) => return Err(fault),
    };
    match feed_full(hands, full, store, out) {
        Ok(()) => {}
        Err(fault) => return Err(fault),
    }
    let changes = ChangeFiles {
        first: files.first + 1,
        count: files.count - 1,
    };
    feed_files(hands, &bounds, changes, inputs, store, out)
}
