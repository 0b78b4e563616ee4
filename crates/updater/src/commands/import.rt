//! `import STORE STYLE INPUT`: the first import into a store.
ghost use Rattle.std.specs.Prelude.{◌≡◌};
ghost use Rattle.run_promise.specs.CommandOf.{AreBuckets, FitFrom};
ghost use Rattle.updater.specs.Command.{IsReadAs};
ghost use Rattle.updater.specs.commands.Import as import;
ghost use Rattle.std.specs.Result.{result_err};
ghost use Rattle.update_flow.specs.State.{State};
ghost use Rattle.update_flow.specs.Handle.{view_of};
ghost use Rattle.update_flow.specs.Updater.{handle_of};
ghost use Rattle.run_promise.specs.Course.{opens};
ghost use Rattle.updater.specs.Heads.{GoesOn, IsHead};
ghost use Rattle.run_promise.specs.Progress.{Progress};
ghost use Rattle.run_promise.specs.World.{Before, world};
ghost use Rattle.run_promise.specs.Courses.{import_into};
ghost use Rattle.updater.specs.FileReads.{Among};
ghost use Rattle.updater.specs.Works.{Does, Works};

use crate::file_reads::read_style_file;
use crate::forms::{Words, stored_files};
use crate::options::{Allowed, BUCKETS, options_of, usual_workers};
use crate::versions::import_file;
use crate::words::Command;
use geom_workers::Hands;
use osm_base::Limits;
use outside::{Disk, Gate, Inputs, Sink};
use run_promise::{Fault, Files};
use std::thread::Threads;
use update_flow::{Updater, open};

/// The options that belong to it.
const ALLOWED: Allowed = Allowed {
    workers: true,
    readers: false,
    buckets: true,
    clear: false,
    ahead: false,
    full: false,
};

/// The form of its words.
pub fn form(words: Words<'_>) -> Option<Command<'_>>
    ensures read { IsReadAs import.form words.entry result }
{
    let own = options_of(ALLOWED, words.options)?;
    let (store, files) = stored_files(words, 2)?;
    if files.count != 2 {
        return None;
    }
    Some(Command::Import {
        store,
        files,
        buckets: u64::from(own.buckets.unwrap_or(BUCKETS)),
        workers: own.workers.unwrap_or(usual_workers()),
    })
}

/// Opens the store, and imports INPUT into it under STYLE.
pub fn import<R: Threads + Sync, I: Inputs, D: Disk, S: Sink, G: Gate>(
    hands: &Hands<'_, R, G>,
    files: Files,
    buckets: u64,
    inputs: &mut I,
    disk: &mut D,
    out: &mut S,
) -> Result<(), Fault>
    requires fits { FitFrom 2 files × (files.count ≡ 2) × AreBuckets buckets }
    ensures does { Does (opens (import_into files buckets)) (λ asked. I.reads inputs.old asked inputs.new) (Among files.first files.count)
        (world (I.view inputs.old) (D.view disk.old) (S.view out.old)) (world (I.view inputs.new) (D.view disk.new) (S.view out.new)) (result_err result) }
{
    let limits = Limits::standard();
    let found = match open(hands.alloc, disk, &limits) {
        Ok(found) => found,
        Err(fault) => return Err(Fault::in_flow(fault)),
    };
    let Some(opened) = found else {
        return Err(Fault::Follower);
    };
    let mut store = Updater::over(hands.alloc, disk, opened, &limits);
    let done = import_store(hands, files, buckets, inputs, &mut store, out);
    let _disk = store.close();
    done
}

/// The same on an open store.
fn import_store<R: Threads + Sync, I: Inputs, D: Disk, S: Sink, G: Gate>(
    hands: &Hands<'_, R, G>,
    files: Files,
    buckets: u64,
    inputs: &mut I,
    store: &mut Updater<'_, D>,
    out: &mut S,
) -> Result<(), Fault>
    requires fits { FitFrom 2 files × (files.count ≡ 2) × AreBuckets buckets }
    ensures goes_on { (old : Before) (start done : Progress) (state : State) → IsHead start done state files.first old (I.view inputs.old) (handle_of store.old) (S.view out.old)
        → GoesOn (import_into files buckets state) start done (result_err result) old (world (I.view inputs.new) (view_of (handle_of store.new)) (S.view out.new)) }
    ensures works { Works (λ asked. I.reads inputs.old asked inputs.new) (Among files.first files.count) (result_err result) store.old store.new }
{
    if store.old() {
        return Err(Fault::OldFormat);
    }
    if store.imported() {
        return Err(Fault::AlreadyImported);
    }
    let style = match read_style_file(hands.alloc, inputs, files.first) {
        Ok(style) => style,
        Err(fault) => return Err(fault),
    };
    import_file(hands, style, buckets, files.first + 1, inputs, store, out)
}
