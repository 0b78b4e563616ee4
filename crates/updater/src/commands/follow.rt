//! `follow STORE FEED+`: files of a feed, one after another, block by block, which the store follows.
ghost use Rattle.run_promise.specs.CommandOf.{FitFrom};
ghost use Rattle.updater.specs.Command.{IsReadAs};
ghost use Rattle.updater.specs.commands.Follow as follow;
ghost use Rattle.std.specs.Result.{result_err};
ghost use Rattle.run_promise.specs.Course.{opens};
ghost use Rattle.run_promise.specs.World.{world};
ghost use Rattle.run_promise.specs.Courses.{follow_to};
ghost use Rattle.updater.specs.FileReads.{Among};
ghost use Rattle.updater.specs.Works.{Does};

use crate::following::follow_files;
use crate::forms::{Words, stored_files};
use crate::words::Command;
use osm_base::Limits;
use outside::{Disk, Inputs, Sink};
use run_promise::{Fault, Files};
use std::alloc::Global;
use update_flow::{Follower, open_follower};

/// The form of its words.
pub fn form(words: Words<'_>) -> Option<Command<'_>>
    ensures read { IsReadAs follow.form words.entry result }
{
    if !words.options.is_empty() {
        return None;
    }
    let (store, files) = stored_files(words, 1)?;
    Some(Command::Follow { store, files })
}

/// Opens the store, and takes the blocks of the files. The version of its tables is told behind each.
pub fn follow<I: Inputs, D: Disk, S: Sink>(
    alloc: Global,
    files: Files,
    inputs: &mut I,
    disk: &mut D,
    out: &mut S,
) -> Result<(), Fault>
    requires fits { FitFrom 1 files }
    ensures does { Does (opens (follow_to files)) (λ asked. I.reads inputs.old asked inputs.new) (Among files.first files.count)
        (world (I.view inputs.old) (D.view disk.old) (S.view out.old)) (world (I.view inputs.new) (D.view disk.new) (S.view out.new)) (result_err result) }
{
    let limits = Limits::standard();
    let found = match open_follower(alloc, disk, &limits) {
        Ok(found) => found,
        Err(fault) => return Err(Fault::in_flow(fault)),
    };
    let Some(base) = found else {
        return Err(Fault::AlreadyImported);
    };
    let mut store = Follower::over(alloc, disk, base, &limits);
    let done = follow_files(alloc, files, inputs, &mut store, out);
    let _disk = store.close();
    done
}
