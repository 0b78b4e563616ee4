//! A store follows another one through the files of its feed, block by block: each is read, taken in one commit, and told.
ghost use Rattle.std.specs.Prelude.{◌≡◌, ◌<◌, ◌≤◌, ◌+◌, ℕ, Ok, true, OnOk, replicate};
ghost use Rattle.std.specs.Result.{result_err};
ghost use Rattle.outside.specs.Reads.{IsReadAlone};
ghost use Rattle.outside.specs.Inputs.{FilesView};
ghost use Rattle.delta_feed.specs.Sound.{IsSound as IsSoundBlock};
ghost use Rattle.update_flow.specs.Handle.{style_of, view_of};
ghost use Rattle.update_flow.specs.Follower.{handle_of};
ghost use Rattle.update_flow.specs.State.{State};
ghost use Rattle.run_promise.specs.Courses.{follows_files};
ghost use Rattle.run_promise.specs.CommandOf.{FitFrom};
ghost use Rattle.run_promise.specs.Progress.{Progress};
ghost use Rattle.run_promise.specs.World.{Before, world};
ghost use Rattle.updater.specs.FileReads.{Among};
ghost use Rattle.updater.specs.Following.{Follows, FollowsFile, FollowsOn, IsReadingOn, KeepsFollower, MayFollow, TakesBlock, TakesNext, follow_fault};
ghost use Rattle.updater.specs.Heads.{GoesOn, IsHead};

use crate::versions::tell_version;
use delta_feed::{Block, FeedReader};
use osm_base::Limits;
use outside::{Disk, Inputs, Sink};
use run_promise::{Fault, Files};
use std::alloc::Global;
use update_flow::{FollowFault, Follower};

/// What a run ends with where a block of this file is not taken.
fn in_follow(file: u32, fault: FollowFault) -> Fault
    ensures fault { result ≡ follow_fault file fault }
{
    match fault {
        FollowFault::Flow(fault) => Fault::in_flow(fault),
        FollowFault::NotImported => Fault::NotImported,
        FollowFault::Gap { have, got } => Fault::Gap { file, have, got },
    }
}

/// Takes a block of this file, where it is new, and tells the version that the tables have then.
fn follow_block<D: Disk, S: Sink>(
    file: u32,
    block: Block,
    store: &mut Follower<'_, D>,
    out: &mut S,
) -> Result<(), Fault>
    requires sound { IsSoundBlock (style_of (handle_of store.old)) block }
    ensures block { (files read : FilesView) (old : Before) (start done : Progress) (state : State) → MayFollow state → IsReadAlone file files read
        → IsHead start done state file old files (handle_of store.old) (S.view out.old)
        → TakesBlock file block (result_err result) start done state old files read (handle_of store.new) (S.view out.new) }
    ensures keeps { KeepsFollower (result_err result) store.old store.new }
{
    let _taken = match store.apply(block) {
        Ok(taken) => taken,
        Err(fault) => return Err(in_follow(file, fault)),
    };
    match store.version() {
        Some(version) => tell_version(out, version),
        None => Err(Fault::NotImported),
    }
}

/// Reads the next block of a file, and takes it. `false`: the file is at its end.
fn follow_next<I: Inputs, D: Disk, S: Sink>(
    alloc: Global,
    file: u32,
    reader: &mut FeedReader,
    inputs: &mut I,
    store: &mut Follower<'_, D>,
    out: &mut S,
) -> Result<bool, Fault>
    requires reading { IsReadingOn file reader.old }
    ensures reading { OnOk result (IsReadingOn file reader.new) }
    ensures lines { result ≡ Ok true → reader.old.lines.number < reader.new.lines.number }
    ensures next { (files : FilesView) (old : Before) (start done : Progress) (state : State) → MayFollow state → IsReadAlone file files (I.view inputs.old)
        → IsHead start done state file old files (handle_of store.old) (S.view out.old)
        → TakesNext file result start done state old files reader.old reader.new (I.view inputs.old) (I.view inputs.new) (handle_of store.new) (S.view out.new) }
    ensures works { FollowsOn (λ asked. I.reads inputs.old asked inputs.new) file (result_err result) (I.view inputs.old) (I.view inputs.new) store.old store.new }
{
    let found = match reader.next(alloc, inputs, store.style()) {
        Ok(found) => found,
        Err(fault) => return Err(Fault::in_feed(file, fault)),
    };
    let Some(block) = found else {
        return Ok(false);
    };
    match follow_block(file, block, store, out) {
        Ok(()) => Ok(true),
        Err(fault) => Err(fault),
    }
}

/// Follows a file to its end.
fn follow_file<I: Inputs, D: Disk, S: Sink>(
    alloc: Global,
    file: u32,
    inputs: &mut I,
    store: &mut Follower<'_, D>,
    out: &mut S,
) -> Result<(), Fault>
    ensures follows { (old : Before) (start done : Progress) (state : State) → MayFollow state
        → IsHead start done state file old (I.view inputs.old) (handle_of store.old) (S.view out.old)
        → FollowsFile file (result_err result) start done state old (I.view inputs.new) (handle_of store.new) (S.view out.new) }
    ensures asked { (count : ℕ) × I.reads inputs.old (replicate count file) inputs.new }
    ensures keeps { KeepsFollower (result_err result) store.old store.new }
{
    let limits = Limits::standard();
    let mut reader = FeedReader::new(alloc, file, &limits);
    loop {
        match follow_next(alloc, file, &mut reader, inputs, store, out) {
            Ok(true) => {}
            Ok(false) => return Ok(()),
            Err(fault) => return Err(fault),
        }
    }
}

/// Follows these files, one after another.
pub fn follow_files<I: Inputs, D: Disk, S: Sink>(
    alloc: Global,
    files: Files,
    inputs: &mut I,
    store: &mut Follower<'_, D>,
    out: &mut S,
) -> Result<(), Fault>
    requires fits { FitFrom 1 files }
    ensures follows { (old : Before) (start done : Progress) (state : State) → MayFollow state
        → IsHead start done state files.first old (I.view inputs.old) (handle_of store.old) (S.view out.old)
        → GoesOn (follows_files files.first files.count state) start done (result_err result) old
        (world (I.view inputs.new) (view_of (handle_of store.new)) (S.view out.new)) }
    ensures works { Follows (λ asked. I.reads inputs.old asked inputs.new) (Among files.first files.count) (result_err result) store.old store.new }
{
    let end = files.first + files.count;
    let mut file = files.first;
    while file < end {
        match follow_file(alloc, file, inputs, store, out) {
            Ok(()) => {}
            Err(fault) => return Err(fault),
        }
        file += 1;
    }
    Ok(())
}
