//! Change files that one thread reads ahead while another appends what they hold.
ghost use Rattle.std.specs.Prelude.{◌≡◌, ◌≢◌, ◌<◌, ◌≤◌, ◌+◌, ℕ, List, [], Some, IfErr, IfNone, IfOk, IfSome, OnOk, length};
ghost use Rattle.std.specs.Bool.{OnFalse};
ghost use Rattle.std.specs.Result.{result_err};
ghost use Rattle.osm_base.specs.bounds.Limits.{standard};
ghost use Rattle.osm_base.specs.declared.bounds.limits.TheConstants.{MAX_ENTRIES};
ghost use Rattle.outside.specs.Inputs.{FilesView};
ghost use Rattle.change_pipe.specs.Ends.{end_view};
ghost use Rattle.change_pipe.specs.Files.{AreRead, ReadsAmong};
ghost use Rattle.change_pipe.specs.Parcels.{IsWholeBody};
ghost use Rattle.change_pipe.specs.declared.pipe.TheConstants.{MAX_AHEAD};
ghost use Rattle.page_journal.specs.Crash.{IsAtRest};
ghost use Rattle.update_flow.specs.Handle.{IsOpen, view_of};
ghost use Rattle.update_flow.specs.State.{Holding, imported};
ghost use Rattle.update_flow.specs.Updater.{handle_of};
ghost use Rattle.run_promise.specs.Ahead.{IsOwnFault};
ghost use Rattle.run_promise.specs.Courses.{appends_one, onward};
ghost use Rattle.run_promise.specs.Files.{IsChange};
ghost use Rattle.run_promise.specs.Progress.{Progress};
ghost use Rattle.run_promise.specs.World.{Before};
ghost use Rattle.updater.specs.Ahead.{AppendsAhead, AppendsLocally, AppendsTaken, HasBecome, TakesChanges, TakesOrStops};
ghost use Rattle.updater.specs.FileReads.{Among, IsRead, IsUnread};
ghost use Rattle.updater.specs.Heads.{IsHead, Leads};
ghost use Rattle.updater.specs.Versions.{AppendsHere};
ghost use Rattle.updater.specs.Works.{KeepsOpen, Works};

use crate::versions::{append_files, commit_change};
use change_pipe::{ChangeFiles, ParcelBody, Pipe, Taker, make_pipe, put_some};
use geom_workers::Hands;
use object_fold::Change;
use osm_base::{Limits, MAX_ENTRIES};
use outside::{Disk, Gate, GatePlace, Inputs, Sink};
use run_promise::Fault;
use std::sync::Wait;
use std::thread::{Threads, join_mut};
use tile_cover::Bounds;
use update_flow::Updater;

/// The entries that a file was read as, or why it was refused.
fn change_of(file: u32, body: ParcelBody) -> Result<Change, Fault>
    ensures ok { (old new : FilesView) → HasBecome file body old new → IfOk result (λ change. IsRead (IsChange file) file change old new) }
    ensures err { (old new : FilesView) → HasBecome file body old new → IfErr result (λ fault. IsUnread (IsChange file) file fault old new) }
    ensures few { IfOk result (λ change. length change ≤ MAX_ENTRIES) }
    ensures whole { OnOk result (IsWholeBody body) }
    ensures own { IsWholeBody body → IfErr result (λ fault. IsOwnFault (Some fault)) }
    ensures formatted { result_err result ≢ Some Fault.NotFormatted }
    ensures sound { (page : ℕ) → result_err result ≢ Some (Fault.BadStore page) }
{
    match body {
        ParcelBody::Whole(change) => {
            if change.entries().len() as u64 > MAX_ENTRIES {
                // Where nobody tells what a file holds, no clause of its reading says that its entries are few.
                return Err(Fault::OutOfMemory);
            }
            Ok(change)
        }
        ParcelBody::Refused(fault) => Err(Fault::in_file(file, fault)),
    }
}

/// Appends what a file was read as, and tells so.
fn append_parcel<R: Threads + Sync, D: Disk, S: Sink, G: Gate>(
    hands: &Hands<'_, R, G>,
    bounds: &Bounds,
    file: u32,
    body: ParcelBody,
    store: &mut Updater<'_, D>,
    out: &mut S,
) -> Result<(), Fault>
    ensures leads { (files read : FilesView) (old : Before) (start done : Progress) (held : Holding) → HasBecome file body files read
        → IsHead start done (imported held) file old files (handle_of store.old) (S.view out.old)
        → Leads (λ last. appends_one bounds.now held file (onward last)) (result_err result) start done (file + 1) old read (handle_of store.new) (S.view out.new) }
    ensures local { OnOk result ((files read : FilesView) (held : Holding) (pages : List (List ℕ)) → HasBecome file body files read
        → IsOpen (imported held) (handle_of store.old) → IsAtRest pages (view_of (handle_of store.old))
        → AppendsHere bounds.now held pages file files read (handle_of store.old) (handle_of store.new)) }
    ensures keeps { KeepsOpen (result_err result) store.old store.new }
    ensures whole { OnOk result (IsWholeBody body) }
    ensures takes { TakesChanges (handle_of store.old) → IsWholeBody body → TakesOrStops (result_err result) (handle_of store.new) }
{
    let change = match change_of(file, body) {
        Ok(change) => change,
        Err(fault) => return Err(fault),
    };
    let _delta = match commit_change(hands, bounds, change, store, out) {
        Ok(delta) => delta,
        Err(fault) => return Err(fault),
    };
    Ok(())
}

/// Appends the change files that another thread reads, in their order, and tells each. The gate is passed before each, with its number
/// from 1.
fn append_taken<R: Threads + Wait + Sync, D: Disk, S: Sink, G: Gate>(
    hands: &Hands<'_, R, G>,
    bounds: &Bounds,
    files: ChangeFiles,
    pipe: &Pipe,
    taker: &mut Taker,
    store: &mut Updater<'_, D>,
    out: &mut S,
) -> Result<(), Fault>
    requires ours { taker.old ≡ end_view pipe.now.home [] }
    requires takes { TakesChanges (handle_of store.old) }
    ensures ours { taker.new.home ≡ pipe.now.home }
    ensures taken { AppendsTaken bounds.now files.first files.count (result_err result) taker.new.list (handle_of store.old) (handle_of store.new) (S.view out.old) (S.view out.new) }
    ensures keeps { KeepsOpen (result_err result) store.old store.new }
{
    let end = files.first + files.count;
    let mut file = files.first;
    while file < end {
        hands
            .gate
            .pass(GatePlace::BeforeChange, u64::from(file - files.first + 1));
        let parcel = pipe.take_when_ready(hands.rt, taker);
        match append_parcel(hands, bounds, file, parcel.body, store, out) {
            Ok(()) => {}
            Err(fault) => return Err(fault),
        }
        file += 1;
    }
    Ok(())
}

/// Does so where somebody reads, and then takes nothing more; answers the fault, if there is one. `None`: nobody reads, and nothing was
/// appended.
fn append_some<R: Threads + Wait + Sync, D: Disk, S: Sink, G: Gate>(
    hands: &Hands<'_, R, G>,
    bounds: &Bounds,
    files: ChangeFiles,
    pipe: &Pipe,
    taker: &mut Taker,
    store: &mut Updater<'_, D>,
    out: &mut S,
) -> Option<Option<Fault>>
    requires ours { taker.old ≡ end_view pipe.now.home [] }
    requires takes { TakesChanges (handle_of store.old) }
    ensures ours { taker.new.home ≡ pipe.now.home }
    ensures taken { IfSome result (λ fault. AppendsTaken bounds.now files.first files.count fault taker.new.list (handle_of store.old) (handle_of store.new) (S.view out.old) (S.view out.new)) }
    ensures keeps { IfSome result (λ fault. KeepsOpen fault store.old store.new) }
    ensures none { IfNone result ((store.new ≡ store.old) × (out.new ≡ out.old)) }
{
    if !pipe.has_begun(hands.rt) {
        return None;
    }
    let done = append_taken(hands, bounds, files, pipe, taker, store, out);
    pipe.stop();
    Some(done.err())
}

/// Ends with this fault, if there is one.
fn ended(fault: Option<Fault>) -> Result<(), Fault>
    ensures fault { result_err result ≡ fault }
{
    match fault {
        None => Ok(()),
        Some(fault) => Err(fault),
    }
}

/// Appends these change files while another thread reads those that come next. `None`: no thread could be made, and nothing was done.
fn append_beside<R: Threads + Wait + Sync, I: Inputs, D: Disk, S: Sink, G: Gate>(
    hands: &Hands<'_, R, G>,
    bounds: &Bounds,
    files: ChangeFiles,
    ahead: u32,
    inputs: &mut I,
    store: &mut Updater<'_, D>,
    out: &mut S,
) -> Option<Result<(), Fault>>
    requires some { 1 ≤ ahead }
    requires few { ahead ≤ MAX_AHEAD }
    requires files { 1 ≤ files.count }
    requires takes { TakesChanges (handle_of store.old) }
    ensures ahead { IfSome result (λ done. AppendsAhead bounds.now files.first files.count ahead (result_err done) (I.view inputs.old) (I.view inputs.new) (handle_of store.old) (handle_of store.new) (S.view out.old) (S.view out.new)) }
    ensures local { IfSome result (λ done. OnOk done (AppendsLocally bounds.now files.first files.count (I.view inputs.old) (handle_of store.old) (handle_of store.new))) }
    ensures works { IfSome result (λ done. Works (λ asked. I.reads inputs.old asked inputs.new) (Among files.first files.count) (result_err done) store.old store.new) }
    ensures none { IfNone result ((inputs.new ≡ inputs.old) × (store.new ≡ store.old) × (out.new ≡ out.old)) }
{
    let (rt, alloc) = (hands.rt, hands.alloc);
    let Ok((pipe, mut putter, mut taker)) = make_pipe(alloc, ahead as usize) else {
        return Some(Err(Fault::OutOfMemory));
    };
    let line = &pipe;
    let numbers = Limits::standard();
    let limits = &numbers;
    let workers = hands.workers.count();
    let (first, count) = (files.first, files.count);
    let (begun, done) = join_mut(
        rt,
        &mut || -> bool
            requires { (putter ≡ end_view line.now.home []) × (first + count ≤ 8192) × (0 < workers) }
            ensures { (putter.exit.home ≡ line.entry.now.home)
                × AreRead limits.entry.now first (first + count) (I.view inputs.entry.now) (I.view inputs.exit.now) putter.exit.list
                × ReadsAmong first (first + count) (λ asked. I.reads inputs.entry.now asked inputs.exit.now) (I.view inputs.entry.now) (I.view inputs.exit.now)
                × OnFalse result (inputs.exit.now ≡ inputs.entry.now) }
        {
            put_some(
                rt,
                alloc,
                inputs,
                ChangeFiles { first, count },
                limits,
                workers,
                line,
                &mut putter,
            )
        },
        &mut || -> Option<Option<Fault>>
            requires { (taker ≡ end_view line.now.home []) × TakesChanges (handle_of store.now) × (files.first + files.count ≤ 8192) }
            ensures { (taker.exit.home ≡ line.entry.now.home)
                × IfSome result (λ fault. AppendsTaken bounds.entry.now files.first files.count fault taker.exit.list
                (handle_of store.entry.now) (handle_of store.exit.now) (S.view out.entry.now) (S.view out.exit.now))
                × IfSome result (λ fault. KeepsOpen fault store.entry.now store.exit.now)
                × IfNone result ((store.exit.now ≡ store.entry.now) × (out.exit.now ≡ out.entry.now)) }
        {
            append_some(
                hands,
                bounds,
                ChangeFiles {
                    first: files.first,
                    count: files.count,
                },
                line,
                &mut taker,
                store,
                out,
            )
        },
    );
    pipe.end(putter, taker);
    match done {
        Some(fault) => Some(ended(fault)),
        None if begun => Some(Err(Fault::OutOfMemory)),
        None => None,
    }
}

/// Appends these change files, one after another, and tells each. Of those that come next so many are read ahead, by a thread of their
/// own; where there is none, or no thread can be made, each is read in its turn.
pub fn append_ahead<R: Threads + Wait + Sync, I: Inputs, D: Disk, S: Sink, G: Gate>(
    hands: &Hands<'_, R, G>,
    bounds: &Bounds,
    files: ChangeFiles,
    ahead: u32,
    inputs: &mut I,
    store: &mut Updater<'_, D>,
    out: &mut S,
) -> Result<(), Fault>
    requires few { ahead ≤ MAX_AHEAD }
    requires takes { TakesChanges (handle_of store.old) }
    ensures ahead { AppendsAhead bounds.now files.first files.count ahead (result_err result) (I.view inputs.old) (I.view inputs.new) (handle_of store.old) (handle_of store.new) (S.view out.old) (S.view out.new) }
    ensures local { OnOk result (AppendsLocally bounds.now files.first files.count (I.view inputs.old) (handle_of store.old) (handle_of store.new)) }
    ensures works { Works (λ asked. I.reads inputs.old asked inputs.new) (Among files.first files.count) (result_err result) store.old store.new }
{
    // One file alone is not behind another.
    if ahead == 0 || files.count < 2 {
        return append_files(hands, bounds, files, inputs, store, out);
    }
    match append_beside(hands, bounds, files, ahead, inputs, store, out) {
        Some(done) => done,
        None => append_files(hands, bounds, files, inputs, store, out),
    }
}
