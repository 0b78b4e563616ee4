//! Files are read in their order, and what they hold is put into a pipe.
ghost use Rattle.std.specs.Prelude.{◌≡◌, ◌<◌, ◌≤◌, ◌+◌, []};
ghost use Rattle.std.specs.Bool.{OnFalse, OnTrue};
ghost use Rattle.change_pipe.specs.Ends.{end_view};
ghost use Rattle.change_pipe.specs.Files.{AreRead, HasAll, ReadsAmong};

use crate::files::ChangeFiles;
use crate::parcel::{is_whole, read_parcel};
use crate::pipe::{Pipe, Putter};
use object_fold::WorkerCount;
use osm_base::Limits;
use outside::Inputs;
use std::alloc::Global;
use std::sync::Wait;
use std::thread::Threads;

/// Reads files in their order, each by so many workers, and puts a parcel of each into the pipe, up to the first
/// that is refused. `false`: nothing more will be taken, and the parcel of the file that was read last was not put.
pub fn put_files<R: Threads + Wait + Sync, I: Inputs>(
    rt: &R,
    alloc: Global,
    inputs: &mut I,
    files: ChangeFiles,
    limits: &Limits,
    workers: u32,
    pipe: &Pipe,
    putter: &mut Putter,
) -> bool
    requires ours { putter.old ≡ end_view pipe.now.home [] }
    requires workers { 0 < workers }
    ensures ours { putter.new.home ≡ pipe.now.home }
    ensures parcels { AreRead limits.now files.first (files.first + files.count) (I.view inputs.old) (I.view inputs.new) putter.new.list }
    ensures all { OnTrue result (HasAll files.count putter.new.list) }
    ensures read { ReadsAmong files.first (files.first + files.count) (λ asked. I.reads inputs.old asked inputs.new) (I.view inputs.old) (I.view inputs.new) }
{
    let end = files.first + files.count;
    let mut file = files.first;
    while file < end {
        let workers = WorkerCount { count: workers };
        let parcel = read_parcel(rt, alloc, inputs, file, limits, workers);
        let whole = is_whole(&parcel);
        if !pipe.put_when_room(rt, putter, parcel) {
            return false;
        }
        if !whole {
            return true;
        }
        file += 1;
    }
    true
}

/// The same, unless who takes waits for nobody any more. `false`: so it is, and nothing was read and nothing put.
///
/// It is what one thread calls, while the other asks `has_begun`, takes with `take_when_ready` where that is so, up to a parcel that
/// is refused or as many as it wants, and says `stop`. Behind both stands `Pipe::end`: what was taken is a front of what was put.
pub fn put_some<R: Threads + Wait + Sync, I: Inputs>(
    rt: &R,
    alloc: Global,
    inputs: &mut I,
    files: ChangeFiles,
    limits: &Limits,
    workers: u32,
    pipe: &Pipe,
    putter: &mut Putter,
) -> bool
    requires ours { putter.old ≡ end_view pipe.now.home [] }
    requires workers { 0 < workers }
    ensures ours { putter.new.home ≡ pipe.now.home }
    ensures parcels { AreRead limits.now files.first (files.first + files.count) (I.view inputs.old) (I.view inputs.new) putter.new.list }
    ensures read { ReadsAmong files.first (files.first + files.count) (λ asked. I.reads inputs.old asked inputs.new) (I.view inputs.old) (I.view inputs.new) }
    ensures unread { OnFalse result (inputs.new ≡ inputs.old) }
    ensures unput { OnFalse result (putter.new ≡ putter.old) }
{
    if !pipe.begin() {
        return false;
    }
    put_files(rt, alloc, inputs, files, limits, workers, pipe, putter);
    true
}
