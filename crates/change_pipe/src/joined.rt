//! Files are read by one thread while another takes what they hold.
ghost use Rattle.std.specs.Prelude.{◌≡◌, ◌<◌, ◌≤◌, ◌+◌, [], IfNone, IfOk, IfSome};
ghost use Rattle.std.specs.Bool.{OnFalse};
ghost use Rattle.change_pipe.specs.declared.pipe.TheConstants.{MAX_AHEAD};
ghost use Rattle.change_pipe.specs.Ends.{IsEndOf, IsUnused, end_view};
ghost use Rattle.change_pipe.specs.Files.{AreRead, HasAll, ReadsAmong, ReadsFiles};

use crate::files::ChangeFiles;
use crate::parcel::{Parcel, is_whole, read_parcel};
use crate::pipe::{Pipe, Taker, make_pipe};
use crate::putting::put_some;
use object_fold::WorkerCount;
use osm_base::{Limits, OutOfMemory};
use outside::Inputs;
use std::alloc::Global;
use std::sync::Wait;
use std::thread::{Threads, join_mut};

/// Takes parcels, so many at most, up to the first that is refused.
fn take_files<R: Wait>(
    rt: &R,
    alloc: Global,
    count: u32,
    pipe: &Pipe,
    taker: &mut Taker,
) -> Result<Vec<Parcel>, OutOfMemory>
    requires unused { IsUnused pipe.now taker.old }
    ensures ours { IsEndOf pipe.now taker.new }
    ensures taken { IfOk result (λ taken. taken.items ≡ taker.new.list) }
    ensures all { IfOk result (λ taken. HasAll count taken.items) }
{
    let mut taken = Vec::new(alloc);
    let mut left = count;
    while left > 0 {
        let parcel = pipe.take_when_ready(rt, taker);
        let whole = is_whole(&parcel);
        taken.push(parcel)?;
        if !whole {
            return Ok(taken);
        }
        left -= 1;
    }
    Ok(taken)
}

/// The same, where somebody puts, and then nothing more will be taken. `None`: nobody does.
fn take_some<R: Wait>(
    rt: &R,
    alloc: Global,
    count: u32,
    pipe: &Pipe,
    taker: &mut Taker,
) -> Result<Option<Vec<Parcel>>, OutOfMemory>
    requires unused { IsUnused pipe.now taker.old }
    ensures ours { IsEndOf pipe.now taker.new }
    ensures taken { IfOk result (λ found. IfSome found (λ taken. taken.items ≡ taker.new.list)) }
    ensures all { IfOk result (λ found. IfSome found (λ taken. HasAll count taken.items)) }
{
    if !pipe.has_begun(rt) {
        return Ok(None);
    }
    let taken = take_files(rt, alloc, count, pipe, taker);
    pipe.stop();
    match taken {
        Ok(taken) => Ok(Some(taken)),
        Err(error) => Err(error),
    }
}

/// What files are read as, up to the first that is refused, each by so many workers.
fn read_each<R: Threads + Sync, I: Inputs>(
    rt: &R,
    alloc: Global,
    inputs: &mut I,
    files: ChangeFiles,
    limits: &Limits,
    workers: WorkerCount,
) -> Result<Vec<Parcel>, OutOfMemory>
    ensures files { ReadsFiles limits.now files (λ Are. IfOk result (λ read. Are read.items)) (λ asked. I.reads inputs.old asked inputs.new)
        (I.view inputs.old) (I.view inputs.new) }
{
    let mut parcels = Vec::new(alloc);
    let end = files.first + files.count;
    let mut file = files.first;
    while file < end {
        let parcel = read_parcel(rt, alloc, inputs, file, limits, workers);
        let whole = is_whole(&parcel);
        parcels.push(parcel)?;
        if !whole {
            return Ok(parcels);
        }
        file += 1;
    }
    Ok(parcels)
}

/// What another thread takes of files, while they are read. `None`: no thread could be made, and none was read.
fn read_beside<R: Threads + Wait + Sync, I: Inputs>(
    rt: &R,
    alloc: Global,
    inputs: &mut I,
    files: ChangeFiles,
    limits: &Limits,
    workers: WorkerCount,
    ahead: usize,
) -> Result<Option<Vec<Parcel>>, OutOfMemory>
    requires some { 1 ≤ ahead }
    requires few { ahead ≤ MAX_AHEAD }
    ensures files { ReadsFiles limits.now files (λ Are. IfOk result (λ found. IfSome found (λ taken. Are taken.items)))
        (λ asked. I.reads inputs.old asked inputs.new) (I.view inputs.old) (I.view inputs.new) }
    ensures unread { IfOk result (λ found. IfNone found (inputs.new ≡ inputs.old)) }
{
    let (pipe, mut putter, mut taker) = make_pipe(alloc, ahead)?;
    let line = &pipe;
    let (read, taken) = join_mut(
        rt,
        &mut || -> bool
            requires { putter ≡ end_view line.now.home [] }
            ensures { (putter.exit.home ≡ line.entry.now.home)
                × AreRead limits.entry.now files.first (files.first + files.count) (I.view inputs.entry.now) (I.view inputs.exit.now) putter.exit.list
                × ReadsAmong files.first (files.first + files.count) (λ asked. I.reads inputs.entry.now asked inputs.exit.now)
                (I.view inputs.entry.now) (I.view inputs.exit.now)
                × OnFalse result (inputs.exit.now ≡ inputs.entry.now) }
        {
            // Taken whole, as its count alone need not be above 0.
            let own = workers;
            put_some(
                rt,
                alloc,
                inputs,
                files,
                limits,
                own.count,
                line,
                &mut putter,
            )
        },
        &mut || -> Result<Option<Vec<Parcel>>, OutOfMemory>
            requires { taker ≡ end_view line.now.home [] }
            ensures { (taker.exit.home ≡ line.entry.now.home)
                × IfOk result (λ found. IfSome found (λ taken. (taken.items ≡ taker.exit.list) × HasAll files.count taken.items)) }
        { take_some(rt, alloc, files.count, line, &mut taker) },
    );
    pipe.end(putter, taker);
    match taken {
        Ok(Some(taken)) => Ok(Some(taken)),
        Ok(None) if read => Err(OutOfMemory),
        Ok(None) => Ok(None),
        Err(error) => Err(error),
    }
}

/// What files are read as, up to the first that is refused, each by so many workers, where so many of them are read ahead. For callers outside: the program does not use it.
pub fn read_ahead<R: Threads + Wait + Sync, I: Inputs>(
    rt: &R,
    alloc: Global,
    inputs: &mut I,
    files: ChangeFiles,
    limits: &Limits,
    workers: u32,
    ahead: usize,
) -> Result<Vec<Parcel>, OutOfMemory>
    requires workers { 0 < workers }
    requires some { 1 ≤ ahead }
    requires few { ahead ≤ MAX_AHEAD }
    ensures parcels { IfOk result (λ taken. AreRead limits.now files.first (files.first + files.count) (I.view inputs.old) (I.view inputs.new) taken.items) }
    ensures all { IfOk result (λ taken. HasAll files.count taken.items) }
    ensures read { ReadsAmong files.first (files.first + files.count) (λ asked. I.reads inputs.old asked inputs.new) (I.view inputs.old) (I.view inputs.new) }
{
    let workers = WorkerCount { count: workers };
    match read_beside(rt, alloc, inputs, files, limits, workers, ahead) {
        Ok(Some(taken)) => Ok(taken),
        Ok(None) => read_each(rt, alloc, inputs, files, limits, workers),
        Err(error) => Err(error),
    }
}
