//! A file of entries, read by lots of bytes whose lines several workers read side by side.
ghost use Rattle.std.specs.Prelude.{◌≡◌, ◌<◌, ◌≤◌, ◌+◌, ◌*◌, List, ℕ, None, Option, drop, length, true, IfOk, IfErr, OnOk, OnErr};
ghost use Rattle.outside.specs.Bytes.{IfTold};
ghost use Rattle.outside.specs.Causes.{Rose};
ghost use Rattle.opl_files.specs.Ahead.{most_of_lot};
ghost use Rattle.opl_files.specs.Entries.{IsAccepted};
ghost use Rattle.opl_files.specs.Lots.{HasCome, IsNew, IsReading, IsSettled, IsThere, MayTakeLot, ReadsNoFurtherThan, Settles, most_kept};
ghost use Rattle.opl_files.specs.Reading.{HasEntries, IsFaultOf, ReadsAll};
ghost use Rattle.outside.specs.Reads.{ReadsNoOther};
ghost use Rattle.object_fold.specs.Keeps.{TakesNext};
ghost use Rattle.opl_files.specs.ReadsOnly.{ReadsOnly};
ghost use Rattle.opl_files.specs.Stops.{Stops};

use crate::FileFault;
use crate::ahead::Ahead;
use crate::heap::{READER_HEAP, grow_heap};
use crate::lot_size::LotSize;
use crate::progress::Progress;
use crate::scan::{PIECE, read_on, scan_file};
use crate::waiting::{Waiting, read_beside};
use object_fold::{Change, Keeper, WorkerCount};
use osm_base::{Limits, OutOfMemory};
use outside::Inputs;
use std::alloc::Global;
use std::mem;
use std::thread::Threads;

/// How many bytes of a file are read before their lines are shared out, while the lines of as many wait to be put behind the others, and
/// as many are read ahead.
pub const LOT: usize = 1_351_680;

/// How far a file was read: the lines that were taken and the lot that waits behind them, and the bytes that were read behind it.
#[derive(Drop)]
pub struct LotReader {
    workers: WorkerCount,
    waiting: Waiting,
    ahead: Ahead,
    /// The room that a lot had.
    room: Vec<u8>,
}

/// Keeps no longer so many bytes at the front.
fn drop_front(alloc: Global, kept: &mut Vec<u8>, count: usize) -> Result<(), OutOfMemory>
    requires within { count ≤ length kept.old.items }
    ensures ok { OnOk result (kept.new.items ≡ drop count kept.old.items) }
{
    let mut rest = Vec::from_slice(alloc, &kept[count..])?;
    kept.clear();
    kept.append(&mut rest)?;
    Ok(())
}

impl LotReader {
    /// Nothing is read yet.
    fn new(alloc: Global, workers: WorkerCount, lot: LotSize) -> Result<Self, OutOfMemory>
        ensures new { IfOk result (λ reader. IsNew lot.bytes reader) }
    {
        grow_heap(alloc, READER_HEAP);
        Ok(Self {
            workers,
            waiting: Waiting::new(alloc),
            ahead: Ahead::new(alloc, lot)?,
            room: Vec::new(alloc),
        })
    }

    /// Reads the lines that end in what was read ahead, which wait then, takes those that waited, and reads on ahead. `false`: one reader
    /// has to go on from there, or there is no such line.
    fn take_lot<I: Inputs, R: Threads + Sync, K: Keeper>(
        &mut self,
        rt: &R,
        alloc: Global,
        inputs: &mut I,
        file: u32,
        limits: &Limits,
        keeper: &mut K,
    ) -> Result<bool, FileFault>
        requires ready { MayTakeLot K.takes limits.now self.old keeper.old }
        ensures reading { OnOk result (IsReading K.takes limits.now self.new keeper.new) }
        ensures next { IfOk result (λ more. more ≡ true → length self.new.ahead.kept.items ≤ most_of_lot self.new.ahead) }
        ensures lot { OnOk result (self.new.ahead.lot ≡ self.old.ahead.lot) }
        ensures lots { OnOk result ((first : K) (start : Option (List ℕ)) → IsThere K.after limits.now first self.old keeper.old start ((I.view inputs.old).left file)
            → IsThere K.after limits.now first self.new keeper.new start ((I.view inputs.new).left file)) }
        ensures left { OnErr result ((first : K) (start : Option (List ℕ)) → IsThere K.after limits.now first self.old keeper.old start ((I.view inputs.old).left file)
            → ReadsNoFurtherThan (most_kept self.old) limits.now start ((I.view inputs.new).left file)) }
        ensures reads { ReadsOnly result file (λ _. ⊥) (λ asked. I.reads inputs.old asked inputs.new)
            (I.view inputs.old) (I.view inputs.new) }
    {
        // Three lots change places, so that none needs memory anew.
        let room = mem::replace(&mut self.room, Vec::new(alloc));
        let Some(lot) = self.ahead.cut(room)? else {
            return Ok(false);
        };
        let (used, shares) = read_beside(
            rt,
            limits,
            &lot,
            self.workers,
            &mut self.waiting,
            keeper,
            &mut self.ahead,
            inputs,
            file,
        )?;
        drop_front(alloc, &mut self.waiting.bytes, used)?;
        let rest = self.waiting.put_aside(lot, shares)?;
        if rest.is_empty() {
            self.room = rest;
            return Ok(true);
        }
        self.ahead.put_back(rest)?;
        Ok(false)
    }

    /// Takes lots while each line that ends is one that can be taken.
    fn take_lots<I: Inputs, R: Threads + Sync, K: Keeper>(
        &mut self,
        rt: &R,
        alloc: Global,
        inputs: &mut I,
        file: u32,
        limits: &Limits,
        keeper: &mut K,
    ) -> Result<(), FileFault>
        requires ready { MayTakeLot K.takes limits.now self.old keeper.old }
        ensures reading { OnOk result (IsReading K.takes limits.now self.new keeper.new) }
        ensures lot { OnOk result (self.new.ahead.lot ≡ self.old.ahead.lot) }
        ensures lots { OnOk result ((first : K) (start : Option (List ℕ)) → IsThere K.after limits.now first self.old keeper.old start ((I.view inputs.old).left file)
            → IsThere K.after limits.now first self.new keeper.new start ((I.view inputs.new).left file)) }
        ensures left { OnErr result ((first : K) (start : Option (List ℕ)) → IsThere K.after limits.now first self.old keeper.old start ((I.view inputs.old).left file)
            → ReadsNoFurtherThan (most_kept self.old) limits.now start ((I.view inputs.new).left file)) }
        ensures reads { ReadsOnly result file (λ _. ⊥) (λ asked. I.reads inputs.old asked inputs.new)
            (I.view inputs.old) (I.view inputs.new) }
    {
        // Each has a line at least, or it is the last one.
        for _ in 0..limits.lines() {
            if !self.take_lot(rt, alloc, inputs, file, limits, keeper)? {
                return Ok(());
            }
        }
        Ok(())
    }

    /// Puts the lot that waits behind the lines before it. What is left of it stands before the bytes that are kept.
    fn settle<K: Keeper>(
        &mut self,
        alloc: Global,
        limits: &Limits,
        keeper: &mut K,
    ) -> Result<(), OutOfMemory>
        requires reading { IsReading K.takes limits.now self.old keeper.old }
        ensures settled { OnOk result (Settles K.takes limits.now self.old self.new keeper.new) }
        ensures lots { OnOk result ((first : K) (start left : Option (List ℕ)) → IsThere K.after limits.now first self.old keeper.old start left
            → HasCome K.after limits.now first self.new.waiting.passed keeper.new self.new.ahead.kept.items self.new.ahead.more start left) }
    {
        let used = self.waiting.give(limits, keeper)?;
        drop_front(alloc, &mut self.waiting.bytes, used)?;
        let front = mem::replace(&mut self.waiting.bytes, Vec::new(alloc));
        self.ahead.put_back(front)?;
        Ok(())
    }

    /// Takes lots while each line that ends is one that can be taken, and puts the last one behind those before it.
    fn read_lots<I: Inputs, R: Threads + Sync, K: Keeper>(
        &mut self,
        rt: &R,
        alloc: Global,
        inputs: &mut I,
        file: u32,
        limits: &Limits,
        keeper: &mut K,
    ) -> Result<(), FileFault>
        requires ready { MayTakeLot K.takes limits.now self.old keeper.old }
        ensures settled { OnOk result (Settles K.takes limits.now self.old self.new keeper.new) }
        ensures lots { OnOk result ((first : K) (start : Option (List ℕ)) → IsThere K.after limits.now first self.old keeper.old start ((I.view inputs.old).left file)
            → HasCome K.after limits.now first self.new.waiting.passed keeper.new self.new.ahead.kept.items self.new.ahead.more start ((I.view inputs.new).left file)) }
        ensures left { OnErr result ((first : K) (start : Option (List ℕ)) → IsThere K.after limits.now first self.old keeper.old start ((I.view inputs.old).left file)
            → ReadsNoFurtherThan (most_kept self.old) limits.now start ((I.view inputs.new).left file)) }
        ensures reads { ReadsOnly result file (λ _. ⊥) (λ asked. I.reads inputs.old asked inputs.new)
            (I.view inputs.old) (I.view inputs.new) }
    {
        self.ahead.fill(inputs, file)?;
        self.take_lots(rt, alloc, inputs, file, limits, keeper)?;
        self.settle(alloc, limits, keeper)?;
        Ok(())
    }

    /// Reads on by one reader, from the bytes that are kept to the end of the file.
    fn finish<I: Inputs, K: Keeper>(
        self,
        alloc: Global,
        inputs: &mut I,
        file: u32,
        limits: &Limits,
        keeper: &mut K,
    ) -> Result<(), FileFault>
        requires settled { IsSettled K.takes limits.now self keeper.old }
        ensures ok { OnOk result ((first : K) (start : Option (List ℕ))
            → HasCome K.after limits.now first self.waiting.passed keeper.old self.ahead.kept.items self.ahead.more start ((I.view inputs.old).left file)
            → ReadsAll K.after limits.now first keeper.new start ((I.view inputs.new).left file)) }
        ensures left { OnErr result ((first : K) (start : Option (List ℕ))
            → HasCome K.after limits.now first self.waiting.passed keeper.old self.ahead.kept.items self.ahead.more start ((I.view inputs.old).left file)
            → ReadsNoFurtherThan (most_kept self) limits.now start ((I.view inputs.new).left file)) }
        ensures reads { ReadsOnly result file (λ fault. (first : K) (start : Option (List ℕ))
            → HasCome K.after limits.now first self.waiting.passed keeper.old self.ahead.kept.items self.ahead.more start ((I.view inputs.old).left file)
            → IsFaultOf limits.now start fault)
            (λ asked. I.reads inputs.old asked inputs.new) (I.view inputs.old) (I.view inputs.new) }
    {
        let Self {
            workers: _,
            waiting,
            ahead,
            room: _,
        } = self;
        let Ahead {
            lot: _,
            mut buffer,
            kept,
            more,
        } = ahead;
        let mut progress = Progress::behind(alloc, limits, waiting.passed);
        progress.take(alloc, limits, keeper, &kept)?;
        if !more {
            progress.finish(alloc, limits, keeper)?;
            return Ok(());
        }
        while read_on(
            alloc,
            inputs,
            file,
            limits,
            &mut buffer,
            &mut progress,
            keeper,
        )? {}
        progress.finish(alloc, limits, keeper)?;
        Ok(())
    }
}

/// Gives a keeper the entries of a file, one after another, which is read by lots of so many bytes. While the lines of one are read, the
/// entries of the one before it are given, and the next one is read ahead.
pub fn scan_by_lots<I: Inputs, R: Threads + Sync, K: Keeper>(
    rt: &R,
    alloc: Global,
    inputs: &mut I,
    file: u32,
    limits: &Limits,
    workers: u32,
    lot: usize,
    keeper: &mut K,
) -> Result<(), FileFault>
    requires workers { 0 < workers }
    requires lot { 0 < lot }
    requires takes { TakesNext K.takes None keeper.old }
    ensures ok { OnOk result (ReadsAll K.after limits.now keeper.old keeper.new
        ((I.view inputs.old).left file) ((I.view inputs.new).left file)) }
    ensures stopped { IfErr result (Stops (IsFaultOf limits.now ((I.view inputs.old).left file))
        (Rose (I.view inputs.old).faults (I.view inputs.new).faults)) }
    ensures left { OnErr result (ReadsNoFurtherThan (3 * (lot + PIECE)) limits.now
        ((I.view inputs.old).left file) ((I.view inputs.new).left file)) }
    ensures read { ReadsNoOther file (λ asked. I.reads inputs.old asked inputs.new) (I.view inputs.old) (I.view inputs.new) }
{
    let workers = WorkerCount { count: workers };
    let mut reader = LotReader::new(alloc, workers, LotSize { bytes: lot })?;
    reader.read_lots(rt, alloc, inputs, file, limits, keeper)?;
    reader.finish(alloc, inputs, file, limits, keeper)?;
    Ok(())
}

/// Gives a keeper the entries of a file, one after another, which is read by so many workers. A file that is refused may be read three
/// lots further than `scan_file` reads it.
pub fn scan_parallel<I: Inputs, R: Threads + Sync, K: Keeper>(
    rt: &R,
    alloc: Global,
    inputs: &mut I,
    file: u32,
    limits: &Limits,
    workers: u32,
    keeper: &mut K,
) -> Result<(), FileFault>
    requires workers { 0 < workers }
    requires takes { TakesNext K.takes None keeper.old }
    ensures ok { OnOk result (ReadsAll K.after limits.now keeper.old keeper.new
        ((I.view inputs.old).left file) ((I.view inputs.new).left file)) }
    ensures stopped { IfErr result (Stops (IsFaultOf limits.now ((I.view inputs.old).left file))
        (Rose (I.view inputs.old).faults (I.view inputs.new).faults)) }
    ensures left { OnErr result (ReadsNoFurtherThan (3 * (LOT + PIECE)) limits.now
        ((I.view inputs.old).left file) ((I.view inputs.new).left file)) }
    ensures read { ReadsNoOther file (λ asked. I.reads inputs.old asked inputs.new) (I.view inputs.old) (I.view inputs.new) }
{
    // One reader passes lines on without keeping a lot, and costs less than one worker.
    if workers == 1 {
        scan_file(alloc, inputs, file, limits, keeper)?;
        return Ok(());
    }
    scan_by_lots(rt, alloc, inputs, file, limits, workers, LOT, keeper)
}

/// The entries of a file, read by lots of so many bytes.
pub fn read_by_lots<I: Inputs, R: Threads + Sync>(
    rt: &R,
    alloc: Global,
    inputs: &mut I,
    file: u32,
    limits: &Limits,
    workers: u32,
    lot: usize,
) -> Result<Change, FileFault>
    requires workers { 0 < workers }
    requires lot { 0 < lot }
    ensures ok { IfOk result (λ change. HasEntries limits.now change ((I.view inputs.old).left file) ((I.view inputs.new).left file)) }
    ensures accepted { IfOk result (λ change. IfTold ((I.view inputs.old).left file) (λ bytes. IsAccepted limits.now bytes change)) }
    ensures stopped { IfErr result (Stops (IsFaultOf limits.now ((I.view inputs.old).left file))
        (Rose (I.view inputs.old).faults (I.view inputs.new).faults)) }
    ensures left { OnErr result (ReadsNoFurtherThan (3 * (lot + PIECE)) limits.now
        ((I.view inputs.old).left file) ((I.view inputs.new).left file)) }
    ensures read { ReadsNoOther file (λ asked. I.reads inputs.old asked inputs.new) (I.view inputs.old) (I.view inputs.new) }
{
    let mut change = Change::new(alloc);
    scan_by_lots(rt, alloc, inputs, file, limits, workers, lot, &mut change)?;
    Ok(change)
}

/// The entries of a file, read by so many workers. A file that is refused may be read three lots further than `read_file` reads
/// it.
pub fn read_parallel<I: Inputs, R: Threads + Sync>(
    rt: &R,
    alloc: Global,
    inputs: &mut I,
    file: u32,
    limits: &Limits,
    workers: u32,
) -> Result<Change, FileFault>
    requires workers { 0 < workers }
    ensures ok { IfOk result (λ change. HasEntries limits.now change ((I.view inputs.old).left file) ((I.view inputs.new).left file)) }
    ensures accepted { IfOk result (λ change. IfTold ((I.view inputs.old).left file) (λ bytes. IsAccepted limits.now bytes change)) }
    ensures stopped { IfErr result (Stops (IsFaultOf limits.now ((I.view inputs.old).left file))
        (Rose (I.view inputs.old).faults (I.view inputs.new).faults)) }
    ensures left { OnErr result (ReadsNoFurtherThan (3 * (LOT + PIECE)) limits.now
        ((I.view inputs.old).left file) ((I.view inputs.new).left file)) }
    ensures read { ReadsNoOther file (λ asked. I.reads inputs.old asked inputs.new) (I.view inputs.old) (I.view inputs.new) }
{
    let mut change = Change::new(alloc);
    scan_parallel(rt, alloc, inputs, file, limits, workers, &mut change)?;
    Ok(change)
}
