//! A file of entries, read piece by piece to its end.
ghost use Rattle.std.specs.Prelude.{◌≡◌, ◌≤◌, ◌<◌, None, true, length, IfOk, IfErr, OnOk, OnErr};
ghost use Rattle.opl_lines.specs.Reading.{room};
ghost use Rattle.outside.specs.Bytes.{IfTold};
ghost use Rattle.outside.specs.Causes.{Rose};
ghost use Rattle.opl_files.specs.Entries.{IsAccepted};
ghost use Rattle.opl_files.specs.Progress.{IsReadyFor, ReadsOn, ReadsPiece, IsKeptFault};
ghost use Rattle.object_fold.specs.Keeps.{TakesNext};
ghost use Rattle.opl_files.specs.Reading.{ReadsAll, ReadsAtMost, ReadsNoFurther, IsFaultOf, HasEntries};
ghost use Rattle.outside.specs.Reads.{ReadsNoOther, ReadsOnce};
ghost use Rattle.opl_files.specs.Stops.{Stops};

use crate::FileFault;
use crate::progress::Progress;
use object_fold::{Change, Keeper};
use osm_base::{Limits, OutOfMemory};
use outside::Inputs;
use std::alloc::Global;

/// How many bytes are asked of a file at a time.
pub const PIECE: usize = 65_536;

/// Room for the bytes of one read.
pub(crate) fn piece_buffer(alloc: Global) -> Result<Vec<u8>, OutOfMemory>
    ensures some { IfOk result (λ buffer. 0 < length buffer.items) }
    ensures room { IfOk result (λ buffer. length buffer.items ≤ PIECE) }
{
    Ok(vec![in alloc; 0u8; PIECE]?)
}

/// One read of the file, and all lines that end in it. `false`: the file is at its end.
pub(crate) fn read_on<I: Inputs, K: Keeper>(
    alloc: Global,
    inputs: &mut I,
    file: u32,
    limits: &Limits,
    buffer: &mut [u8],
    progress: &mut Progress,
    keeper: &mut K,
) -> Result<bool, FileFault>
    requires some { 0 < length buffer.old }
    requires ready { IsReadyFor K.takes limits.now progress.old keeper.old }
    ensures ready { OnOk result (IsReadyFor K.takes limits.now progress.new keeper.new) }
    ensures bytes { IfOk result (λ more. ReadsOn K.after limits.now progress.old keeper.old progress.new keeper.new more
        ((I.view inputs.old).left file) ((I.view inputs.new).left file)) }
    ensures piece { OnOk result (ReadsPiece K.after limits.now progress.old keeper.old progress.new keeper.new
        ((I.view inputs.old).left file) ((I.view inputs.new).left file)) }
    ensures left { OnErr result (ReadsAtMost (length buffer.old) ((I.view inputs.old).left file) ((I.view inputs.new).left file)) }
    ensures read { ReadsOnce file (λ asked. I.reads inputs.old asked inputs.new) (I.view inputs.old) (I.view inputs.new) }
    ensures room { IfOk result (λ more. more ≡ true → room progress.new.reader < room progress.old.reader) }
    ensures stopped { IfErr result (Stops (IsKeptFault K.after limits.now progress.old keeper.old ((I.view inputs.old).left file))
        (Rose (I.view inputs.old).faults (I.view inputs.new).faults)) }
{
    let Ok(count) = inputs.next(file, buffer) else {
        return Err(FileFault::ReadFault);
    };
    if count == 0 {
        return Ok(false);
    }
    progress.take(alloc, limits, keeper, &buffer[..count])?;
    Ok(true)
}

/// Gives a keeper the entries of a file, one after another, while the whole file is read and tested.
pub fn scan_file<I: Inputs, K: Keeper>(
    alloc: Global,
    inputs: &mut I,
    file: u32,
    limits: &Limits,
    keeper: &mut K,
) -> Result<(), FileFault>
    requires takes { TakesNext K.takes None keeper.old }
    ensures ok { OnOk result (ReadsAll K.after limits.now keeper.old keeper.new
        ((I.view inputs.old).left file) ((I.view inputs.new).left file)) }
    ensures stopped { IfErr result (Stops (IsFaultOf limits.now ((I.view inputs.old).left file))
        (Rose (I.view inputs.old).faults (I.view inputs.new).faults)) }
    ensures left { OnErr result (ReadsNoFurther limits.now ((I.view inputs.old).left file) ((I.view inputs.new).left file)) }
    ensures read { ReadsNoOther file (λ asked. I.reads inputs.old asked inputs.new) (I.view inputs.old) (I.view inputs.new) }
{
    let mut buffer = piece_buffer(alloc)?;
    let mut progress = Progress::new(alloc, limits);
    while read_on(
        alloc,
        inputs,
        file,
        limits,
        &mut buffer,
        &mut progress,
        keeper,
    )? {}
    progress.finish(alloc, limits, keeper)
}

/// The entries of a file.
pub fn read_file<I: Inputs>(
    alloc: Global,
    inputs: &mut I,
    file: u32,
    limits: &Limits,
) -> Result<Change, FileFault>
    ensures ok { IfOk result (λ change. HasEntries limits.now change ((I.view inputs.old).left file) ((I.view inputs.new).left file)) }
    ensures accepted { IfOk result (λ change. IfTold ((I.view inputs.old).left file) (λ bytes. IsAccepted limits.now bytes change)) }
    ensures stopped { IfErr result (Stops (IsFaultOf limits.now ((I.view inputs.old).left file))
        (Rose (I.view inputs.old).faults (I.view inputs.new).faults)) }
    ensures left { OnErr result (ReadsNoFurther limits.now ((I.view inputs.old).left file) ((I.view inputs.new).left file)) }
    ensures read { ReadsNoOther file (λ asked. I.reads inputs.old asked inputs.new) (I.view inputs.old) (I.view inputs.new) }
{
    let mut change = Change::new(alloc);
    scan_file(alloc, inputs, file, limits, &mut change)?;
    Ok(change)
}
