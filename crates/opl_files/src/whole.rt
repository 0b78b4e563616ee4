//! All bytes of a short file.
ghost use Rattle.std.specs.Prelude.{◌≡◌, ◌≤◌, ◌<◌, ◌+◌, true, length, IfOk, IfErr, OnOk, OnErr};
ghost use Rattle.outside.specs.Causes.{Rose};
ghost use Rattle.opl_files.specs.Reading.{ReadsAtMost};
ghost use Rattle.outside.specs.Reads.{ReadsNoOther, ReadsOnce, MovesBytes};
ghost use Rattle.opl_files.specs.Whole.{IsWhole, IsOver, StopsWhole};
ghost use Rattle.opl_files.specs.declared.whole.WholeFault.TheVariants.{OutOfMemory as NoMemory};

use crate::scan::{PIECE, piece_buffer};
use osm_base::{Bytes, OutOfMemory};
use outside::Inputs;
use std::alloc::{AllocError, Global};
use thiserror::Error;

/// What ends the reading of all bytes of a file.
#[derive(Clone, Copy, Debug, Error)]
pub enum WholeFault {
    #[error("the file is too long")]
    TooLong,
    #[error("the file cannot be read")]
    ReadFault,
    #[error("out of memory")]
    OutOfMemory,
}

impl From<OutOfMemory> for WholeFault {
    ghost from_gives = { λ _ fault. fault ≡ NoMemory };

    fn from(_: OutOfMemory) -> Self {
        WholeFault::OutOfMemory
    }
}

impl From<AllocError> for WholeFault {
    ghost from_gives = { λ _ fault. fault ≡ NoMemory };

    fn from(_: AllocError) -> Self {
        WholeFault::OutOfMemory
    }
}

/// One read of the file, whose bytes are kept behind those before. `false`: the file is at its end.
fn add_piece<I: Inputs>(
    inputs: &mut I,
    file: u32,
    max: u64,
    buffer: &mut [u8],
    bytes: &mut Vec<u8>,
) -> Result<bool, WholeFault>
    requires some { 0 < length buffer.old }
    requires within { length bytes.old.items ≤ max }
    ensures within { OnOk result (length bytes.new.items ≤ max) }
    ensures bytes { IfOk result (λ more. MovesBytes bytes.old.items bytes.new.items more
        ((I.view inputs.old).left file) ((I.view inputs.new).left file)) }
    ensures left { OnErr result (ReadsAtMost (length buffer.old) ((I.view inputs.old).left file) ((I.view inputs.new).left file)) }
    ensures read { ReadsOnce file (λ asked. I.reads inputs.old asked inputs.new) (I.view inputs.old) (I.view inputs.new) }
    ensures grows { IfOk result (λ more. more ≡ true → length bytes.old.items < length bytes.new.items) }
    ensures stopped { IfErr result (StopsWhole (IsOver max (length bytes.old.items) ((I.view inputs.old).left file))
        (Rose (I.view inputs.old).faults (I.view inputs.new).faults)) }
{
    let Ok(count) = inputs.next(file, buffer) else {
        return Err(WholeFault::ReadFault);
    };
    if count == 0 {
        return Ok(false);
    }
    if count as u64 > max - bytes.len() as u64 {
        return Err(WholeFault::TooLong);
    }
    bytes.extend_from_slice(&buffer[..count])?;
    Ok(true)
}

/// All bytes of a file that has at most `max` of them.
pub fn read_all<I: Inputs>(
    alloc: Global,
    inputs: &mut I,
    file: u32,
    max: u64,
) -> Result<Bytes, WholeFault>
    ensures whole { IfOk result (λ bytes. IsWhole bytes ((I.view inputs.old).left file) ((I.view inputs.new).left file)) }
    ensures within { IfOk result (λ bytes. length bytes ≤ max) }
    ensures stopped { IfErr result (StopsWhole (IsOver max 0 ((I.view inputs.old).left file))
        (Rose (I.view inputs.old).faults (I.view inputs.new).faults)) }
    // No more is read than the bytes that there may be and one piece.
    ensures left { OnErr result (ReadsAtMost (max + PIECE) ((I.view inputs.old).left file) ((I.view inputs.new).left file)) }
    ensures read { ReadsNoOther file (λ asked. I.reads inputs.old asked inputs.new) (I.view inputs.old) (I.view inputs.new) }
{
    let mut buffer = piece_buffer(alloc)?;
    let mut bytes = Vec::new(alloc);
    while add_piece(inputs, file, max, &mut buffer, &mut bytes)? {}
    Ok(Bytes::from_vec(bytes))
}
