//! The bytes of a file that are read ahead of its lines.
ghost use Rattle.std.specs.Prelude.{◌≡◌, ◌<◌, ◌≤◌, ◌+◌, ◌++◌, [], false, true, length, IfOk, IfErr, IfSome, IsNone, OnOk, OnErr};
ghost use Rattle.outside.specs.Causes.{Rose};
ghost use Rattle.opl_files.specs.Ahead.{HasRoom, ReadsAhead, most_of_lot};
ghost use Rattle.opl_files.specs.Reading.{ReadsAtMost};
ghost use Rattle.outside.specs.Reads.{ReadsOnce, MovesBytes};
ghost use Rattle.opl_files.specs.Stops.{Stops};

use crate::FileFault;
use crate::lot_size::LotSize;
use crate::scan::PIECE;
use osm_base::OutOfMemory;
use outside::Inputs;
use std::alloc::Global;
use std::mem;

/// The bytes of a file of which no line was read yet, up to a lot of them.
#[derive(Drop)]
pub struct Ahead {
    pub lot: usize,
    pub buffer: Vec<u8>,
    pub kept: Vec<u8>,
    /// `false`: the file is at its end.
    pub more: bool,
}

/// One read of the file, whose bytes are kept behind those before. `false`: the file is at its end.
fn keep_read<I: Inputs>(
    inputs: &mut I,
    file: u32,
    buffer: &mut [u8],
    kept: &mut Vec<u8>,
) -> Result<bool, FileFault>
    requires some { 0 < length buffer.old }
    ensures bytes { IfOk result (λ more. MovesBytes kept.old.items kept.new.items more
        ((I.view inputs.old).left file) ((I.view inputs.new).left file)) }
    ensures few { OnOk result (length kept.new.items ≤ length kept.old.items + length buffer.old) }
    ensures grows { IfOk result (λ more. more ≡ true → length kept.old.items < length kept.new.items) }
    ensures left { OnErr result (ReadsAtMost (length buffer.old) ((I.view inputs.old).left file) ((I.view inputs.new).left file)) }
    ensures stopped { IfErr result (Stops (λ _. ⊥) (Rose (I.view inputs.old).faults (I.view inputs.new).faults)) }
    ensures read { ReadsOnce file (λ asked. I.reads inputs.old asked inputs.new) (I.view inputs.old) (I.view inputs.new) }
{
    let Ok(count) = inputs.next(file, buffer) else {
        return Err(FileFault::ReadFault);
    };
    if count == 0 {
        return Ok(false);
    }
    kept.extend_from_slice(&buffer[..count])?;
    Ok(true)
}

/// Where the last of these lines ends. `0`: none does.
fn lines_end(bytes: &[u8]) -> usize
    ensures within { result ≤ length bytes.now }
{
    match bytes.iter().rposition(|&byte| byte == b'\n') {
        Some(at) => at + 1,
        None => 0,
    }
}

impl Ahead {
    /// Nothing is read yet.
    pub fn new(alloc: Global, lot: LotSize) -> Result<Self, OutOfMemory>
        ensures room { IfOk result HasRoom }
        ensures lot { IfOk result (λ ahead. ahead.lot ≡ lot.bytes) }
        ensures more { IfOk result (λ ahead. ahead.more ≡ true) }
        ensures kept { IfOk result (λ ahead. ahead.kept.items ≡ []) }
    {
        Ok(Self {
            lot: lot.bytes,
            buffer: vec![in alloc; 0u8; lot.bytes.min(PIECE)]?,
            kept: Vec::new(alloc),
            more: true,
        })
    }

    /// Reads on until a lot is kept, or the file is at its end.
    pub fn fill<I: Inputs>(&mut self, inputs: &mut I, file: u32) -> Result<(), FileFault>
        requires room { HasRoom self.old }
        requires few { length self.old.kept.items ≤ most_of_lot self.old }
        ensures ahead { ReadsAhead result self.old self.new file (λ asked. I.reads inputs.old asked inputs.new)
            (I.view inputs.old) (I.view inputs.new) }
    {
        while self.more && self.kept.len() < self.lot {
            self.more = keep_read(inputs, file, &mut self.buffer, &mut self.kept)?;
        }
        Ok(())
    }

    /// Takes out the lines that end, and keeps what is behind them in this room. `None`: there is none.
    pub fn cut(&mut self, mut room: Vec<u8>) -> Result<Option<Vec<u8>>, OutOfMemory>
        ensures same { OnOk result (self.new ≡ record self.old { kept = self.new.kept }) }
        ensures lines { IfOk result (λ lot. IfSome lot (λ lot. lot.items ++ self.new.kept.items ≡ self.old.kept.items)) }
        ensures none { IfOk result (λ lot. IsNone lot → self.new.kept.items ≡ self.old.kept.items) }
    {
        let end = lines_end(&self.kept);
        if end == 0 {
            return Ok(None);
        }
        room.clear();
        room.extend_from_slice(&self.kept[end..])?;
        let mut lot = mem::replace(&mut self.kept, room);
        lot.truncate(end);
        Ok(Some(lot))
    }

    /// Keeps these bytes again, in front of those that were read behind them.
    pub fn put_back(&mut self, mut front: Vec<u8>) -> Result<(), OutOfMemory>
        ensures same { OnOk result (self.new ≡ record self.old { kept = self.new.kept }) }
        ensures kept { OnOk result (self.new.kept.items ≡ front.items ++ self.old.kept.items) }
    {
        front.append(&mut self.kept)?;
        mem::swap(&mut self.kept, &mut front);
        Ok(())
    }
}
