//! The bytes of a file that were read and not yet taken.
ghost use Rattle.std.specs.Prelude.{◌≡◌, ◌<◌, ◌≤◌, ◌++◌, ℕ, List, [], true, false, length, drop, IfOk, IfErr, OnOk};
ghost use Rattle.outside.specs.Reads.{ReadsNoOther, ReadsOnce, MovesBytes};
ghost use Rattle.opl_lines.specs.Lines.{IsWithinLine};
ghost use Rattle.outside.specs.Causes.{Rose};
ghost use Rattle.delta_feed.specs.Stops.{StopsOutside};

use crate::FeedFault;
use osm_base::OutOfMemory;
use outside::Inputs;
use std::alloc::Global;
use std::marker::Model;

/// How many bytes are asked of a file at a time.
const PIECE: usize = 65_536;

/// The bytes of a file that were read and not yet taken.
#[derive(Drop)]
pub struct Ahead {
    bytes: Vec<u8>,
    at: usize,
}

impl Model for Ahead {
    ghost Value = { List ℕ };

    ghost view = { λ ahead. drop ahead.at ahead.bytes.items };

    ghost invariant = { λ ahead. ahead.at ≤ length ahead.bytes.items };
}

impl Ahead {
    /// None.
    pub(crate) fn new(alloc: Global) -> Self
        ensures empty { result ≡ [] }
    {
        Self {
            bytes: Vec::new(alloc),
            at: 0,
        }
    }

    /// The bytes in order.
    pub(crate) fn bytes(&self) -> &[u8]
        ensures bytes { result.now ≡ self.now }
    {
        let (_, rest) = self.bytes.split_at(self.at);
        rest
    }

    /// So many of them are taken.
    pub(crate) fn skip(&mut self, count: usize)
        requires there { count ≤ length self.old }
        ensures rest { self.new ≡ drop count self.old }
    {
        self.at += count;
    }

    /// One read of the file. `false`: the file is at its end.
    pub(crate) fn fill<I: Inputs>(
        &mut self,
        alloc: Global,
        inputs: &mut I,
        file: u32,
    ) -> Result<bool, FeedFault>
        // Nothing is asked for while a line is there.
        requires waits { IsWithinLine self.old }
        ensures bytes { IfOk result (λ more. MovesBytes self.old self.new more ((I.view inputs.old).left file) ((I.view inputs.new).left file)) }
        ensures some { IfOk result (λ more. more ≡ true → length self.old < length self.new) }
        ensures none { IfOk result (λ more. more ≡ false → self.new ≡ self.old) }
        ensures stopped { IfErr result (StopsOutside (Rose (I.view inputs.old).faults (I.view inputs.new).faults)) }
        ensures read { ReadsNoOther file (λ asked. I.reads inputs.old asked inputs.new) (I.view inputs.old) (I.view inputs.new) }
    {
        match piece_buffer(alloc) {
            Ok(buffer) => self.read(alloc, inputs, file, buffer),
            Err(_) => Err(FeedFault::OutOfMemory),
        }
    }

    /// One read into a buffer, whose bytes come behind those that are here.
    fn read<I: Inputs>(
        &mut self,
        alloc: Global,
        inputs: &mut I,
        file: u32,
        mut buffer: Vec<u8>,
    ) -> Result<bool, FeedFault>
        requires some { 0 < length buffer.items }
        ensures bytes { IfOk result (λ more. MovesBytes self.old self.new more ((I.view inputs.old).left file) ((I.view inputs.new).left file)) }
        ensures some { IfOk result (λ more. more ≡ true → length self.old < length self.new) }
        ensures none { IfOk result (λ more. more ≡ false → self.new ≡ self.old) }
        ensures stopped { IfErr result (StopsOutside (Rose (I.view inputs.old).faults (I.view inputs.new).faults)) }
        ensures read { ReadsOnce file (λ asked. I.reads inputs.old asked inputs.new) (I.view inputs.old) (I.view inputs.new) }
    {
        let Ok(count) = inputs.next(file, buffer.as_mut_slice()) else {
            return Err(FeedFault::ReadFault);
        };
        if count == 0 {
            return Ok(false);
        }
        buffer.truncate(count);
        if self.keep(alloc, buffer).is_err() {
            return Err(FeedFault::OutOfMemory);
        }
        Ok(true)
    }

    /// Adds bytes behind those that are here. Where there are none, nothing is copied.
    fn keep(&mut self, alloc: Global, piece: Vec<u8>) -> Result<(), OutOfMemory>
        ensures bytes { OnOk result (self.new ≡ self.old ++ piece.items) }
    {
        if self.bytes().is_empty() {
            self.bytes = piece;
            self.at = 0;
            return Ok(());
        }
        let mut bytes = Vec::from_slice(alloc, self.bytes())?;
        bytes.extend_from_slice(piece.as_slice())?;
        self.bytes = bytes;
        self.at = 0;
        Ok(())
    }
}

/// Room for the bytes of one read.
fn piece_buffer(alloc: Global) -> Result<Vec<u8>, OutOfMemory>
    ensures some { IfOk result (λ buffer. 0 < length buffer.items) }
{
    Ok(vec![in alloc; 0u8; PIECE]?)
}
