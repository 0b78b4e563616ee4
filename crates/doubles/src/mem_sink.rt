//! A sink in memory.
ghost use Rattle.std.specs.Prelude.{◌≡◌, ◌<◌, ◌≤◌, [], Some, false, length, IfOk, OnOk, OnErr, IsErr, IsTrue, is_err};
ghost use Rattle.std.specs.Io.KnownBytes.{WriteAppends};
ghost use Rattle.doubles.specs.Calls.{NamesNext, after_call};
ghost use Rattle.outside.specs.Causes.{HasCause};

use crate::Fails;
use crate::calls::Calls;
use outside::{Failed, Sink};
use std::alloc::Global;
use std::marker::Model;

/// A sink that keeps all that it takes, and takes all of each piece. It fails at the calls that a plan
/// names and for want of memory, and nowhere else.
#[derive(Drop)]
pub struct MemSink {
    taken: Vec<u8>,
    short: bool,
    calls: Calls,
}

impl Model for MemSink {
    ghost use Rattle.doubles.specs.MemSink.{SinkFilled};

    ghost Value = { SinkFilled };

    ghost view = { λ sink. record { taken = sink.taken.items; short = sink.short; calls = sink.calls } };
}

impl MemSink {
    /// A sink that has taken nothing.
    pub fn new(alloc: Global, fails: Fails) -> Self
        ensures empty { result ≡ record { taken = []; short = false; calls = record { fails = fails; made = 0; failed = 0 } } }
    {
        Self {
            taken: Vec::new(alloc),
            short: false,
            calls: Calls::new(fails),
        }
    }

    /// The bytes taken so far.
    pub fn taken(&self) -> &[u8]
        ensures taken { result.now ≡ self.now.taken }
    {
        self.taken.as_slice()
    }

    /// Whether a call has failed for want of memory.
    pub fn short(&self) -> bool
        ensures short { result ≡ self.now.short }
    {
        self.short
    }
}

impl Sink for MemSink {
    ghost view = { λ sink. record { taken = Some sink.taken; faults = sink.calls.failed } };

    fn put(&mut self, piece: &[u8]) -> Result<usize, Failed>
        requires { 0 < length piece.now }
        ensures some { IfOk result (λ count. (0 < count) × (count ≤ length piece.now)) }
        ensures bytes { WriteAppends (Some self.old.taken) (Some self.new.taken) result piece.now }
        ensures cause { HasCause self.old.calls.failed self.new.calls.failed result }
        ensures all { IfOk result (λ count. count ≡ length piece.now) }
        ensures named { NamesNext self.old.calls → IsErr result × (self.new.short ≡ self.old.short) }

        // A call that fails although the plan does not name it failed for want of memory.
        ensures unnamed { ¬ NamesNext self.old.calls → OnErr result (IsTrue self.new.short) }
        ensures not_short { OnOk result (self.new.short ≡ self.old.short) }
        ensures calls { self.new.calls ≡ after_call self.old.calls (is_err result) }
    {
        self.calls.begin()?;
        if self.taken.extend_from_slice(piece).is_err() {
            self.short = true;
            return Err(self.calls.fail());
        }
        Ok(piece.len())
    }
}
