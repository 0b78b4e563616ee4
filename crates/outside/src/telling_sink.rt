//! A writer of std, as a `Sink`, that takes the line away which tells how far a run is.
ghost use Rattle.std.specs.Prelude.{◌≡◌, ◌<◌, ◌≤◌, None, length, take, IfOk, is_err, if◌then◌else◌};
ghost use Rattle.std.specs.Io.KnownBytes.{Appends, WriteAppends};
ghost use Rattle.outside.specs.Counts.{one_more};
ghost use Rattle.outside.specs.Causes.{HasCause};

use crate::{Failed, Progress, Sink, StdSink};
use std::io::Write;
use std::marker::Model;
use std::rt::Clock;

/// A writer as `StdSink` writes to it. Where both go to one terminal, what is written stands on a line of its own.
#[derive(Drop)]
pub struct TellingSink<'p, W: Write, R> {
    sink: StdSink<W>,
    progress: &'p Progress<R>,
}

impl<'p, W: Write, R> Model for TellingSink<'p, W, R> {
    ghost use Rattle.outside.specs.StdSink.{WriterFilled};

    ghost Value = { WriterFilled };

    ghost view = { λ sink. sink.sink };
}

impl<'p, W: Write, R> TellingSink<'p, W, R> {
    /// Over this sink.
    pub fn new(sink: StdSink<W>, progress: &'p Progress<R>) -> Self
        ensures same { result ≡ sink }
    {
        Self { sink, progress }
    }
}

impl<W: Write + Drop + Send, R: Clock + Eprint + Sync> Sink for TellingSink<'_, W, R> {
    ghost view = { λ sink. record { taken = None; faults = sink.faults } };

    fn put(&mut self, piece: &[u8]) -> Result<usize, Failed>
        requires { 0 < length piece.now }
        ensures some { IfOk result (λ count. (0 < count) × (count ≤ length piece.now)) }
        ensures cause { HasCause self.old.faults self.new.faults result }
        ensures written { IfOk result (λ count. Appends self.old.contents self.new.contents (take count piece.now)) }
        ensures counted { self.new.faults ≡ (if is_err result then one_more self.old.faults else self.old.faults) }
    {
        self.progress.wipe();
        self.sink.put(piece)
    }
}
