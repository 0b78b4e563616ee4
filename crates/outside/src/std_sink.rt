//! A writer of std, as a `Sink`.
ghost use Rattle.std.specs.Prelude.{◌≡◌, ◌<◌, ◌≤◌, None, length, take, IfOk, is_err, if◌then◌else◌};
ghost use Rattle.std.specs.Io.KnownBytes.{Appends, WriteAppends};
ghost use Rattle.outside.specs.Counts.{one_more};
ghost use Rattle.outside.specs.Causes.{HasCause};

use crate::{Failed, Sink};
use std::io::Write;
use std::marker::Model;

/// A writer, mostly that of standard output. Each piece is flushed, so that none stays behind in a
/// buffer of the writer. Every error of the writer is a fault, and so is a write of no byte. As a sink
/// it tells no bytes: where a flush fails, nobody knows what left.
#[derive(Drop)]
pub struct StdSink<W: Write> {
    writer: W,
    faults: u64,
}

impl<W: Write> Model for StdSink<W> {
    ghost use Rattle.outside.specs.StdSink.{WriterFilled};

    ghost Value = { WriterFilled };

    ghost view = { λ sink. record { contents = W.contents sink.writer; faults = sink.faults } };
}

impl<W: Write> StdSink<W> {
    /// Over this writer, with no fault yet.
    pub fn new(writer: W) -> Self
        ensures none { result ≡ record { contents = W.contents writer; faults = 0 } }
    {
        Self { writer, faults: 0 }
    }
}

impl<W: Write + Drop + Send> Sink for StdSink<W> {
    ghost view = { λ sink. record { taken = None; faults = sink.faults } };

    fn put(&mut self, piece: &[u8]) -> Result<usize, Failed>
        requires { 0 < length piece.now }
        ensures some { IfOk result (λ count. (0 < count) × (count ≤ length piece.now)) }
        ensures cause { HasCause self.old.faults self.new.faults result }
        ensures written { IfOk result (λ count. Appends self.old.contents self.new.contents (take count piece.now)) }
        ensures counted { self.new.faults ≡ (if is_err result then one_more self.old.faults else self.old.faults) }
    {
        let count = self.writer.write(piece).unwrap_or(0);
        if count == 0 || self.writer.flush().is_err() {
            self.faults = self.faults.saturating_add(1);
            return Err(Failed);
        }
        Ok(count)
    }
}
