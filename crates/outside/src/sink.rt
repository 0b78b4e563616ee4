//! The place where output goes.
ghost use Rattle.std.specs.Prelude.{◌<◌, ◌≤◌, length, IfOk, OnOk, OnErr};
ghost use Rattle.std.specs.Io.KnownBytes.{Appends, WriteAppends};
ghost use Rattle.outside.specs.Bytes.{AppendsPrefix};
ghost use Rattle.outside.specs.Causes.{HasCause};
ghost use Rattle.outside.specs.Sink.{SinkView};

use crate::Failed;

/// A place that takes bytes, one piece after another.
pub trait Sink: Send {
    /// The bytes taken so far, where the object tells them, and the count of faults.
    ghost view: { Self → SinkView };

    /// Takes bytes from the front of the piece, at least one, and answers how many. `Failed` takes none.
    fn put(&mut self, piece: &[u8]) -> Result<usize, Failed>
        requires { 0 < length piece.now }
        ensures some { IfOk result (λ count. (0 < count) × (count ≤ length piece.now)) }
        ensures bytes { WriteAppends (view self.old).taken (view self.new).taken result piece.now }
        ensures cause { HasCause (view self.old).faults (view self.new).faults result };
}

/// Puts all the bytes, in as many pieces as the sink takes. After `Failed` the sink has taken some
/// front of them.
pub fn put_all<S: Sink>(out: &mut S, bytes: &[u8]) -> Result<(), Failed>
    ensures ok { OnOk result (Appends (S.view out.old).taken (S.view out.new).taken bytes.now) }
    ensures err { OnErr result (AppendsPrefix (S.view out.old).taken (S.view out.new).taken bytes.now) }
    ensures cause { HasCause (S.view out.old).faults (S.view out.new).faults result }
{
    let mut rest = bytes;
    while !rest.is_empty() {
        let count = out.put(rest)?;
        let (_, after) = rest.split_at(count);
        rest = after;
    }
    Ok(())
}
