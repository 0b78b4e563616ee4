//! What a run tells on its output.
ghost use Rattle.std.specs.Prelude.{◌≡◌, IfErr, OnErr, OnOk};
ghost use Rattle.std.specs.Io.KnownBytes.{Appends};
ghost use Rattle.outside.specs.Bytes.{AppendsPrefix};
ghost use Rattle.outside.specs.Causes.{HasCause};

use due_tiles::TileLevels;
use outside::{Sink, put_all};
use run_promise::Fault;

/// Writes a text. After `Err` the output has taken some front of it.
pub fn tell<S: Sink>(out: &mut S, text: &[u8]) -> Result<(), Fault>
    ensures ok { OnOk result (Appends (S.view out.old).taken (S.view out.new).taken text.now) }
    ensures err { OnErr result (AppendsPrefix (S.view out.old).taken (S.view out.new).taken text.now) }
    ensures alone { IfErr result (λ fault. fault ≡ Fault.WriteFault) }
    ensures cause { HasCause (S.view out.old).faults (S.view out.new).faults result }
{
    match put_all(out, text) {
        Ok(()) => Ok(()),
        Err(_) => Err(Fault::WriteFault),
    }
}

/// Writes the lines of tiles. After `Err` the output has taken some front of them.
pub fn tell_tiles<S: Sink>(out: &mut S, tiles: &TileLevels) -> Result<(), Fault>
    ensures ok { OnOk result (Appends (S.view out.old).taken (S.view out.new).taken tiles.now) }
    ensures err { OnErr result (AppendsPrefix (S.view out.old).taken (S.view out.new).taken tiles.now) }
    ensures alone { IfErr result (λ fault. fault ≡ Fault.WriteFault) }
    ensures cause { HasCause (S.view out.old).faults (S.view out.new).faults result }
{
    match tiles.write(out) {
        Ok(()) => Ok(()),
        Err(_) => Err(Fault::WriteFault),
    }
}
