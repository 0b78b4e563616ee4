//! Bytes that are held back, so that many words go to the output in one call.
ghost use Rattle.std.specs.Prelude.{◌≡◌, ◌≤◌, ◌+◌, ◌++◌, [], length, OnErr, OnOk};
ghost use Rattle.std.specs.Io.KnownBytes.{Appends};
ghost use Rattle.outside.specs.Bytes.{AppendsPrefix};
ghost use Rattle.outside.specs.Causes.{HasCause};
ghost use Rattle.due_tiles.specs.Piece.{Puts};

use outside::{Failed, Sink, put_all};
use std::marker::Model;

/// How many bytes are held back at most.
const PIECE: usize = 65_536;

/// The bytes that are held back.
#[derive(Drop)]
pub(crate) struct Piece {
    bytes: [u8; PIECE],
    filled: usize,
}

impl Model for Piece {
    ghost use Rattle.std.specs.Prelude.{List, ℕ, take};
    ghost use Rattle.std.specs.Coded.{coded_list, coded_ℕ};
    ghost use Rattle.due_tiles.specs.Piece.{Fits};

    ghost Value = { List ℕ };

    ghost coded = { coded_list coded_ℕ };

    ghost view = { λ piece. take piece.filled piece.bytes };

    ghost invariant = { λ piece. Fits piece.filled piece.bytes };
}

impl Piece {
    /// None yet.
    pub(crate) fn new() -> Self
        ensures none { result ≡ [] }
    {
        Self {
            bytes: [0; PIECE],
            filled: 0,
        }
    }

    /// Holds back bytes. What is held is written first where they have no room beside it.
    pub(crate) fn put<S: Sink>(&mut self, out: &mut S, bytes: &[u8]) -> Result<(), Failed>
        ensures ok { OnOk result (Puts (S.view out.old).taken (S.view out.new).taken self.old self.new bytes.now) }
        ensures err { OnErr result (AppendsPrefix (S.view out.old).taken (S.view out.new).taken (self.old ++ bytes.now)) }
        ensures cause { HasCause (S.view out.old).faults (S.view out.new).faults result }
    {
        if bytes.len() > PIECE - self.filled {
            return self.put_alone(out, bytes);
        }
        self.hold(bytes);
        Ok(())
    }

    /// Writes what is held, and holds back bytes alone; so many that they never have room are written too.
    fn put_alone<S: Sink>(&mut self, out: &mut S, bytes: &[u8]) -> Result<(), Failed>
        ensures ok { OnOk result (Puts (S.view out.old).taken (S.view out.new).taken self.old self.new bytes.now) }
        ensures err { OnErr result (AppendsPrefix (S.view out.old).taken (S.view out.new).taken (self.old ++ bytes.now)) }
        ensures cause { HasCause (S.view out.old).faults (S.view out.new).faults result }
    {
        self.flush(out)?;
        if bytes.len() > PIECE {
            return put_all(out, bytes);
        }
        self.hold(bytes);
        Ok(())
    }

    /// Holds back bytes that have room.
    fn hold(&mut self, bytes: &[u8])
        requires room { length self.old + length bytes.now ≤ PIECE }
        ensures held { self.new ≡ self.old ++ bytes.now }
    {
        let end = self.filled + bytes.len();
        self.bytes[self.filled..end].copy_from_slice(bytes);
        self.filled = end;
    }

    /// Writes what is held.
    pub(crate) fn flush<S: Sink>(&mut self, out: &mut S) -> Result<(), Failed>
        ensures ok { OnOk result (Appends (S.view out.old).taken (S.view out.new).taken self.old) }
        ensures none { OnOk result (self.new ≡ []) }
        ensures err { OnErr result (AppendsPrefix (S.view out.old).taken (S.view out.new).taken self.old) }
        ensures cause { HasCause (S.view out.old).faults (S.view out.new).faults result }
    {
        put_all(out, &self.bytes[..self.filled])?;
        self.filled = 0;
        Ok(())
    }
}
