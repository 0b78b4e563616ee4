//! Bytes in memory with the calls that made them.
ghost use Rattle.std.specs.Prelude.{◌≡◌, ◌+◌, ◌-◌, ◌^◌, ◌≤◌, ◌<◌, ◌⊎◌, ◌++◌, ◌∷◌, [], true, false, List, ℕ, length, IsTrue, OnOk, OnErr, IfOk, IsSome};
ghost use Rattle.doubles.specs.CrashPick.{IsLeftIn};
ghost use Rattle.outside.specs.Disk.{NoneNew, Follows, Torn, Elapses, Only, overlaid};
ghost use Rattle.doubles.specs.Recorded.{first_bytes};
ghost use Rattle.doubles.specs.declared.tape.Call.TheVariants.{Look, Sync, Write};
ghost use Rattle.doubles.specs.Tape.{MayLeaveAfter, crashes_of, fresh, run};

use crate::CrashPick;
use crate::crash_pick::left_in;
use crate::overwrite::{grow, put_over};
use crate::tape::{Call, note};
use osm_base::Bytes;
use std::alloc::{AllocError, Global};

/// Bytes in memory, and all calls that made them of those that were there first.
#[derive(Drop)]
pub struct Recorded {
    start: Option<Vec<u8>>,
    bytes: Vec<u8>,
    calls: Vec<Call>,
    ghost kept: { (run (fresh (first_bytes start bytes.items)) calls.items).seen ≡ bytes.items },
    ghost small: { length bytes.items ≤ 2 ^ 62 },
}

impl Recorded {
    ghost use Rattle.doubles.specs.RecordedView.{Keeps, bytes_of, start_of, calls_in, crashes_in};

    /// These bytes, and no call.
    pub fn new(alloc: Global, bytes: Vec<u8>) -> Self
        requires { length bytes.items ≤ 2 ^ 62 }
        ensures bytes { bytes_of result ≡ bytes.items }
        ensures start { start_of result ≡ bytes.items }
        ensures calls { calls_in result ≡ [] }
    {
        Self {
            start: None,
            bytes,
            calls: Vec::new(alloc),
        }
    }

    pub fn bytes(&self) -> &[u8]
        ensures bytes { result.now ≡ bytes_of self.now }
        ensures small { length (bytes_of self.now) ≤ 2 ^ 62 }
    {
        self.bytes.as_slice()
    }

    pub fn calls(&self) -> usize
        ensures { result ≡ (crashes_in self.now).moment }
    {
        self.calls.len()
    }

    /// Keeps a call that changed nothing.
    pub fn look(&mut self) -> Result<(), AllocError>
        ensures bytes { bytes_of self.new ≡ bytes_of self.old }
        ensures crash { NoneNew (crashes_in self.old) (crashes_in self.new) }
        ensures keeps { Keeps self.old self.new Look result }
    {
        note(&mut self.calls, Call::Look)?;
        Ok(())
    }

    /// Keeps a sync, which is done or refused.
    pub fn sync(&mut self, done: bool) -> Result<(), AllocError>
        ensures durable { IsTrue done → OnOk result (Only (bytes_of self.old) (crashes_in self.new)) }
        ensures bytes { bytes_of self.new ≡ bytes_of self.old }
        ensures crash { NoneNew (crashes_in self.old) (crashes_in self.new) }
        ensures keeps { Keeps self.old self.new (Sync done) result }
    {
        note(&mut self.calls, Call::Sync(done))?;
        Ok(())
    }

    /// Keeps a write that is refused: nothing is written, and yet a crash may leave anything in its range.
    pub fn refuse(&mut self, at: u64, piece: &[u8]) -> Result<(), AllocError>
        ensures bytes { bytes_of self.new ≡ bytes_of self.old }
        ensures crash { Follows (Torn at (length piece.now)) (crashes_in self.old) (crashes_in self.new) }
        ensures keeps { Keeps self.old self.new (Write at piece.now false) result }
    {
        let kept = Bytes::from_vec(piece.to_vec(*self.bytes.allocator())?);
        note(&mut self.calls, Call::Write(at, kept, false))?;
        Ok(())
    }

    /// Writes in place, and keeps the write.
    pub fn write(&mut self, at: u64, piece: &[u8]) -> Result<(), AllocError>
        requires { at + length piece.now ≤ 2 ^ 62 }
        ensures ok { OnOk result (bytes_of self.new ≡ overlaid at piece.now (bytes_of self.old)) }
        ensures err { OnErr result (bytes_of self.new ≡ bytes_of self.old) }
        ensures crash { Follows (Torn at (length piece.now)) (crashes_in self.old) (crashes_in self.new) }
        ensures keeps { Keeps self.old self.new (Write at piece.now true) result }
    {
        keep_first(
            *self.bytes.allocator(),
            &mut self.start,
            self.bytes.as_slice(),
        )?;
        write_over(&mut self.bytes, &mut self.calls, at, piece)
    }

    /// What a crash in the call with this number leaves.
    pub fn after_crash(
        &self,
        alloc: Global,
        number: usize,
        pick: CrashPick,
    ) -> Result<Vec<u8>, AllocError>
        requires first { 0 < number }
        requires last { number ≤ (crashes_in self.now).moment }
        ensures left { IfOk result (λ left. IsLeftIn pick (start_of self.now) (calls_in self.now) number left.items) }
        ensures outcome { IfOk result (λ left. MayLeaveAfter (start_of self.now) (calls_in self.now) (number - 1) left.items
            ⊎ MayLeaveAfter (start_of self.now) (calls_in self.now) number left.items) }
    {
        let start = match &self.start {
            Some(kept) => kept.as_slice(),
            None => self.bytes.as_slice(),
        };
        left_in(alloc, start, self.calls.as_slice(), number, pick)
    }
}

// Keeps the bytes before the first write.
fn keep_first(alloc: Global, start: &mut Option<Vec<u8>>, bytes: &[u8]) -> Result<(), AllocError>
    ensures same { first_bytes start.new bytes.now ≡ first_bytes start.old bytes.now }
    ensures kept { OnOk result (IsSome start.new) }
{
    if start.is_none() {
        *start = Some(bytes.to_vec(alloc)?);
    }
    Ok(())
}

// Writes in place, and keeps the write.
fn write_over(
    bytes: &mut Vec<u8>,
    calls: &mut Vec<Call>,
    at: u64,
    piece: &[u8],
) -> Result<(), AllocError>
    requires { at + length piece.now ≤ 2 ^ 62 }
    ensures ok { OnOk result (bytes.new.items ≡ overlaid at piece.now bytes.old.items) }
    ensures err { OnErr result (bytes.new.items ≡ bytes.old.items) }
    ensures kept { (start : List ℕ) → (run (fresh start) calls.old.items).seen ≡ bytes.old.items
        → (run (fresh start) calls.new.items).seen ≡ bytes.new.items }
    ensures small { length bytes.old.items ≤ 2 ^ 62 → length bytes.new.items ≤ 2 ^ 62 }
    ensures crash { (start : List ℕ) → Follows (Torn at (length piece.now)) (crashes_of start calls.old.items)
        (crashes_of start calls.new.items) }
    ensures time { (start : List ℕ) → Elapses (crashes_of start calls.old.items) (crashes_of start calls.new.items) }
    ensures noted { OnOk result (calls.new.items ≡ calls.old.items ++ Write at piece.now true ∷ []) }
    ensures lost { OnErr result (calls.new.items ≡ calls.old.items) }
{
    let kept = Bytes::from_vec(piece.to_vec(*bytes.allocator())?);
    let len = bytes.len();
    grow(bytes, at as usize + piece.len())?;
    match note(calls, Call::Write(at, kept, true)) {
        Ok(()) => {
            put_over(bytes, at as usize, piece);
            Ok(())
        }
        Err(error) => {
            bytes.truncate(len);
            Err(error)
        }
    }
}
