//! The calls of a disk in memory, which are kept so that a crash in any of them can be tried.
ghost use Rattle.std.specs.Prelude.{◌≡◌, ◌++◌, ◌∷◌, [], ℕ, List, length, OnOk, OnErr};
ghost use Rattle.outside.specs.Disk.{Elapses};
ghost use Rattle.doubles.specs.Tape.{Medium, after, fresh, run, crashes_of, CallAdds};

use osm_base::Bytes;
use std::alloc::AllocError;

/// A call of a disk in memory. The flag says that it was done, and not refused.
#[derive(Drop)]
pub enum Call {
    Look,
    Write(u64, Bytes, bool),
    Sync(bool),
}

/// Keeps a call behind the earlier ones.
pub fn note(calls: &mut Vec<Call>, call: Call) -> Result<(), AllocError>
    ensures ok { OnOk result (calls.new.items ≡ calls.old.items ++ call ∷ []) }
    ensures err { OnErr result (calls.new.items ≡ calls.old.items) }
    ensures runs { OnOk result ((start : List ℕ) → run (fresh start) calls.new.items ≡ after call (run (fresh start) calls.old.items)) }

    // A call that writes nothing leaves what a read gives.
    ensures idle { ((medium : Medium) → (after call medium).seen ≡ medium.seen) → (start : List ℕ)
        → (run (fresh start) calls.new.items).seen ≡ (run (fresh start) calls.old.items).seen }
    ensures time { (start : List ℕ) → Elapses (crashes_of start calls.old.items) (crashes_of start calls.new.items) }
    ensures crash { (start : List ℕ) → CallAdds call (crashes_of start calls.old.items)
        (crashes_of start calls.new.items) }
{
    calls.push(call)?;
    Ok(())
}
