//! What a crash leaves of a disk in memory.
ghost use Rattle.std.specs.Prelude.{◌≡◌, ◌-◌, ◌<◌, ◌≤◌, ◌⊎◌, ℕ, List, length, IfOk, OnOk};
ghost use Rattle.doubles.specs.CrashPick.{IsLeftIn, IsSettled, all_cut_short, cut_short, half_written};
ghost use Rattle.doubles.specs.Tape.{Medium, MayLeaveAfter, after, fresh, run};

use crate::overwrite::overwrite;
use crate::tape::Call;
use std::alloc::{AllocError, Global};

/// What the ranges hold after a crash that were written since the last sync: what stood there before,
/// what was written, the first half of each write, or one byte everywhere.
#[derive(Clone, Copy, Debug, PartialEq, Eq)]
pub enum CrashPick {
    Old,
    New,
    Half,
    Garbage(u8),
}

/// What a crash in the call with this number leaves.
pub fn left_in(
    alloc: Global,
    start: &[u8],
    calls: &[Call],
    number: usize,
    pick: CrashPick,
) -> Result<Vec<u8>, AllocError>
    requires first { 0 < number }
    requires last { number ≤ length calls.now }
    ensures left { IfOk result (λ left. IsLeftIn pick start.now calls.now number left.items) }
    ensures outcome { IfOk result (λ left. MayLeaveAfter start.now calls.now (number - 1) left.items
        ⊎ MayLeaveAfter start.now calls.now number left.items) }
{
    let settled = settled_before(calls, number - 1);
    let mut left = replay(alloc, start, &calls[..settled])?;
    cut_all_short(alloc, &mut left, &calls[settled..number], pick)?;
    Ok(left)
}

// How many calls there are up to the last sync that succeeded.
fn settled_before(calls: &[Call], before: usize) -> usize
    requires { before ≤ length calls.now }
    ensures { IsSettled calls.now before result }
{
    let mut settled = 0;
    for i in 0..before {
        if let Call::Sync(true) = &calls[i] {
            settled = i + 1;
        }
    }
    settled
}

// What a read gives after these calls.
fn replay(alloc: Global, start: &[u8], calls: &[Call]) -> Result<Vec<u8>, AllocError>
    ensures seen { IfOk result (λ seen. seen.items ≡ (run (fresh start.now) calls.now).seen) }
{
    let mut seen = start.to_vec(alloc)?;
    for call in calls {
        repeat(&mut seen, call)?;
    }
    Ok(seen)
}

// What a read gives after one call more.
fn repeat(seen: &mut Vec<u8>, call: &Call) -> Result<(), AllocError>
    ensures seen { OnOk result ((medium : Medium) → medium.seen ≡ seen.old.items
        → (after call.now medium).seen ≡ seen.new.items) }
{
    match call {
        Call::Write(at, piece, true) => overwrite(seen, *at as usize, piece.as_slice())?,
        _ => {}
    }
    Ok(())
}

// Cuts calls short, one after another.
fn cut_all_short(
    alloc: Global,
    left: &mut Vec<u8>,
    calls: &[Call],
    pick: CrashPick,
) -> Result<(), AllocError>
    ensures left { OnOk result (left.new.items ≡ all_cut_short pick calls.now left.old.items) }
{
    for call in calls {
        if let Call::Write(at, piece, _) = call {
            write_half(alloc, left, *at as usize, piece.as_slice(), pick)?;
        }
    }
    Ok(())
}

// Writes what a crash leaves of a write.
fn write_half(
    alloc: Global,
    left: &mut Vec<u8>,
    at: usize,
    piece: &[u8],
    pick: CrashPick,
) -> Result<(), AllocError>
    ensures left { OnOk result (left.new.items ≡ half_written pick at piece.now left.old.items) }
{
    match pick {
        CrashPick::Old => {}
        CrashPick::New => overwrite(left, at, piece)?,
        CrashPick::Half => overwrite(left, at, &piece[..piece.len() / 2])?,
        CrashPick::Garbage(byte) => {
            let garbage = vec![in alloc; byte; piece.len()]?;
            overwrite(left, at, garbage.as_slice())?;
        }
    }
    Ok(())
}
