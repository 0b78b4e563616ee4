//! Numbers, the first two pages and the gate, read from the disk.
ghost use Rattle.std.specs.Prelude.{◌≡◌, ◌+◌, ◌^◌, ◌<◌, ◌≤◌, List, ℕ, length, IfOk, OnOk};
ghost use Rattle.outside.specs.Disk.{Tells};
ghost use Rattle.page_journal.specs.DiskCalls.{ReadsDisk};
ghost use Rattle.page_journal.specs.Pages.{gate, head_of, number};

use crate::layout::{GATE_AT, HEAD};
use outside::{Disk, Failed};

/// The number that stands at this byte.
#[tactic(auto, using(crate::proofs::Moments::looks))]
pub fn read_number<D: Disk>(disk: &mut D, at: u64) -> Result<u64, Failed>
    requires { at + 8 ≤ 2 ^ 62 }
    ensures value { IfOk result (λ value. (bytes : List ℕ) → Tells (D.view disk.old) bytes → at + 8 ≤ length bytes
        → value ≡ number bytes at) }
    ensures reads { ReadsDisk 1 (at + 8) (D.view disk.old) (D.view disk.new) result }
{
    let mut bytes = [0; 8];
    disk.read_at(at, &mut bytes)?;
    Ok(u64::from_le_bytes(bytes))
}

/// Moves the first two pages into the buffer, in one read.
#[tactic(auto, using(crate::proofs::Moments::looks))]
pub fn read_head<D: Disk>(disk: &mut D, head: &mut [u8; HEAD]) -> Result<(), Failed>
    ensures head { OnOk result ((bytes : List ℕ) → Tells (D.view disk.old) bytes → 8192 ≤ length bytes
        → head.new ≡ head_of bytes) }
    ensures reads { ReadsDisk 1 8192 (D.view disk.old) (D.view disk.new) result }
{
    disk.read_at(0, head.as_mut_slice())?;
    Ok(())
}

/// A number of the first two pages.
pub fn head_number(head: &[u8; HEAD], at: usize) -> u64
    requires { at + 8 ≤ 8192 }
    ensures value { (bytes : List ℕ) → 8192 ≤ length bytes → head.now ≡ head_of bytes → result ≡ number bytes at }
{
    let mut number = [0; 8];
    number.copy_from_slice(&head[at..at + 8]);
    u64::from_le_bytes(number)
}

/// The gate.
pub fn gate_in(head: &[u8; HEAD]) -> u8
    ensures value { (bytes : List ℕ) → 8192 ≤ length bytes → head.now ≡ head_of bytes → result ≡ gate bytes }
{
    head[GATE_AT as usize]
}
