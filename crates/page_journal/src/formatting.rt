//! The first bytes of a store.
ghost use Rattle.std.specs.Prelude.{◌≡◌, ◌≢◌, ◌+◌, ◌<◌, ◌≤◌, ◌⊎◌, List, [], ◌∷◌, ℕ, length, OnOk, IsErrOf, slice_index};
ghost use Rattle.outside.specs.Bytes.{IfTold};
ghost use Rattle.outside.specs.Disk.{Stays, Tells};
ghost use Rattle.page_journal.specs.Answers.{Formats, HasDiskCause, IsFormatAnswer};
ghost use Rattle.page_journal.specs.Crash.{IsSettled};
ghost use Rattle.page_journal.specs.Home.{IsFresh};
ghost use Rattle.page_journal.specs.Pages.{number, page_from};
ghost use Rattle.page_journal.specs.declared.fault.StoreFault.TheVariants.{NotEmpty};

use crate::StoreFault;
use crate::layout::{FORMAT, FORMAT_AT, HEAD, MARK, ROOT_AT};
use outside::Disk;

/// Writes an empty store to an empty disk.
#[tactic(auto, using(crate::proofs::Moments::looks))]
pub fn format<D: Disk>(disk: &mut D) -> Result<(), StoreFault>
    ensures fresh { OnOk result ((bytes : List ℕ) → Tells (D.view disk.old) bytes
        → (now : List ℕ) × IsFresh now × IsSettled (page_from now 4096 ∷ []) now (D.view disk.new)) }
    ensures answers { (bytes : List ℕ) → Tells (D.view disk.old) bytes → Formats bytes result }
    ensures alone { IsFormatAnswer result }

    // A disk that holds bytes is looked at, whatever the answer.
    ensures looked { IfTold (D.view disk.old).content (λ bytes. length bytes ≢ 0 → Stays (D.view disk.old) (D.view disk.new)) }
    ensures refused { IsErrOf result NotEmpty → Stays (D.view disk.old) (D.view disk.new) }
    ensures reads { (D.view disk.new).reads ≡ (D.view disk.old).reads }
    ensures cause { HasDiskCause (D.view disk.old).faults (D.view disk.new).faults result }
{
    if disk.len()? != 0 {
        return Err(StoreFault::NotEmpty);
    }
    let bytes = fresh_bytes();
    disk.write_at(0, &bytes)?;
    disk.sync()?;
    Ok(())
}

// The bytes of an empty store.
fn fresh_bytes() -> [u8; HEAD]
    ensures { IsFresh result }
{
    let mut bytes = zeros();
    put_field(&mut bytes, 0, MARK);
    put_field(&mut bytes, ROOT_AT as usize, 2);
    put_field(&mut bytes, FORMAT_AT as usize, FORMAT);
    bytes
}

/// Two pages of zeros.
pub fn zeros() -> [u8; HEAD]
    ensures long { length result ≡ 8192 }
    ensures zero { (i : ℕ) → slice_index result i ≡ 0 }
{
    [0; HEAD]
}

/// Puts a number at its place.
pub fn put_field(bytes: &mut [u8], at: usize, value: u64)
    requires { at + 8 ≤ length bytes.old }
    ensures here { number bytes.new at ≡ value }
    ensures long { length bytes.new ≡ length bytes.old }
    ensures others { (i : ℕ) → (i < at) ⊎ (at + 8 ≤ i) → slice_index bytes.new i ≡ slice_index bytes.old i }
{
    bytes[at..at + 8].copy_from_slice(&value.to_le_bytes());
}
