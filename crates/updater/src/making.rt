//! What commands share that make their store.
ghost use Rattle.std.specs.Prelude.{◌≡◌, ◌≤◌, length, IfErr, OnOk};
ghost use Rattle.outside.specs.Bytes.{IfTold};
ghost use Rattle.outside.specs.Disk.{Stays};
ghost use Rattle.run_promise.specs.Making.{IsNotEmpty};

use outside::Disk;
use run_promise::Fault;

/// The buckets of each map of a store that is made.
pub const MADE_BUCKETS: u64 = 1_024;

/// Looks whether a disk is empty.
#[tactic(auto, using(crate::proofs::MakeRuns::disk_looks))]
pub fn wants_empty<D: Disk>(disk: &mut D) -> Result<(), Fault>
    ensures empty { OnOk result (IfTold (D.view disk.old).content (λ bytes. length bytes ≡ 0)) }
    ensures err { IfErr result (IsNotEmpty (D.view disk.old) (D.view disk.new)) }
    ensures stays { Stays (D.view disk.old) (D.view disk.new) }
    ensures later { (D.view disk.old).faults ≤ (D.view disk.new).faults }
{
    match disk.len() {
        Ok(0) => Ok(()),
        Ok(_) => Err(Fault::NotEmpty),
        Err(_) => Err(Fault::DiskFault),
    }
}
