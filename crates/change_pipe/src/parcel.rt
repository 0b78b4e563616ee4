//! What a file of changes was read as.
ghost use Rattle.std.specs.Prelude.{◌≡◌, ◌↔◌, IsTrue};
ghost use Rattle.outside.specs.Reads.{ReadsNoOther};
ghost use Rattle.change_pipe.specs.Parcels.{IsParcelOf, IsWhole};

use object_fold::{Change, WorkerCount};
use opl_files::{FileFault, read_parallel};
use osm_base::Limits;
use outside::Inputs;
use std::alloc::Global;
use std::thread::Threads;

/// All the entries of a file, or the fault for which it is refused.
#[derive(Drop)]
pub enum ParcelBody {
    Whole(Change),
    Refused(FileFault),
}

/// What a file was read as, by the number of the file.
#[derive(Drop)]
pub struct Parcel {
    pub file: u32,
    pub body: ParcelBody,
}

/// Whether its file was accepted.
pub(crate) fn is_whole(parcel: &Parcel) -> bool
    ensures whole { IsTrue result ↔ IsWhole parcel.now }
{
    match &parcel.body {
        ParcelBody::Whole(_) => true,
        ParcelBody::Refused(_) => false,
    }
}

/// What a file is read as by so many workers.
pub(crate) fn read_parcel<R: Threads + Sync, I: Inputs>(
    rt: &R,
    alloc: Global,
    inputs: &mut I,
    file: u32,
    limits: &Limits,
    workers: WorkerCount,
) -> Parcel
    ensures parcel { IsParcelOf limits.now file (I.view inputs.old) (I.view inputs.new) result }
    ensures read { ReadsNoOther file (λ asked. I.reads inputs.old asked inputs.new) (I.view inputs.old) (I.view inputs.new) }
{
    match read_parallel(rt, alloc, inputs, file, limits, workers.count) {
        Ok(change) => Parcel {
            file,
            body: ParcelBody::Whole(change),
        },
        Err(fault) => Parcel {
            file,
            body: ParcelBody::Refused(fault),
        },
    }
}
