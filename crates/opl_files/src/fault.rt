//! Why a file has no entries.
ghost use Rattle.std.specs.Prelude.{◌≡◌};
ghost use Rattle.opl_files.specs.declared.fault.FileFault.TheVariants.{OutOfMemory as NoMemory};

use opl_object::Why;
use osm_base::{LimitKind, OutOfMemory};
use std::alloc::{AllocError, AllocFailed};
use thiserror::Error;

/// What ends the reading of a file of entries before its end.
#[derive(Clone, Copy, Debug, Error)]
pub enum FileFault {
    #[error("line {line}: {why}")]
    Malformed { line: u32, why: Why },
    #[error("a limit is passed with {value}")]
    Limit { which: LimitKind, value: u64 },
    #[error("the file cannot be read")]
    ReadFault,
    #[error("out of memory")]
    OutOfMemory,
}

impl From<OutOfMemory> for FileFault {
    ghost from_gives = { λ _ fault. fault ≡ NoMemory };

    fn from(_: OutOfMemory) -> Self {
        FileFault::OutOfMemory
    }
}

impl From<AllocError> for FileFault {
    ghost from_gives = { λ _ fault. fault ≡ NoMemory };

    fn from(_: AllocError) -> Self {
        FileFault::OutOfMemory
    }
}

impl<T: Drop> From<AllocFailed<T>> for FileFault {
    ghost from_gives = { λ _ fault. fault ≡ NoMemory };

    fn from(_: AllocFailed<T>) -> Self {
        FileFault::OutOfMemory
    }
}
