//! Why a store cannot do what it is asked.
ghost use Rattle.std.specs.Prelude.{◌≡◌};
ghost use Rattle.page_journal.specs.declared.fault.StoreFault.TheVariants.{DiskFault, OutOfMemory};

use osm_base::OutOfMemory as NoMemory;
use outside::Failed;
use std::alloc::{AllocError, AllocFailed};
use thiserror::Error;

/// Why a store cannot do what it is asked.
#[derive(Clone, Copy, Debug, PartialEq, Eq, Error)]
pub enum StoreFault {
    #[error("not formatted")]
    NotFormatted,
    #[error("not empty")]
    NotEmpty,
    #[error("bad store page {page}")]
    BadStore { page: u64 },
    #[error("disk fault")]
    DiskFault,
    #[error("the store would have {pages} pages")]
    StoreFull { pages: u64 },
    #[error("an earlier call met a disk fault")]
    Broken,
    #[error("out of memory")]
    OutOfMemory,
}

impl From<Failed> for StoreFault {
    ghost from_gives = { λ _ fault. fault ≡ DiskFault };

    fn from(_: Failed) -> Self {
        StoreFault::DiskFault
    }
}

impl From<NoMemory> for StoreFault {
    ghost from_gives = { λ _ fault. fault ≡ OutOfMemory };

    fn from(_: NoMemory) -> Self {
        StoreFault::OutOfMemory
    }
}

impl From<AllocError> for StoreFault {
    ghost from_gives = { λ _ fault. fault ≡ OutOfMemory };

    fn from(_: AllocError) -> Self {
        StoreFault::OutOfMemory
    }
}

impl<T: Drop> From<AllocFailed<T>> for StoreFault {
    ghost from_gives = { λ _ fault. fault ≡ OutOfMemory };

    fn from(_: AllocFailed<T>) -> Self {
        StoreFault::OutOfMemory
    }
}
