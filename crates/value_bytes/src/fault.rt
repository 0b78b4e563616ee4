//! Why bytes are read as no value.
ghost use Rattle.std.specs.Prelude.{◌≡◌};
ghost use Rattle.value_bytes.specs.declared.fault.ValueFault.TheVariants.{OutOfMemory};

use osm_base::OutOfMemory as NoMemory;
use std::alloc::{AllocError, AllocFailed};
use thiserror::Error;

/// Why bytes are read as no value.
#[derive(Clone, Copy, Debug, PartialEq, Eq, Error)]
pub enum ValueFault {
    #[error("no value has these bytes")]
    NotSpelled,
    #[error("out of memory")]
    OutOfMemory,
}

impl From<NoMemory> for ValueFault {
    ghost from_gives = { λ _ fault. fault ≡ OutOfMemory };

    fn from(_: NoMemory) -> Self {
        ValueFault::OutOfMemory
    }
}

impl From<AllocError> for ValueFault {
    ghost from_gives = { λ _ fault. fault ≡ OutOfMemory };

    fn from(_: AllocError) -> Self {
        ValueFault::OutOfMemory
    }
}

impl<T: Drop> From<AllocFailed<T>> for ValueFault {
    ghost from_gives = { λ _ fault. fault ≡ OutOfMemory };

    fn from(_: AllocFailed<T>) -> Self {
        ValueFault::OutOfMemory
    }
}
