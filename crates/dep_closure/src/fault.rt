//! Why what a change makes due is not known.
ghost use Rattle.std.specs.Prelude.{◌≡◌};
ghost use Rattle.dep_closure.specs.declared.fault.PendingFault.TheVariants.{OutOfMemory as NoMemory};

use osm_base::OutOfMemory;
use std::alloc::{AllocError, AllocFailed};
use thiserror::Error;

/// What ends the search for what a change makes due. `E` is a refusal of the index that is asked.
#[derive(Clone, Copy, Debug, PartialEq, Eq, Error)]
pub enum PendingFault<E> {
    #[error("the index cannot be read")]
    Back(E),
    #[error("{value} objects are due")]
    TooMany { value: u64 },
    #[error("out of memory")]
    OutOfMemory,
}

impl<E> From<OutOfMemory> for PendingFault<E> {
    ghost from_gives = { λ _ fault. fault ≡ NoMemory };

    fn from(_: OutOfMemory) -> Self {
        PendingFault::OutOfMemory
    }
}

impl<E> From<AllocError> for PendingFault<E> {
    ghost from_gives = { λ _ fault. fault ≡ NoMemory };

    fn from(_: AllocError) -> Self {
        PendingFault::OutOfMemory
    }
}

impl<E, T: Drop> From<AllocFailed<T>> for PendingFault<E> {
    ghost from_gives = { λ _ fault. fault ≡ NoMemory };

    fn from(_: AllocFailed<T>) -> Self {
        PendingFault::OutOfMemory
    }
}
