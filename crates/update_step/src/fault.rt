//! Why a change is not made.
ghost use Rattle.std.specs.Prelude.{◌≡◌};
ghost use Rattle.update_step.specs.declared.fault.StepFault.TheVariants.{OutOfMemory as NoMemory};

use osm_base::OutOfMemory;
use std::alloc::{AllocError, AllocFailed};
use thiserror::Error;

/// What ends a change. `E` is a refusal of the store.
#[derive(Clone, Copy, Debug, PartialEq, Eq, Error)]
pub enum StepFault<E> {
    #[error("the store cannot be read or written")]
    Store(E),
    #[error("{value} objects are due")]
    TooMany { value: u64 },
    #[error("out of memory")]
    OutOfMemory,
}

impl<E> From<OutOfMemory> for StepFault<E> {
    ghost from_gives = { λ _ fault. fault ≡ NoMemory };

    fn from(_: OutOfMemory) -> Self {
        StepFault::OutOfMemory
    }
}

impl<E> From<AllocError> for StepFault<E> {
    ghost from_gives = { λ _ fault. fault ≡ NoMemory };

    fn from(_: AllocError) -> Self {
        StepFault::OutOfMemory
    }
}

impl<E, T: Drop> From<AllocFailed<T>> for StepFault<E> {
    ghost from_gives = { λ _ fault. fault ≡ NoMemory };

    fn from(_: AllocFailed<T>) -> Self {
        StepFault::OutOfMemory
    }
}
