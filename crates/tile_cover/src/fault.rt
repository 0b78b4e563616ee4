//! Why a table of boundaries was not read.
ghost use Rattle.std.specs.Prelude.{◌≡◌};
ghost use Rattle.tile_cover.specs.declared.fault.BoundsFault.TheVariants.{OutOfMemory};

use std::alloc::{AllocError, AllocFailed};
use thiserror::Error;

/// A line of a table that is not good, or want of memory.
#[derive(Clone, Copy, Debug, PartialEq, Eq, Error)]
pub enum BoundsFault {
    /// The line, from 1; one more than there are where lines are missing.
    #[error("bad bounds line {line}")]
    Bad { line: u32 },
    #[error("out of memory")]
    OutOfMemory,
}

impl From<AllocError> for BoundsFault {
    ghost from_gives = { λ _ e. e ≡ OutOfMemory };

    fn from(_: AllocError) -> Self {
        BoundsFault::OutOfMemory
    }
}

impl<T: Drop> From<AllocFailed<T>> for BoundsFault {
    ghost from_gives = { λ _ e. e ≡ OutOfMemory };

    fn from(_: AllocFailed<T>) -> Self {
        BoundsFault::OutOfMemory
    }
}
