//! Want of memory, the one answer that any call may give that takes memory.
ghost use Rattle.std.specs.Prelude.{◌≡◌};
ghost use Rattle.osm_base.specs.declared.bounds.memory.OutOfMemory.{OutOfMemory};

use std::alloc::{AllocError, AllocFailed};
use thiserror::Error;

/// There was no memory for what was to be kept.
#[derive(Clone, Copy, Debug, PartialEq, Eq, Error)]
#[error("out of memory")]
pub struct OutOfMemory;

impl From<AllocError> for OutOfMemory {
    fn from(_: AllocError) -> Self {
        OutOfMemory
    }
}

impl<T: Drop> From<AllocFailed<T>> for OutOfMemory {
    fn from(_: AllocFailed<T>) -> Self {
        OutOfMemory
    }
}
