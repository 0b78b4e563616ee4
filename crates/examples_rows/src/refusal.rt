//! Why an example has no answer.
use osm_base::OutOfMemory;
use std::alloc::{AllocError, AllocFailed};

/// Why an example has no answer.
#[derive(Clone, Copy)]
pub enum Refusal {
    /// The row is not in its form.
    NoRow,
    OutOfMemory,
}

impl From<OutOfMemory> for Refusal {
    fn from(_: OutOfMemory) -> Self {
        Refusal::OutOfMemory
    }
}

impl From<AllocError> for Refusal {
    fn from(_: AllocError) -> Self {
        Refusal::OutOfMemory
    }
}

impl<T: Drop> From<AllocFailed<T>> for Refusal {
    fn from(_: AllocFailed<T>) -> Self {
        Refusal::OutOfMemory
    }
}
