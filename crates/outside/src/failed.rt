//! The one error of the world outside.

use thiserror::Error;

/// A read or a write failed, and the count of faults of its object rose.
#[derive(Clone, Copy, Debug, PartialEq, Eq, Error)]
#[error("a read or a write failed")]
pub struct Failed;
