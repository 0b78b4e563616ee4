//! Why a file of queries was not read.
ghost use Rattle.std.specs.Prelude.{◌≡◌};
ghost use Rattle.map_query.specs.declared.fault.QueryFault.TheVariants.{OutOfMemory as NoMemory};
ghost use Rattle.map_query.specs.Fault.{cause_number};

use std::alloc::{AllocError, AllocFailed};
use thiserror::Error;

/// The cause that comes first in a line that is no query.
#[derive(Clone, Copy, Debug, PartialEq, Eq, Error)]
pub enum QueryWhy {
    #[error("the line has not the form of a query")]
    Form,
    #[error("no table has this name")]
    UnknownTable,
    #[error("a number is not in its form or out of its range")]
    Number,
    #[error("a side of the box lies beyond the one opposite")]
    EmptyBox,
}

impl QueryWhy {
    /// The number of the cause.
    pub fn number(&self) -> u8
        ensures number { result ≡ cause_number self.now }
    {
        match self {
            QueryWhy::Form => 1,
            QueryWhy::UnknownTable => 2,
            QueryWhy::Number => 3,
            QueryWhy::EmptyBox => 4,
        }
    }
}

/// The first line of a file that is no query, or want of memory.
#[derive(Clone, Copy, Debug, PartialEq, Eq, Error)]
pub enum QueryFault {
    /// The line, from 1, and what is wrong with it.
    #[error("bad query line {line}: {why}")]
    Bad { line: u32, why: QueryWhy },
    #[error("out of memory")]
    OutOfMemory,
}

impl From<AllocError> for QueryFault {
    ghost from_gives = { λ _ fault. fault ≡ NoMemory };

    fn from(_: AllocError) -> Self {
        QueryFault::OutOfMemory
    }
}

impl<T: Drop> From<AllocFailed<T>> for QueryFault {
    ghost from_gives = { λ _ fault. fault ≡ NoMemory };

    fn from(_: AllocFailed<T>) -> Self {
        QueryFault::OutOfMemory
    }
}
