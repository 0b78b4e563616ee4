//! Why a line of a feed is not read.
ghost use Rattle.std.specs.Prelude.{◌≡◌};
ghost use Rattle.delta_feed.specs.Why.{cause_number};
ghost use Rattle.delta_feed.specs.declared.fault.LineRefused.TheVariants.{Bad, OutOfMemory as NoMemory};

use osm_base::LimitKind;
use std::alloc::{AllocError, AllocFailed};
use thiserror::Error;

/// The cause that comes first in a line that is none of a feed.
#[derive(Clone, Copy, Debug, PartialEq, Eq, Error)]
pub enum FeedWhy {
    #[error("the line has not the form of a line in this place")]
    Form,
    #[error("a number is not in its form or out of its range")]
    Number,
    #[error("the digits are no bytes")]
    Hex,
    #[error("the bytes are no row of the table, or no style")]
    Row,
    #[error("the row does not come behind the one before it")]
    Order,
    #[error("the file ends in a block")]
    End,
}

impl FeedWhy {
    /// The number of the cause.
    pub fn number(&self) -> u8
        ensures number { result ≡ cause_number self.now }
    {
        match self {
            FeedWhy::Form => 1,
            FeedWhy::Number => 2,
            FeedWhy::Hex => 3,
            FeedWhy::Row => 4,
            FeedWhy::Order => 5,
            FeedWhy::End => 6,
        }
    }
}

/// A cause, or want of memory.
#[derive(Clone, Copy, Debug, PartialEq, Eq, Error)]
pub enum LineRefused {
    #[error("{0}")]
    Bad(FeedWhy),
    #[error("out of memory")]
    OutOfMemory,
}

impl From<FeedWhy> for LineRefused {
    ghost from_gives = { λ why fault. fault ≡ Bad why };

    fn from(why: FeedWhy) -> Self {
        LineRefused::Bad(why)
    }
}

impl From<AllocError> for LineRefused {
    ghost from_gives = { λ _ fault. fault ≡ NoMemory };

    fn from(_: AllocError) -> Self {
        LineRefused::OutOfMemory
    }
}

impl<T: Drop> From<AllocFailed<T>> for LineRefused {
    ghost from_gives = { λ _ fault. fault ≡ NoMemory };

    fn from(_: AllocFailed<T>) -> Self {
        LineRefused::OutOfMemory
    }
}

/// Why the next block of a file is not read.
#[derive(Clone, Copy, Debug, PartialEq, Eq, Error)]
pub enum FeedFault {
    #[error("line {line}: {why}")]
    Bad { line: u32, why: FeedWhy },
    #[error("line {line}: there is nothing that the difference differs from")]
    NoBase { line: u32 },
    #[error("a limit is passed")]
    Limit { which: LimitKind, value: u64 },
    #[error("the file cannot be read")]
    ReadFault,
    #[error("out of memory")]
    OutOfMemory,
}

/// Why a block is not written.
#[derive(Clone, Copy, Debug, PartialEq, Eq, Error)]
pub enum FeedWrite {
    #[error("the output cannot be written")]
    WriteFault,
    #[error("out of memory")]
    OutOfMemory,
}
