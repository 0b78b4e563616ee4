//! Why a line has no entry.
ghost use Rattle.std.specs.Prelude.{◌≡◌};
ghost use Rattle.opl_object.specs.declared.why.LineRefused.TheVariants.{Bad, OutOfMemory as NoMemory};
ghost use Rattle.opl_object.specs.Why.{cause_number};

use osm_base::{Key, OutOfMemory};
use std::alloc::{AllocError, AllocFailed};
use std::{error, fmt};
use thiserror::Error;

/// The cause that comes first in a line, from its left to its right.
#[derive(Clone, Copy, Debug, PartialEq, Eq)]
pub enum Why {
    Utf8,
    Kind,
    Id,
    Field,
    Repeated,
    Number,
    Range,
    Escape,
    Tag,
    RepeatedKey,
    Member,
    HalfPlace,
    /// The line before has a key that is not below this line's.
    Order { earlier: Key, later: Key },
}

impl Why {
    /// The number of the cause.
    pub fn number(&self) -> u8
        ensures number { result ≡ cause_number self.now }
    {
        match self {
            Why::Utf8 => 1,
            Why::Kind => 2,
            Why::Id => 3,
            Why::Field => 4,
            Why::Repeated => 5,
            Why::Number => 6,
            Why::Range => 7,
            Why::Escape => 8,
            Why::Tag => 9,
            Why::RepeatedKey => 10,
            Why::Member => 11,
            Why::HalfPlace => 12,
            Why::Order { .. } => 13,
        }
    }

    /// What is wrong, in words.
    fn text(&self) -> &'static str {
        match self {
            Why::Utf8 => "the line is not UTF-8",
            Why::Kind => "the line begins with no kind of object",
            Why::Id => "an id is no number from 1 to 9223372036854775807",
            Why::Field => "a field is none of this kind of object",
            Why::Repeated => "a field stands twice",
            Why::Number => "a number or a time is not in its form",
            Why::Range => "a coordinate is out of its range",
            Why::Escape => "a text has an escape or a character that it may not have",
            Why::Tag => "a tag has no equals sign",
            Why::RepeatedKey => "a key of a tag stands twice",
            Why::Member => "an item of a list is not in its form",
            Why::HalfPlace => "a place has only one of its coordinates",
            Why::Order { .. } => "the key is not above the one before",
        }
    }
}

impl fmt::Display for Why {
    fn fmt<W: fmt::Write>(&self, f: &mut fmt::Formatter<W>) -> fmt::Result {
        f.write_str(self.text())
    }
}

impl error::Error for Why {}

/// Why `read_line` gave nothing.
#[derive(Clone, Copy, Debug, Error)]
pub enum LineRefused {
    #[error("{0}")]
    Bad(Why),
    #[error("out of memory")]
    OutOfMemory,
}

impl From<Why> for LineRefused {
    ghost from_gives = { λ why refused. refused ≡ Bad why };

    fn from(why: Why) -> Self {
        LineRefused::Bad(why)
    }
}

impl From<OutOfMemory> for LineRefused {
    ghost from_gives = { λ _ refused. refused ≡ NoMemory };

    fn from(_: OutOfMemory) -> Self {
        LineRefused::OutOfMemory
    }
}

impl From<AllocError> for LineRefused {
    ghost from_gives = { λ _ refused. refused ≡ NoMemory };

    fn from(_: AllocError) -> Self {
        LineRefused::OutOfMemory
    }
}

impl<T: Drop> From<AllocFailed<T>> for LineRefused {
    ghost from_gives = { λ _ refused. refused ≡ NoMemory };

    fn from(_: AllocFailed<T>) -> Self {
        LineRefused::OutOfMemory
    }
}
