//! Why bytes are no style.
ghost use Rattle.std.specs.Prelude.{◌≡◌};
ghost use Rattle.style_read.specs.Why.{cause_number};
ghost use Rattle.style_read.specs.declared.fault.StyleFault.TheVariants.{OutOfMemory};

use std::alloc::{AllocError, AllocFailed};
use thiserror::Error;

/// What stands against a part of a style. The causes are numbered from 1, in this order.
#[derive(Clone, Copy, Debug, PartialEq, Eq)]
pub enum StyleWhy {
    /// The bytes are no TOML document.
    Toml,
    /// A key that has no meaning there.
    UnknownKey,
    /// A key that has to be there is not, or `table` is an empty list.
    MissingKey,
    /// A value of another type, or a word that is none of those that may stand there.
    WrongType,
    /// A name that is not in its form, or that stood before.
    Name,
    /// A geometry that the source does not give.
    SourceGeometry,
    /// A condition that is not in its form, or that may not stand there.
    Condition,
    /// What a column is from is not in its form, or may not stand there.
    Column,
    /// There is no selection of this name.
    UnknownSelection,
    /// More tables, selections or columns than there may be.
    TooMany,
}

impl StyleWhy {
    /// The number of the cause.
    pub fn number(&self) -> u8
        ensures number { result ≡ cause_number self.now }
    {
        match self {
            StyleWhy::Toml => 1,
            StyleWhy::UnknownKey => 2,
            StyleWhy::MissingKey => 3,
            StyleWhy::WrongType => 4,
            StyleWhy::Name => 5,
            StyleWhy::SourceGeometry => 6,
            StyleWhy::Condition => 7,
            StyleWhy::Column => 8,
            StyleWhy::UnknownSelection => 9,
            StyleWhy::TooMany => 10,
        }
    }
}

/// A part of a style. Selections and tables are counted from 1.
#[derive(Clone, Copy, Debug, PartialEq, Eq)]
pub enum StylePart {
    /// The document itself.
    Top,
    Selection(u32),
    Table(u32),
}

/// Why there is no style.
#[derive(Clone, Copy, Debug, PartialEq, Eq, Error)]
pub enum StyleFault {
    #[error("the style has cause {why:?} in part {part:?}")]
    Bad { why: StyleWhy, part: StylePart },
    #[error("out of memory")]
    OutOfMemory,
}

impl From<osm_base::OutOfMemory> for StyleFault {
    ghost from_gives = { λ _ fault. fault ≡ OutOfMemory };

    fn from(_: osm_base::OutOfMemory) -> Self {
        StyleFault::OutOfMemory
    }
}

impl From<AllocError> for StyleFault {
    ghost from_gives = { λ _ fault. fault ≡ OutOfMemory };

    fn from(_: AllocError) -> Self {
        StyleFault::OutOfMemory
    }
}

impl<T: Drop> From<AllocFailed<T>> for StyleFault {
    ghost from_gives = { λ _ fault. fault ≡ OutOfMemory };

    fn from(_: AllocFailed<T>) -> Self {
        StyleFault::OutOfMemory
    }
}
