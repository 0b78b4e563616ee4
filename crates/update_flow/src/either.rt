//! What the opening of a store of either kind has found.

use crate::{Base, Opened};

/// What the opening of a store of either kind has found: one that was only made or imported, or one that follows another, whose style
/// is known.
#[derive(Drop)]
pub enum Either {
    Updates(Opened),
    Follows(Base),
}
