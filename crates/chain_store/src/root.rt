//! The fields of a store that are not its chains.

/// The fields of a store that are not its chains.
#[derive(Clone, Copy, PartialEq, Eq)]
pub struct Root {
    pub format: u64,
    pub state: u64,
    pub changes: u64,
    /// How many buckets each of the eight maps has.
    pub buckets: u64,
}
