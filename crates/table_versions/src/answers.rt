//! The answers of readers.
use map_query::Found;

/// What a query finds, and in which version.
#[derive(Drop)]
pub struct Answer {
    pub version: u64,
    pub found: Found,
}

/// How many rows a table has, and in which version.
#[derive(Clone, Copy, PartialEq, Eq)]
pub struct Counted {
    pub version: u64,
    pub rows: u64,
}

/// Why there is no answer.
#[derive(Clone, Copy, PartialEq, Eq)]
pub enum LookRefused {
    /// The reader was not let in.
    Shut,
    OutOfMemory,
}
