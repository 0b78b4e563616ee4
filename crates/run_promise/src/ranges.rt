//! How many workers, readers and buckets a command may have, and how many files it may read ahead.

/// The most workers that a command may have.
pub const MAX_WORKERS: u32 = 64;

/// The most readers that a command may have.
pub const MAX_READERS: u32 = 64;

/// The most buckets that a map of a store may have.
pub const MAX_BUCKETS: u32 = 65_536;

/// The most files that a command may read ahead.
pub const MAX_AHEAD: u32 = 8;
