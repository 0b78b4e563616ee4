//! Where the numbers of the root page and of the pages of chains stand.

/// How many bytes a page has.
pub const PAGE: usize = 4096;

/// How many bytes of a page stand in front of those of its chain.
pub const LINK: usize = 16;

/// How many bytes of its chain a page holds, where it is not the last.
pub const HELD: usize = PAGE - LINK;

/// The number of the chain of the free pages.
pub const FREE: u32 = u32::MAX;

/// The number of the first directory, and how many there are: one for each map.
pub const DIRECTORY: u32 = 8;

pub const MAPS: u32 = 8;

/// The number of the first bucket of map 0. Those of the next map are as many behind as a map may have buckets.
pub const BUCKET: u32 = 16;

pub const MAX_BUCKETS: u32 = 65536;

/// No chain but that of the free pages has this number or one above it.
pub const CHAIN_END: u32 = BUCKET + MAPS * MAX_BUCKETS;

/// Where the root page has the number of home pages, its fields, the first free page, and the first pages of
/// chains 0 to 15.
pub const HOME_AT: usize = 0;

pub const FORMAT_AT: usize = 8;

pub const STATE_AT: usize = 16;

pub const CHANGES_AT: usize = 24;

pub const BUCKETS_AT: usize = 32;

pub const FREE_AT: usize = 40;

pub const FIRSTS_AT: usize = 48;
