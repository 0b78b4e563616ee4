//! What may be asked of the rows of a table.
use osm_base::{GeoBox, Items, Key};

/// A question about the rows of one table, which is named by its number from 0.
#[derive(Clone, Copy, PartialEq, Eq)]
pub enum Query {
    /// How many rows it has.
    Count { table: u32 },
    /// The row of an object.
    One { table: u32, key: Key },
    /// The rows whose boxes have a place in common with this one.
    Box { table: u32, asked: GeoBox },
}

/// Queries, in the order in which they are asked.
pub type Queries = Items<Query>;
