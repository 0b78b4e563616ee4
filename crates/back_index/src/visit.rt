//! The lists of the index, by the maps of a store that they stand in.

use value_bytes::StoreMap;

/// A list of the index that is looked at where an object comes, goes or changes.
#[derive(Clone, Copy, PartialEq, Eq)]
pub struct Visit {
    /// The map of the list.
    pub map: StoreMap,
    /// The block, the node or the way that is listed.
    pub id: u64,
    /// Whether the old form of the object listed it.
    pub was: bool,
    /// Whether the new form lists it.
    pub is: bool,
}
