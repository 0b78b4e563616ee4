//! A value of a store that is not right.

use value_bytes::StoreMap;

/// Where a value stands that is not right, or where one is missing: a map of a store, and a key of that map.
#[derive(Clone, Copy, Debug, PartialEq, Eq)]
pub struct Wrong {
    pub map: StoreMap,
    pub key: u64,
}
