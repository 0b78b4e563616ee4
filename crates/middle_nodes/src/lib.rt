//! What a store keeps of nodes.
//!
//! On the path of the data it stands between the buckets of a store and the steps that need the places
//! of nodes. `get`, `put` and `remove` are the calls of a finite map from ids to records, each of one
//! spelling in bytes (`NodeRecord` of `value_bytes`), within a transaction: what was put is got, and `BadStore` tells the page where the bucket of a record begins that does not read. A store of
//! the old format has places alone: `get_old` and `read_old` read them.
#![tactic(auto)]

mod calls;
mod old;

pub use calls::{get, put, remove};
pub use old::{get_old, read_old};
pub use value_bytes::NodeRecord;
