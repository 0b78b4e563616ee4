//! What a store keeps of ways and relations.
//!
//! On the path of the data it stands between the buckets of a store and the steps that need the objects
//! of a map. `get`, `put` and `remove` are the calls of two finite maps from ids to objects, each of one
//! spelling in bytes (`object_bytes` of `value_bytes`), within a transaction: what was put is got, and `BadStore` tells the page where the bucket of an object begins that does not read.
#![tactic(auto)]

mod calls;

pub use calls::{get, put, remove};
pub use value_bytes::{object_bytes, read_object};
