//! A bucket of a store: a finite map from numbers to bytes.
//!
//! On the path of the data it stands between the bytes of a chain and the buckets of an open store. A
//! `Bucket` is read from its bytes and told them again: its records as they lie there, marks of where each
//! sixteenth begins, and what was changed since. A value that is looked at is not copied, a key above all
//! others is written behind them, and other changes are merged when the bytes are wanted, in runs of
//! records that stay.
//!
//! It is seen as a finite map. `read` answers `NotSpelled` exactly where the bytes are no records of the
//! bucket by `IsBucket` of `specs/Records.antt`, `get`, `put` and `remove` are those of the map, and
//! `into_bytes` gives the one spelling of it. Whatever fails leaves the map as it was.
#![tactic(auto)]

mod bucket;
mod index;
mod listing;
mod merging;
mod records;
mod searching;
mod spelling;

pub use bucket::Bucket;
pub use records::Records;
