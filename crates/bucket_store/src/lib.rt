//! The buckets of a store: eight finite maps from numbers to bytes.
//!
//! On the path of the data it stands between the chains of an open store and the values that a store
//! keeps. A key stands in the bucket that it is modulo the number of buckets, and a bucket is a chain. A
//! transaction reads a bucket at most once, looks at its values where they lie, changes them in memory,
//! and writes each changed bucket once, in one commit.
//!
//! A store means an `Image`: its fields, its strings and eight finite maps. `open` finds what the bytes of a disk mean, the calls
//! of `Buckets` answer by what the transaction has made of it and change it there, and `commit` leaves the one or the other at
//! every moment. On a disk whose bytes mean nothing each call still answers page by page, by `Content` of
//! `specs/Transaction.antt`: a bucket is read at most once, and no more of the disk than its chain.
#![tactic(auto)]

mod buckets;
mod cache;
mod committing;
mod laws;
mod opening;
mod places;
mod reading;
mod resting;
mod slots;
mod typed;
mod whole;

pub use buckets::Buckets;
pub use laws::one_number_is_needed;
pub use opening::open;
pub use resting::Resting;
pub use typed::refuse_value;
pub use whole::WholeMap;
