//! The rows of all that waits, built by any number of workers.
//!
//! The keys of a pending set are numbered; each worker draws its next number from a book, builds that
//! key's rows, and draws again until no number is left. It stands between `row_map`, which says what the
//! rows of one key are, and what stores them. The list of rows is the one that a single worker builds,
//! whatever their number and whichever drew which key: `build_all` says so. That the work was shared, and
//! that two workers ran beside each other, no proof says.
#![tactic(auto)]

mod build;
mod hands;
mod keys;
mod laws;
mod part;
mod tickets;
mod worker;
mod workers;

pub use build::{Built, build_all};
pub use hands::Hands;
pub use keys::{MAX_KEYS, key_count, key_of};
pub use laws::rows_agree;
pub use part::Part;
pub use worker::work;
pub use workers::Workers;
