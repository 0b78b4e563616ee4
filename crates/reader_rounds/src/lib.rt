//! Readers that ask a list of queries in rounds, each in a thread, while versions are published.
//!
//! It stands on the readers of `table_versions`. `publish_first` makes a publisher and its readers. `Askers::ask_beside` has
//! all readers ask the list so many times, while the calling thread does something else, as publish versions. Once nothing is
//! published any more, `finish` tells each reader of all that was, has it ask once more, and gives what it answered in all
//! rounds: whole versions that never fall, the last round over the last one.
#![tactic(auto)]

mod asker;
mod askers;
mod settling;

pub use askers::{Askers, Blocks, publish_first};
pub use settling::Rounds;
