//! The program as a library: it reads the words of the command line, does what they say and ends with a status.
//!
//! `run` does all of it over the traits of `outside`. Its contract is the promise of `run_promise`, in four clauses for all
//! commands: the status is that of the fault; words that are no command touch nothing; a command goes by its course, an
//! append reads no more of its store than its changes touch, and a check tells `sound` of a store that is; and whatever the
//! answer, a store keeps the history that it had, and behind it the steps of the run, each at least whose line, or whose
//! block of a feed, was taken whole.
//!
//! Below `run`, `command_of` says what the words mean, and each command is a module of `commands`.
//! Those without a store, `points` and `lines`, give the entries of their files to `tag_rows`. The
//! commands over a store open it by `update_flow`, go from version to version by `versions`, or by `feeding` where each is
//! told as a block, and hand the disk back.
#![tactic(auto)]

mod ahead;
mod answers;
mod blocks;
mod commands;
mod feeding;
mod file_reads;
mod following;
mod forms;
mod making;
mod number;
mod options;
mod running;
mod serving;
mod shared;
mod summary;
mod telling;
mod versions;
mod whole_text;
mod words;

pub use running::run;
pub use shared::shared_numbers;
pub use words::{makes_store, only_looks, store_of};
