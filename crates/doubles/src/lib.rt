//! What stands in memory for the world outside: files, an output and a disk, as the traits of `outside`.
//!
//! `MemInputs`, `MemSink` and `MemDisk` keep all in memory, tell every byte, and fail at the calls that
//! `Fails` names. Files fail nowhere else but where there is no such file; a sink and a disk also for want
//! of memory, which `short` tells. `MemDisk` keeps each call too, so that a crash in any of them can be
//! tried: `after_crash` gives what it leaves, where the ranges that were written since the last sync hold
//! what a `CrashPick` says, and that is among what the trait allows.
//!
//! The programs of examples run the crates above over these, from the lines of a file to the commands. The
//! program itself takes an empty `MemDisk` where a command names no store. `HeldReader` of `table_versions`
//! fails by a `Fails` too.
#![tactic(auto)]

mod calls;
mod crash_pick;
mod fails;
mod files_left;
mod mem_disk;
mod mem_inputs;
mod mem_sink;
mod overwrite;
mod recorded;
mod tape;

pub use crash_pick::CrashPick;
pub use fails::Fails;
pub use mem_disk::MemDisk;
pub use mem_inputs::MemInputs;
pub use mem_sink::MemSink;
