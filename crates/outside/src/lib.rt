//! The world outside of the program as traits that count their faults: files that are read, a place
//! where output goes, and a disk.
//!
//! Every command reads through `Inputs`, writes through `Sink` and keeps its store on a `Disk`.
//! Contracts name the bytes that are left in each file, those that a sink has taken and those that a
//! disk gives, where the object tells them, and a count of faults. A call answers `Failed` only where
//! that count rose, so code that is generic over these traits cannot make a fault up: its own contract
//! says `HasCause`. Of a disk they also say what a crash may leave, now and at each moment since an
//! earlier one: until a sync has succeeded, anything may stand in the ranges that were written.
//!
//! `FileInputs`, `StdSink` and `FileDisk` stand over real files and a real stream: no proof says what
//! those hold, so they tell no bytes, and each counts its faults. `put_all` writes a whole text. What
//! stands for them in memory, and tells every byte, is the crate `doubles`.
//!
//! A `Gate` is what threads pass at five places of a run. `OpenGate` holds nobody.
//!
//! `TellingFiles`, `TellingGate` and `TellingSink` do what those over real files, nobody and a real stream do, and tell by a
//! `Progress` how far a long run is: a line before who waits, of which no clause speaks.
#![tactic(auto)]

mod disk;
mod failed;
mod file_disk;
mod file_inputs;
mod gate;
mod inputs;
mod progress;
mod sink;
mod std_sink;
mod telling_files;
mod telling_sink;

pub use disk::{Disk, MAX_LEN};
pub use failed::Failed;
pub use file_disk::{Bar, FileDisk};
pub use file_inputs::FileInputs;
pub use gate::{Gate, GatePlace, OpenGate, TellingGate};
pub use inputs::Inputs;
pub use progress::Progress;
pub use sink::{Sink, put_all};
pub use std_sink::StdSink;
pub use telling_files::TellingFiles;
pub use telling_sink::TellingSink;
