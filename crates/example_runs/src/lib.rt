//! Runs of the program as tables say them, each with what is wanted of it.
//!
//! `Example::set` takes up a row: the words of a run, the files that they name, what the disk holds at first, which calls fail and what
//! the gate holds, and then what is wanted: the status, the line of the fault, the path of the store, what is printed and what the disk
//! holds. `Texts` are bytes with names that files may hold, and `example_of` reads a row of words with what they ask for. A `Sweep` spoils a
//! run at one call or page after another, and `with_option` has an append read files ahead. A program that does the runs gives each one
//! an `InTurn` as its gate and `WatchedFiles` over it.
#![tactic(auto)]

mod ahead;
mod example;
mod gate;
mod rows;
mod sweep;
mod texts;
mod turn;
mod wanted;
mod watched;
mod words;

pub use ahead::{OPTIONS, may_read_ahead, with_option};
pub use example::Example;
pub use gate::{Holds, InTurn};
pub use sweep::Sweep;
pub use texts::Texts;
pub use turn::{Plan, Put, Turn};
pub use wanted::{Piece, Wanted};
pub use watched::WatchedFiles;
pub use words::example_of;
