//! The lines of an OPL file, whatever pieces its bytes come in.
//!
//! It stands between what reads files and what parses lines, and knows neither: a caller gives a
//! `LineReader` piece after piece, and has each line as soon as its newline came. `take` copies the
//! bytes of a line into the reader; `take_line` lends a line that lies whole in the piece, and copies
//! only what the end of a piece cuts in two.
//!
//! By both calls the lines are `lines_of` the file, however it was cut: whatever bytes follow, the line
//! that ended is the first of the lines from there on. A file with a line too long, or with a line too
//! many, is refused exactly where that is certain, and then for good; such a fault is a fact about the
//! whole file. Want of memory changes nothing. `room` bounds the bytes that a reader may still take, so
//! a loop over pieces ends by itself. `lines_in` is that loop: for every list of pieces it gives the lines
//! of the bytes, or the limit that they pass first.
#![tactic(auto)]

mod fault;
mod reader;
mod whole;

pub use fault::LineFault;
pub use reader::{Cut, Line, LineReader, NEWLINE, Taken, first_line, shared_numbers};
pub use whole::lines_in;
