//! Tables of examples, as the programs that run the examples read them.
//!
//! A table is a text of lines. An empty line and one that begins with `#` say nothing, and any other
//! is a row: a word, and behind the blanks that follow it the rest. What a row says is up to the
//! program, which prints the name of each example that it ran, and tells the first that differs on
//! standard error. In a field that holds what a row can't write, `\n`, `\t`, `\r`, `\s` and `\\` are a
//! newline, a tab, a carriage return, a blank and a backslash, and `\xHH` is any byte.
#![tactic(auto)]

mod escape;
mod row;
mod running;
mod telling;

pub use escape::{bytes_of, unescaped, words_of};
pub use row::{named_row, number_in, sides_of, signed_of};
pub use running::{Examples, run_examples};
pub use telling::{is_told, refuse_row};
