//! Pieces of lines that are not used yet, and the walk that makes a line longer out of them.
//!
//! Lines are joined, and rings closed, out of the lines of several ways: the lowest piece that fits
//! comes next. The rule reads as a search through all pieces for each step; `UnusedPieces` keeps an
//! ordered map from places to the pieces that end there, so that a piece is found without a search.
//!
//! What is made of pieces is defined here too: the points and the line of a way, joined lines, and
//! rings. `line_build` and `ring_build` build these, and what only cites them needs none of their code.
#![tactic(auto)]

mod heads;
mod index;
mod piece;
mod unused;
mod walk;

pub use piece::{are_pieces, is_closed};
pub use unused::UnusedPieces;
pub use walk::extend;
