//! The tiles that are due: sets of tiles joined, kept in bytes, and told as text.
//!
//! It stands on the sets of `tile_cover`. `union` puts the tiles that a change makes due to those that
//! were due before; `encode` and `decode` give a set its bytes in a store and read them. Each set has one
//! spelling, and bytes that spell none are refused. `TileLevels` writes a line for each tile of a set
//! and for each tile above one, each once, in time that grows with the lines and in pieces, so that the
//! text never stands in memory.
#![tactic(auto)]

mod fault;
mod joining;
mod levels;
mod part;
mod piece;
mod places;
mod spelling;
mod tile_numbers;
mod tile_text;
mod zoom;

pub use fault::{DueFault, TilesFault};
pub use joining::union;
pub use levels::TileLevels;
pub use spelling::{decode, encode};
pub use tile_text::{tiles_text, write_tiles};
