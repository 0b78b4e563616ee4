//! The meaning of every table: which row an object has in it.
//!
//! It stands on the style and on the definitions of lines, rings and polygons. Here are definitions, laws of them, the numbers
//! that they share with code, and whether tags meet a condition; nothing else runs. They say what `row` and `tables` are of all
//! objects of a map, and know no index and no order of work. `row_map` builds these rows, and `store_maps` says that a store holds
//! them, without each other.
#![tactic(auto)]

mod cell;
mod condition;
mod laws;

pub use cell::{COMMA, MAX_DIGITS, MINUS};
pub use condition::{holds_of_tags, meets};
pub use laws::{rows_are_local, shared_numbers, tables_are_rows, unwanted_has_no_row};
