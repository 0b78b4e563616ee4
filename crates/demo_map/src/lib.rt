//! A map made out of nothing, for a first look and for measurements.
//!
//! It makes what `object_fold` reads from files, of a number of squares alone: the entries of a map with a
//! cafe and a building for each square and a route for each ten of them, and two changes of it. With them come
//! the style and the boundary table that the map is imported with. `specs/Demo.antt` says which entries these
//! are, and `specs/Style.antt` which style; each call gives just that, or memory ran out.
//!
//! `written_is_read` is a law that stands beside it: entries that `write_entry` of `opl_object` has written into
//! a file are read from it as the same. `demo_is_read` says it of the entries that are made here.
#![tactic(auto)]

mod entries;
mod laws;
mod map;
mod parts;
mod squares;
mod style;

pub use laws::{demo_is_read, shared_numbers, style_is_read, written_is_read};
pub use map::{first_change_of, input_of, second_change_of};
pub use squares::{MAX_SQUARES, Squares};
pub use style::{DemoStyle, demo_bounds, demo_style};
