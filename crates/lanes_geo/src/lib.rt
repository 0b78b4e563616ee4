//! Geometry by vectors: sixteen numbers at a time, and one after the other for the rest.
//!
//! It stands on the places and boxes of `osm_base` and knows nothing of objects or files. Rings are
//! nested, tiles met and boxes queried by these calls, and none of them takes memory.
//!
//! `crossings_of` counts the segments of a ring that cross the latitude of a place
//! strictly east of it. Thirty-two segments with all ends on one side of the latitude are passed
//! over by one test. For others the two products of the definition are told by natural numbers of
//! 64 bits, at most 6480000000000000000, which are added and compared and never subtracted.
//! `box_of` is the box of places, and `boxes_meet` marks the boxes that have a place in common with
//! an asked one, sides included. Each is equal to its plain definition for every length. `is_met`
//! asks one box, and `across` and `along` are the two products of one segment and one place.
//!
//! What the polygons of rings are is defined here too, in `specs/Nesting.antt`, since it is said by
//! these crossings. `ring_nest` builds them, and what only cites them needs none of its code.
#![tactic(auto)]

mod boxes;
mod crossings;
mod grid;
mod spans;

pub use boxes::{boxes_meet, is_met};
pub use crossings::{across, along, crossings_of, odd_crossings};
pub use spans::box_of;
