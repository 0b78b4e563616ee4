//! Rings closed out of the lines of a relation's ways.
//!
//! An area is bounded by rings, and a relation gives them in pieces, in any order and turned either
//! way. A ring begins with the lowest piece that is left, and goes on with the lowest that fits
//! until it comes back. `rings_of` answers none where a place holds an odd number of ends of open
//! pieces, or a ring has fewer than four points; that each walk comes back otherwise is proved.
//! `are_rings` tests lines that come from elsewhere. `piece_ends` has the definition, and the walk.
#![tactic(auto)]

mod rings;

pub use rings::{are_rings, rings_of};
