//! The lines of ways and of relations.
//!
//! A way gives the points of its nodes, and a line where there are two of them; the lines of the ways
//! of a relation are joined at their ends. What lines are built of is looked up through `Lookup`, in
//! memory or in a store alike. `piece_ends` has the definitions, and the walk that joins.
#![tactic(auto)]

mod joins;
mod points;

pub use joins::join_lines;
pub use points::{line_of, points_of};
