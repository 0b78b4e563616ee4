//! What a change makes due: the objects whose lines and rows have to be built again.
//!
//! A change comes from `object_fold`; who lists a node or a way is asked of an index through `Back`,
//! in memory or in a store alike. `pending` gives the set of the nodes, ways and relations whose rows
//! may be others after the change under a style, and `ways_due` the ways alone whose lines may be.
//! What is not due has the same object and the same line before and after the change, and what is not
//! pending the same row in each table.
#![tactic(auto)]

mod fault;
mod pending_set;
mod reach;
mod relations;
mod selecting;
mod ways;

pub use fault::PendingFault;
pub use pending_set::pending;
pub use reach::reaches_nodes;
pub use ways::ways_due;
