//! The entries of a file, the objects that they make, and who lists which of these.
//!
//! On the path of the data it stands behind the types. Who reads a file gives each entry to a `Keeper`; a
//! `Change` keeps them as they come, so that its keys rise. `WorkerCount` is how many share a piece of work.
//!
//! `Objects` are the objects of a map by their keys, and `fold` makes of them what a change says, as
//! `folded_all` of `specs/Fold.antt`. Beside them they keep the index: which ways list a node, and which
//! relations have a node or a way as a member, as rising ids. It is always the one that `index_of` of
//! `specs/Index.antt` gives of the objects that stand, also after memory ran out within a fold. Lines
//! are built of `Objects` through `Lookup`, and what a change makes due is asked through `Back`, of
//! `Objects` or of an `ObjectIndex` over objects that are only read. `UnlistedObjects` are objects
//! without the index, while nobody asks for it; `into_objects` lists them.
#![tactic(auto)]

mod change;
mod keeper;
mod listed;
mod listing;
mod listings;
mod objects;
mod rising_ids;
mod worker_count;

pub use change::Change;
pub use keeper::Keeper;
pub use objects::{ObjectIndex, Objects, UnlistedObjects};
pub use rising_ids::RisingIds;
pub use worker_count::WorkerCount;
