//! The objects of a map, of which most nodes are known by their places alone.
//!
//! It stands beside `object_fold`, and takes a quarter of the memory where nearly all objects are nodes without a tag:
//! `NodePlaces` keeps their places in a list by rising ids, to which a file in order only adds at the end, and
//! `PlacedObjects` has all else in `Objects`. `PlacedImport` takes the first file and lists nothing; it becomes
//! `PlacedObjects` where a change follows. Contracts see the same finite map of objects as there.
#![tactic(auto)]

mod import;
mod node_places;
mod objects;
mod search;

pub use import::PlacedImport;
pub use objects::PlacedObjects;
