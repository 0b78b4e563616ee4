//! Who lists a node or a way, kept in a store.
//!
//! On the path of the data it stands between the buckets of a store and the steps that look for what
//! depends on a change. A list has one spelling in bytes, which serves reading and writing: `read_ids` and
//! `ids_bytes`.
//!
//! `relist` takes an object from one form to another in the three maps of the index, and changes no list
//! that both forms are in; where the store means something, what it means afterwards is told list by list
//! (`Relists` of `specs/Index.antt`), and `BadStore` names the bucket of the first list, in the order of
//! the work, that is not spelled or lacks the object. `fill` makes the index of a store without a list
//! of all objects at once, and puts each list once (`Fills`). `Indexed` answers who lists a node or a way as the
//! maps of the store do, by `index_on`; of the ways of a node's block it keeps those that list the node.
#![tactic(auto)]

mod candidates;
mod filling;
mod ids;
mod indexed;
mod listed_ids;
mod lists;
mod mentions;
mod relisting;
mod visit;

pub use filling::fill;
pub use ids::{ids_bytes, read_ids};
pub use indexed::Indexed;
pub use lists::listers;
pub use mentions::{Mention, add_listed, sort_mentions};
pub use relisting::relist;
pub use visit::Visit;
