//! Whether an open store is sound: what that means of its chains and of its values, and what finds out.
//!
//! It stands beside the steps of a change, over the buckets of a store: `specs/Kept.antt` has what the eight maps hold. `survey` reads
//! texts 1 and 2, the buckets and the free pages once and finds the first that is refused, or the lowest page that is in no chain and
//! not free (`specs/BadPage.antt`); whether the other texts are empty is asked where a whole store is judged.
//! `first_wrong` looks at each value of each map then (`specs/Values.antt`): maps 0 to 2 are read as objects, of which what rows need
//! is held; lists are compared with what the ways and relations list, and rows with those that an import of the objects makes. Of a
//! node whose tags nobody knows, in a store that was migrated, it is known only that its rows stand in tables of nodes, at its place.
//!
//! The values are read by a `Reading`, a transaction that changes nothing and can be read on also behind a refusal: what a call of it finds,
//! what it leaves and how it may refuse are one record, `Finds` (`specs/Finds.antt`).
//!
//! `right_is_sound` and `sound_is_right` tie the values to the maps of a sound store (`specs/Maps.antt`), and `surveyed_means` and
//! `meaning_is_surveyed` the pages to what a store means. `PageMarks` has a mark for each home page.
#![tactic(auto)]

mod at_node;
mod held;
mod judging;
mod judging_maps;
mod laws;
mod least;
mod list_judge;
mod lists;
mod mentions;
mod node_list;
mod objects;
mod page_marks;
mod places;
mod reading;
mod row_judge;
mod row_records;
mod row_source;
mod rows;
mod searching;
mod surveying;
mod told_lists;
mod wrong;

pub use laws::{meaning_is_surveyed, right_is_sound, sound_is_right, surveyed_means};
pub use page_marks::PageMarks;
pub use searching::first_wrong;
pub use surveying::survey;
pub use wrong::Wrong;
