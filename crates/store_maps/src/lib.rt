//! The maps of a store as values: what they hold, what they stand for, and what a change makes of them.
//!
//! On the path of the data it stands between the flow of changes and the store. The flow says what becomes of the eight finite
//! maps (`change_on`, `appended` of the specs), and `MapStore` is what it asks of a store for that: to read one value, and to set
//! one. That such maps stand for the objects of a map and for its rows, before a change and after it, is proved of the maps
//! alone, with no word of pages or bytes. `SortedRows` are rows of tables as they are told: by rising spots.
#![tactic(auto)]

mod columns;
mod sorted_rows;
mod store;

pub use columns::columns_of;
pub use sorted_rows::SortedRows;
pub use store::{BLOCK, MapStore, shared_numbers};
