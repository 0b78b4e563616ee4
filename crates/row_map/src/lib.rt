//! The rows of objects, built: the row that an object has in a table, by the rules of `row_rules`.
//!
//! It stands on the style and on the geometry crates; import, append and the check of a store stand on it. `row_of` answers
//! the row of an object in a table, out of whatever knows the object, what it lists and which relations list it; `rows_of`
//! those of all tables; and `may_have_rows`, whether a table may want an object at all.
#![tactic(auto)]

mod area;
mod cell;
mod condition;
mod geometry;
mod number;
mod pieces;
mod relations;
mod row;
mod rows;
mod tags_text;
mod values;
mod wanted;

pub use condition::selects;
pub use row::row_of;
pub use rows::rows_of;
pub use wanted::may_have_rows;
