//! The rows of the nodes and of the ways that have a tag, as `points` and `lines` print them.
//!
//! It stands on the entries of files, on the objects that they make and on their lines, and knows nothing of commands,
//! of a style or of a store: entries go in, and the text of their rows comes out. `PointRows` keeps the row of each
//! node with a tag and a place while files are read. `WayImport` takes the first file of ways and gives its text, or,
//! where changes follow, `WayRows`, which keeps the row of each way with the tag; a change is read into a
//! `TrimmedChange`, and builds again only the rows of the ways that it makes due. `specs/Points.antt` and
//! `specs/Lines.antt` say what the texts are.
#![tactic(auto)]

mod point_row;
mod point_rows;
mod rows_by_id;
mod trimmed_change;
mod way_row;
mod way_rows;

pub use point_rows::PointRows;
pub use trimmed_change::TrimmedChange;
pub use way_rows::{WayImport, WayRows};
