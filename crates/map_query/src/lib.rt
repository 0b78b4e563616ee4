//! What a reader asks of the rows of the tables, and what the answer is.
//!
//! It stands on the tables of `osm_base`, on a style and on the order of rows of `row_text`, and knows
//! nothing of files or threads. `read_queries` reads the lines of a file of queries, or names its first
//! line that is none and why. `answer` gives a count of rows, or the rows of one table that a query asks
//! for, by rising numbers: the row of one object, or those whose boxes meet an asked box.
//!
//! Two more ways lead to the same answers, for who asks the same tables many times. `boxed_tables` puts the rows of all tables
//! in order once, each with its box, and `answer_in_order` tests the boxes of blocks of rows, and of the rows of those that
//! are near. `boxes_of` keeps the boxes of
//! all rows in a grid, which `box_in` tells how to change with a row, and `answer_by_boxes` looks at no far row. Neither counts a
//! row for a count: `CountedTables` keeps how many each table has.
#![tactic(auto)]

mod answering;
mod blocks;
mod boxed;
mod boxes;
mod counted;
mod fault;
mod in_order;
mod line;
mod near;
mod ordered;
mod query;
mod reading;
mod row_boxes;
mod words;

pub use answering::{Found, answer};
pub use boxed::BoxedRow;
pub use boxes::box_of_geometry;
pub use counted::CountedTables;
pub use fault::{QueryFault, QueryWhy};
pub use in_order::answer_in_order;
pub use near::answer_by_boxes;
pub use ordered::{TableRows, boxed_tables};
pub use query::{Queries, Query};
pub use reading::read_queries;
pub use row_boxes::{box_in, boxes_of};
