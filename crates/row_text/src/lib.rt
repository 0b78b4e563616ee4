//! Rows of tables as lines that PostgreSQL's `COPY` reads.
//!
//! It stands on the rows of `osm_base` and on the tables of a style. A line is the number of the row,
//! its cells and its geometry, separated by tabs and ended by a newline. What is not there is `\N`,
//! texts have the escapes of the format, and geometries stand as well-known text with their
//! coordinates in degrees. The text of a table has the lines of its rows by rising numbers.
#![tactic(auto)]

mod copy_text;
mod geometry;
mod numbered;
mod row;
mod table;

pub use copy_text::{
    BACKSLASH, BACKSPACE, FORM_FEED, NEWLINE, RETURN, TAB, VERTICAL_TAB, push_copy_text,
    shared_numbers,
};
pub use geometry::{push_degrees, push_geometry};
pub use numbered::{KeyedRow, count_rows};
pub use row::{push_row, push_text_row};
pub use table::{put_in_order, row_number, rows_by_number, table_text};
