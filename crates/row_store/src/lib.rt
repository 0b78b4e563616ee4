//! The rows of objects in a store.
//!
//! On the path of the data it stands between the buckets of a store and the steps that read and write
//! the rows of tables. The rows of an object have one spelling in bytes under a style, which serves
//! reading and writing. `get`, `put` and `remove` are the calls of finite maps from objects to their
//! rows, within a transaction: what was put is got, and `BadStore` tells the page where the bucket of
//! rows begins that do not read. `load` reads the rows of all objects, those of one table or of all, into
//! tables, and `load_sorted` in the order of their spots. Who holds tables alone gives them one row, or
//! takes it, by `set_row`, and empties them by `clear`: where the two maps of rows hold tables
//! (`HoldsTables`), they hold then those with that row, or none.
#![tactic(auto)]

mod calls;
mod clearing;
mod filling;
mod loading;
mod rows;
mod sorted;
mod tables;
mod turning;

pub use calls::{get, put, remove};
pub use clearing::clear;
pub use loading::{load, load_sorted};
pub use rows::{read_rows, rows_bytes};
pub use tables::set_row;
pub use value_bytes::ValueFault as RowFault;
