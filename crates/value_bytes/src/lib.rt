//! Values in bytes, as a store keeps them.
//!
//! On the path of the data it stands below the buckets of a store and the values in them. Each value
//! has one spelling, and one definition of it serves reading and writing: what is read stands in the
//! bytes, what stands in the bytes is read, and bytes that spell no value are refused. `StoreMap` names
//! the maps that a store keeps its values in.
#![tactic(auto)]

mod counted;
mod fault;
mod lists;
mod members;
mod nodes;
mod numbers;
mod objects;
mod options;
mod pairs;
mod places;
mod row;
mod rows;
mod spelled;
mod store_map;
mod tags;
mod texts;
mod whole;

pub use counted::{front_counted, push_counted};
pub use fault::ValueFault;
pub use lists::{front_many, ids_in_front, push_many};
pub use nodes::NodeRecord;
pub use numbers::{front_int, front_number, push_int, push_number};
pub use objects::{object_bytes, read_object};
pub use pairs::push_both;
pub use row::{USUAL_BYTES, front_row, push_row, read_row, row_bytes};
pub use spelled::Spelled;
pub use store_map::StoreMap;
pub use texts::{front_text, push_text};
pub use whole::{bytes_of, read_whole};
