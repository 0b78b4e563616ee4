//! What is kept of a map and asked of it: its rows, what waits to be built anew, and who lists whom.
pub mod back;
pub mod lookup;
pub mod pending;
pub mod tables;
