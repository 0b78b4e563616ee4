//! The bounds of a run: its limits, want of memory, and what holds of the numbers and orders.
pub mod laws;
pub mod limits;
pub mod memory;
