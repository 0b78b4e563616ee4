//! What does not change while rows are built.

use crate::Workers;
use std::alloc::Global;

/// The threads, the allocator, how many workers build, and the gate that they pass.
#[derive(Drop)]
pub struct Hands<'a, R, G> {
    pub rt: &'a R,
    pub alloc: Global,
    pub workers: Workers,
    pub gate: &'a G,
}
