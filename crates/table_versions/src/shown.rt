//! What readers are shown, and the steps from one version of it to the next.
use crate::front::Front;
use grid_index::Grid;
use map_query::CountedTables;
use osm_base::{GeoBox, Key, RowChange};
use std::alloc::Global;

/// A version of the tables, with the numbers and the boxes of its rows and the history that made it.
#[derive(Drop)]
pub struct Shown {
    pub alloc: Global,
    pub tables: CountedTables,
    pub boxes: Grid,
    pub version: u64,
    pub front: Front,
}

/// A step towards the next version.
#[derive(Drop)]
pub enum Step {
    /// The row of an object in a table has this box from now on, or none.
    Boxed {
        table: u32,
        key: Key,
        around: Option<GeoBox>,
    },
    /// What became of a row.
    Changed {
        change: RowChange,
    },
    /// The version is whole.
    Whole {
        version: u64,
        front: Front,
    },
}
