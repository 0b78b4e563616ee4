//! Which tiles a geometry meets, by a table of the latitudes that bound the rows of a zoom.
//!
//! It stands on the geometries of `osm_base` and the modes of `style_read`, and knows nothing of rows or
//! files. `read_bounds` reads an operator's table, or names its first line that is not good.
//! `Bounds::meets` is the plain test of one tile, exact in whole numbers: tiles are closed boxes, so that
//! a place on a corner meets four of them. `cover` gives all tiles that this test tells, and no other, as
//! `TileRuns`: runs of columns, row by row, in work that grows with the runs and not with the tiles.
#![tactic(auto)]

mod boundary_line;
mod bounds;
mod climb;
mod covering;
mod events;
mod fault;
mod inside;
mod laws;
mod reading;
mod runs;
mod seen;
mod span;
mod sweep;
mod tile;

pub use bounds::Bounds;
pub use covering::cover;
pub use fault::BoundsFault;
pub use laws::shared_numbers;
pub use reading::read_bounds;
pub use runs::{MAX_ZOOM, Run, TileRuns};
