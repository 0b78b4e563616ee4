//! The boxes of rows, in cells of the earth, so that those near an asked box are found without a look at the others.
//!
//! It stands on the spots and boxes of `osm_base` and knows nothing of rows. Contracts see a `Grid` as a finite map
//! from spots to boxes. `candidates` gives just the keys of a table whose boxes are wide or share a cell with the asked
//! one, and `find` just those whose boxes meet it, both by rising keys: what a filter of all boxes would give.
//!
//! Each box has one mark: in the smallest part of the earth that holds all its cells, where parts are single cells,
//! squares of 2 by 2, of 4 by 4 and so on. A search looks at the marks of the parts that the asked box reaches, size by
//! size. Wide boxes are marked in the one part that is all the earth.
#![tactic(auto)]

mod cells;
mod grid;
mod marks;
mod search;
mod tree;

pub use cells::{CELL_UNITS, LAST_LEVEL, MOST_CELLS, shared_numbers};
pub use grid::Grid;
