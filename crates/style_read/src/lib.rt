//! The style of a map: which tables there are, and which objects become their rows.
//!
//! An operator writes it as a TOML document. `read_style` reads the bytes of one, or tells the first of
//! ten causes that stands against it, and in which part: the top, a selection or a table. Import, append
//! and the readers stand on the `Style` that it gives. Two facts hold of every style, so that nobody tests
//! them twice: each number of a selection names one that there is, and the conditions of a selection are
//! conditions on tags.
#![tactic(auto)]

mod column;
mod columns;
mod condition;
mod document;
mod fault;
mod laws;
mod name;
mod part;
mod reading;
mod selections;
mod style;
mod table_defs;
mod tables;
mod text;
mod top;
mod words;

pub use fault::{StyleFault, StylePart, StyleWhy};
pub use laws::shared_numbers;
pub use reading::read_style;
pub use style::{
    Column, Columns, Condition, Conditions, MAX_COLUMNS, MAX_SELECTIONS, MAX_TABLES, Mode, Origin,
    Selection, Selections, Source, Style, TableDef, TableDefs,
};
