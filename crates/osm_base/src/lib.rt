//! The objects of a map as all other crates see them: nodes, ways and relations with their keys,
//! places and tags, and the lists and limits that go with them.
//!
//! It stands below every other crate. A range that the data has is a fact of the type, so that
//! nobody tests it twice: an id is from 1 to 9223372036854775807, a place is on the earth. Contracts
//! see a `Text` as its characters, `Tags` as a finite map, `Items` as a list, and `Key` and `Place`
//! as plain records.
#![tactic(auto)]

mod bounds;
mod map;
mod values;

pub use bounds::laws::{key_order, named_numbers};
pub use bounds::limits::{
    LimitKind, LimitNumbers, Limits, MAX_ENTRIES, MAX_LINE_BYTES, MAX_LINES, MAX_PAGES, MAX_PENDING,
};
pub use bounds::memory::OutOfMemory;
pub use map::back::Back;
pub use map::lookup::Lookup;
pub use map::pending::PendingSet;
pub use map::tables::{Spot, Tables};
pub use values::degrees::DegreesBuffer;
pub use values::items::{
    Bytes, FileList, Ids, Items, KeyList, LineList, Places, Polygons, TryCopy,
};
pub use values::key::{Key, Kind, MAX_ID};
pub use values::object::{Entry, Member, Members, Object};
pub use values::place::{GeoBox, MAX_LAT, MAX_LON, Place};
pub use values::row::{
    Cell, Cells, Delta, Geometry, NumberedRow, Row, RowChange, RowChanges, RowList, RowLists,
    TableRow, TableRows,
};
pub use values::same::Same;
pub use values::tags::{TagList, Tags};
pub use values::text::Text;
