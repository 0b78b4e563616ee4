//! The rows of tables, and what a change makes of them.
ghost use Rattle.std.specs.Prelude.{◌≡◌, IfOk};

use crate::{Items, Key, LineList, OutOfMemory, Place, Places, Polygons, Text, TryCopy};
use std::alloc::Global;

/// Where a row is.
#[derive(Drop)]
pub enum Geometry {
    Point(Place),
    /// The points of a way.
    Line(Places),
    /// Lines joined out of several ways.
    Lines(LineList),
    /// Polygons, the outer ring of each first.
    Area(Polygons),
}

/// What a row says in a column.
#[derive(Drop)]
pub enum Cell {
    /// Nothing.
    Null,
    Text(Text),
    Int(i64),
}

/// The cells of a row, from left to right.
pub type Cells = Items<Cell>;

/// A row of a table.
#[derive(Drop)]
pub struct Row {
    pub cells: Cells,
    pub geometry: Geometry,
}

/// A row, and the number of its table, from 0.
#[derive(Drop)]
pub struct TableRow {
    pub table: u32,
    pub row: Row,
}

/// The rows of one object, by rising numbers of their tables.
pub type TableRows = Items<TableRow>;

/// The rows of several objects, one after another.
pub type RowLists = Items<TableRows>;

/// A row, and the number that it has in its table: the id of its object, negated where a relation bounds an area.
#[derive(Drop)]
pub struct NumberedRow {
    pub number: i64,
    pub row: Row,
}

/// Rows of one table.
pub type RowList = Items<NumberedRow>;

/// What became of the row that an object has in a table.
#[derive(Drop)]
pub struct RowChange {
    pub table: u32,
    pub key: Key,
    /// The row that stands now. `None`: there is none any more.
    pub row: Option<Row>,
}

/// Changes of rows.
pub type RowChanges = Items<RowChange>;

/// What a change of the map makes of the tables.
#[derive(Drop)]
pub struct Delta {
    /// How many changes the tables have seen with it.
    pub version: u64,
    pub changes: RowChanges,
}

impl TryCopy for Geometry {
    fn copy(&self, alloc: Global) -> Result<Self, OutOfMemory> {
        match self {
            Geometry::Point(place) => Ok(Geometry::Point(*place)),
            Geometry::Line(places) => Ok(Geometry::Line(places.copy(alloc)?)),
            Geometry::Lines(lines) => Ok(Geometry::Lines(lines.copy(alloc)?)),
            Geometry::Area(polygons) => Ok(Geometry::Area(polygons.copy(alloc)?)),
        }
    }
}

impl TryCopy for Cell {
    fn copy(&self, alloc: Global) -> Result<Self, OutOfMemory> {
        match self {
            Cell::Null => Ok(Cell::Null),
            Cell::Text(text) => Ok(Cell::Text(text.copy(alloc)?)),
            Cell::Int(number) => Ok(Cell::Int(*number)),
        }
    }
}

impl TryCopy for Row {
    fn copy(&self, alloc: Global) -> Result<Self, OutOfMemory> {
        Ok(Self {
            cells: self.cells.copy(alloc)?,
            geometry: self.geometry.copy(alloc)?,
        })
    }
}

impl TryCopy for TableRow {
    fn copy(&self, alloc: Global) -> Result<Self, OutOfMemory> {
        Ok(Self {
            table: self.table,
            row: self.row.copy(alloc)?,
        })
    }
}

impl TryCopy for NumberedRow {
    fn copy(&self, alloc: Global) -> Result<Self, OutOfMemory> {
        Ok(Self {
            number: self.number,
            row: self.row.copy(alloc)?,
        })
    }
}

impl TryCopy for RowChange {
    fn copy(&self, alloc: Global) -> Result<Self, OutOfMemory> {
        let row = match &self.row {
            Some(row) => Some(row.copy(alloc)?),
            None => None,
        };
        Ok(Self {
            table: self.table,
            key: self.key,
            row,
        })
    }
}

impl TryCopy for Delta {
    fn copy(&self, alloc: Global) -> Result<Self, OutOfMemory> {
        Ok(Self {
            version: self.version,
            changes: self.changes.copy(alloc)?,
        })
    }
}
