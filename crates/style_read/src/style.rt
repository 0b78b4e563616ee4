//! A style, as all that make or read rows see it.
ghost use Rattle.std.specs.Prelude.{◌≡◌, ◌≤◌, length};
ghost use Rattle.std.specs.List.{position};
ghost use Rattle.style_read.specs.Style.{StyleOf, IsStyle, is_called, table_of};

use osm_base::{Items, OutOfMemory, Text, TryCopy};
use std::alloc::Global;
use std::marker::Model;

/// The most selections that a style may have.
pub const MAX_SELECTIONS: usize = 64;

/// The most tables that a style may have.
pub const MAX_TABLES: usize = 256;

/// The most columns that a table may have.
pub const MAX_COLUMNS: usize = 256;

/// What has to hold of an object.
#[derive(Drop)]
pub enum Condition {
    /// It has a tag with this key.
    Has(Text),
    /// It has no tag with this key.
    Lacks(Text),
    /// Its tag with this key has this value.
    Is { key: Text, value: Text },
    /// It has no tag with this key, or one with another value.
    Isnt { key: Text, value: Text },
    /// It is a member of a relation that meets the selection with this number, counted from 0.
    Selected(u32),
}

/// Conditions, in the order in which they are written.
pub type Conditions = Items<Condition>;

/// Which relations hand a value to their members.
#[derive(Drop)]
pub struct Selection {
    pub name: Text,
    /// All of them hold of a relation that meets the selection; each is on tags.
    pub conditions: Conditions,
    /// The key of the tag whose value is handed on.
    pub take: Text,
}

/// Selections by their numbers, from 0.
pub type Selections = Items<Selection>;

/// Of what objects a table has rows.
#[derive(Clone, Copy, PartialEq, Eq)]
pub enum Source {
    Node,
    Way,
    /// Ways and relations that bound an area.
    Area,
    Relation,
}

/// Which tiles a changed area makes due.
#[derive(Clone, Copy, PartialEq, Eq)]
pub enum Mode {
    /// Those that its boundary meets.
    Boundary,
    /// Those, and those within it.
    Full,
}

/// From what the cells of a column are made.
#[derive(Drop)]
pub enum Origin {
    /// The value of the tag with this key.
    Tag(Text),
    /// All tags, as a JSON object.
    AllTags,
    /// The values that the selection with this number hands on, counted from 0.
    Selected(u32),
}

/// A column of a table.
#[derive(Drop)]
pub struct Column {
    pub name: Text,
    pub origin: Origin,
    /// The value is kept as a whole number.
    pub int: bool,
}

/// Columns, from left to right.
pub type Columns = Items<Column>;

/// A table.
#[derive(Drop)]
pub struct TableDef {
    pub name: Text,
    pub source: Source,
    /// All of them hold of an object that has a row.
    pub all_of: Conditions,
    /// One of them holds of an object that has a row, unless there are none.
    pub one_of: Conditions,
    pub mode: Mode,
    pub columns: Columns,
}

/// Tables by their numbers, from 0.
pub type TableDefs = Items<TableDef>;

/// A style. Each number of a selection in it names one of its selections.
#[derive(Drop)]
pub struct Style {
    pub selections: Selections,
    pub tables: TableDefs,
}

impl Model for Style {
    ghost Value = { StyleOf };

    ghost view = { λ style. record { selections = style.selections; tables = style.tables } };

    ghost inverse = { λ style. record { selections = style.selections; tables = style.tables } };

    ghost invariant = { λ style. IsStyle style.selections style.tables };
}

impl Style {
    /// The number of the table with this name. `None`: there is none.
    pub fn table_named(&self, name: &str) -> Option<u32>
        ensures table { result ≡ table_of self.now.tables name.now }
    {
        table_of(self.tables.as_slice(), name)
    }
}

/// The number of the first table with this name.
fn table_of(tables: &[TableDef], name: &str) -> Option<u32>
    requires { length tables.now ≤ MAX_TABLES }
    ensures table { result ≡ table_of tables.now name.now }
{
    let place = table_place(tables, name)?;
    Some(place as u32)
}

/// The place of the first table with this name.
fn table_place(tables: &[TableDef], name: &str) -> Option<usize>
    ensures place { result ≡ position (λ table. is_called name.now table) tables.now }
{
    tables.iter().position(|table| is_called(table, name))
}

/// Whether a table has this name.
fn is_called(table: &TableDef, name: &str) -> bool
    ensures called { result ≡ is_called name.now table.now }
{
    table.name.is(name)
}

impl TryCopy for Condition {
    fn copy(&self, alloc: Global) -> Result<Self, OutOfMemory> {
        match self {
            Condition::Has(key) => Ok(Condition::Has(key.copy(alloc)?)),
            Condition::Lacks(key) => Ok(Condition::Lacks(key.copy(alloc)?)),
            Condition::Is { key, value } => Ok(Condition::Is {
                key: key.copy(alloc)?,
                value: value.copy(alloc)?,
            }),
            Condition::Isnt { key, value } => Ok(Condition::Isnt {
                key: key.copy(alloc)?,
                value: value.copy(alloc)?,
            }),
            Condition::Selected(number) => Ok(Condition::Selected(*number)),
        }
    }
}

impl TryCopy for Selection {
    fn copy(&self, alloc: Global) -> Result<Self, OutOfMemory> {
        Ok(Self {
            name: self.name.copy(alloc)?,
            conditions: self.conditions.copy(alloc)?,
            take: self.take.copy(alloc)?,
        })
    }
}

impl TryCopy for Origin {
    fn copy(&self, alloc: Global) -> Result<Self, OutOfMemory> {
        match self {
            Origin::Tag(key) => Ok(Origin::Tag(key.copy(alloc)?)),
            Origin::AllTags => Ok(Origin::AllTags),
            Origin::Selected(number) => Ok(Origin::Selected(*number)),
        }
    }
}

impl TryCopy for Column {
    fn copy(&self, alloc: Global) -> Result<Self, OutOfMemory> {
        Ok(Self {
            name: self.name.copy(alloc)?,
            origin: self.origin.copy(alloc)?,
            int: self.int,
        })
    }
}

impl TryCopy for TableDef {
    fn copy(&self, alloc: Global) -> Result<Self, OutOfMemory> {
        Ok(Self {
            name: self.name.copy(alloc)?,
            source: self.source,
            all_of: self.all_of.copy(alloc)?,
            one_of: self.one_of.copy(alloc)?,
            mode: self.mode,
            columns: self.columns.copy(alloc)?,
        })
    }
}

impl TryCopy for Style {
    fn copy(&self, alloc: Global) -> Result<Self, OutOfMemory> {
        Ok(Self {
            selections: self.selections.copy(alloc)?,
            tables: self.tables.copy(alloc)?,
        })
    }
}
