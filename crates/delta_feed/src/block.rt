//! Blocks of a feed, and what of one was read.
ghost use Rattle.std.specs.Prelude.{◌≡◌, IfOk, OnOk};
ghost use Rattle.delta_feed.specs.Stage.{block_of, no_rows, place_of, rows_place, with_change};

use crate::Place;
use osm_base::{Bytes, Delta, Items, OutOfMemory, Row, RowChange, RowChanges, Spot};
use std::alloc::Global;
use std::marker::Model;
use style_read::Style;

/// A block of a feed.
#[derive(Drop)]
pub enum Block {
    /// All tables of a version, with their style and its text.
    Full {
        version: u64,
        style_bytes: Bytes,
        style: Style,
        rows: RowChanges,
    },
    /// What one change made of the tables.
    Delta(Delta),
}

/// What the first lines of a block said.
#[derive(Drop)]
pub enum Head {
    Full {
        version: u64,
        style_bytes: Bytes,
        style: Style,
    },
    Delta {
        version: u64,
    },
}

/// The rows of a block so far.
#[derive(Drop)]
pub struct Rows {
    pub head: Head,
    pub changes: RowChanges,
    /// Where the last one stands.
    pub last: Option<Spot>,
}

/// Rows in a place of their own: what of a block was read is moved at each line, and stays small.
#[derive(Drop)]
pub struct RowsBox {
    rows: Box<Rows>,
}

impl Model for RowsBox {
    ghost use Rattle.delta_feed.specs.declared.block.Rows.{Rows};

    ghost Value = { Rows };

    ghost view = { λ own. own.rows.value };
}

/// A block that was read to its end, still where its rows lie: what a line makes of a block is moved at each line, and stays small.
#[derive(Drop)]
pub struct BlockBox {
    rows: Box<Rows>,
}

impl Model for BlockBox {
    ghost use Rattle.delta_feed.specs.Stage.{block_of};
    ghost use Rattle.delta_feed.specs.declared.block.Block.{Block};

    ghost Value = { Block };

    ghost view = { λ own. block_of own.rows.value };
}

/// What of a block was read.
#[derive(Drop)]
pub enum Stage {
    /// Nothing: no block has begun.
    Between,
    /// The line that begins whole tables.
    Opened {
        version: u64,
    },
    /// The first bytes of their style, which go on in the next line.
    Style {
        version: u64,
        bytes: Bytes,
    },
    /// Rows.
    Rows(RowsBox),
    /// Rows, and the first bytes of one at a spot, which go on in the next line.
    Row {
        rows: RowsBox,
        spot: Spot,
        bytes: Bytes,
    },
}

impl Stage {
    /// Where the next line stands.
    pub(crate) fn place(&self) -> Place
        ensures place { result ≡ place_of self.now }
    {
        match self {
            Stage::Between => Place::Between,
            Stage::Opened { .. } => Place::Opened,
            Stage::Rows(rows) => rows.as_rows().head.place(),
            Stage::Style { .. } | Stage::Row { .. } => Place::Begun,
        }
    }
}

impl Head {
    /// Where the rows stand.
    fn place(&self) -> Place
        ensures place { result ≡ rows_place self.now }
    {
        match self {
            Head::Full { .. } => Place::Full,
            Head::Delta { .. } => Place::Delta,
        }
    }
}

impl Rows {
    /// The block that they make.
    fn block(self) -> Block
        ensures block { result ≡ block_of self }
    {
        let Rows {
            head,
            changes,
            last: _,
        } = self;
        match head {
            Head::Full {
                version,
                style_bytes,
                style,
            } => Block::Full {
                version,
                style_bytes,
                style,
                rows: changes,
            },
            Head::Delta { version } => Block::Delta(Delta { version, changes }),
        }
    }
}

impl RowsBox {
    /// None yet.
    pub(crate) fn new(alloc: Global, head: Head) -> Result<Self, OutOfMemory>
        ensures rows { IfOk result (λ rows. rows ≡ no_rows head) }
    {
        let rows = Rows {
            head,
            changes: Items::new(alloc),
            last: None,
        };
        Ok(Self {
            rows: Box::new(alloc, rows)?,
        })
    }

    /// The rows where they lie.
    pub(crate) fn as_rows(&self) -> &Rows
        ensures rows { result.now ≡ self.now }
    {
        &self.rows
    }

    /// Takes a row, or none, at a spot.
    pub(crate) fn put(&mut self, spot: Spot, row: Option<Row>) -> Result<(), OutOfMemory>
        ensures rows { OnOk result (self.new ≡ with_change self.old spot row) }
    {
        self.rows.changes.push(RowChange {
            table: spot.table,
            key: spot.key,
            row,
        })?;
        self.rows.last = Some(spot);
        Ok(())
    }

    /// No row comes any more.
    pub(crate) fn end(self) -> BlockBox
        ensures block { result ≡ block_of self }
    {
        BlockBox { rows: self.rows }
    }
}

impl BlockBox {
    /// The block, taken out.
    pub(crate) fn into_block(self) -> Block
        ensures block { result ≡ self }
    {
        Box::into_inner(self.rows).block()
    }
}
