//! The rows of the points, while files are read.
ghost use Rattle.std.specs.Prelude.{◌≡◌, IfOk, OnOk};
ghost use Rattle.std.specs.Str.{chars};
ghost use Rattle.tag_rows.specs.PointRows.{no_rows, with_row, rows_text};
ghost use Rattle.tag_rows.specs.Points.{tag_row};

use crate::point_row::push_point;
use crate::rows_by_id::RowsById;
use object_fold::Keeper;
use osm_base::{Entry, Key, Kind, OutOfMemory};
use std::alloc::Global;
use std::marker::Model;

/// The row of each node that has one, by the node's id.
#[derive(Drop)]
pub struct PointRows<'k> {
    key: &'k str,
    rows: RowsById,
    scratch: String,
}

impl<'k> Model for PointRows<'k> {
    ghost use Rattle.std.specs.Str.{chars};
    ghost use Rattle.tag_rows.specs.PointRows.{Rows, rows_code};

    ghost Value = { Rows };

    ghost coded = { rows_code };

    ghost view = { λ points. record { key = chars points.key.now; rows = points.rows } };
}

impl<'k> PointRows<'k> {
    /// No row yet.
    pub fn new(alloc: Global, key: &'k str) -> Self
        ensures start { result ≡ no_rows (chars key.now) }
    {
        Self {
            key,
            rows: RowsById::new(alloc),
            scratch: String::new(alloc),
        }
    }

    /// Keeps the row of a node, or none where it has none.
    fn keep_node(&mut self, entry: &Entry) -> Result<(), OutOfMemory>
        ensures ok { OnOk result (self.new ≡ with_row self.old entry.now.key.id (tag_row self.old.key entry.now)) }
    {
        self.scratch.clear();
        push_point(&mut self.scratch, self.key, entry)?;
        self.rows.set(entry.key.id, self.scratch.as_bytes())?;
        Ok(())
    }

    /// All rows, in order.
    pub fn text(&self) -> Result<Vec<u8>, OutOfMemory>
        ensures text { IfOk result (λ text. text.items ≡ rows_text self.now) }
    {
        self.rows.text()
    }
}

impl Keeper for PointRows<'_> {
    ghost use Rattle.tag_rows.specs.PointRows.{after_entry};

    ghost takes = { λ _ _. Unit {0} };

    ghost after = { after_entry };

    fn keep(&mut self, entry: Entry) -> Result<(), OutOfMemory> {
        match entry.key.kind {
            Kind::Node => self.keep_node(&entry),
            Kind::Way | Kind::Relation => Ok(()),
        }
    }

    fn keep_all(
        &mut self,
        last: Option<Key>,
        entries: Vec<Entry>,
    ) -> Result<Vec<Entry>, OutOfMemory> {
        for entry in &entries {
            if entry.key.kind == Kind::Node {
                self.keep_node(entry)?;
            }
        }
        Ok(entries)
    }
}
