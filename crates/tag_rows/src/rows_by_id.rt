//! Rows by ids.
ghost use Rattle.std.specs.Prelude.{◌≡◌, IfOk, OnOk};
ghost use Rattle.std.specs.FinMap as map;
ghost use Rattle.tag_rows.specs.RowsById.{set_row, all_rows_text};

use osm_base::{Bytes, OutOfMemory};
use std::alloc::Global;
use std::collections::BTreeMap;
use std::marker::Model;

/// The row of each id that has one.
#[derive(Drop)]
pub struct RowsById {
    alloc: Global,
    rows: BTreeMap<u64, Bytes>,
    /// No id above it has a row.
    highest: u64,
}

impl Model for RowsById {
    ghost use Rattle.std.specs.Prelude.{◌≡◌, ◌<◌, ℕ, List, None};
    ghost use Rattle.std.specs.BTreeMap.{get};
    ghost use Rattle.std.specs.Coded.{coded_list, coded_ℕ};
    ghost use Rattle.std.specs.Ordering.{nat_cmp};
    ghost use Rattle.std.specs.FinMap as map;

    ghost Value = { map.FinMap nat_cmp (List ℕ) };

    ghost coded = { map.code coded_ℕ (coded_list coded_ℕ) };

    ghost view = { λ own. map.from_entries own.rows.entries };

    ghost invariant = { λ own. (id : ℕ) → own.highest < id → get nat_cmp own.rows id ≡ None };
}

impl RowsById {
    /// No row.
    pub fn new(alloc: Global) -> Self
        ensures empty { result ≡ map.empty }
    {
        Self {
            alloc,
            rows: BTreeMap::new(alloc),
            highest: 0,
        }
    }

    /// Gives an id this row, or none where it is empty.
    pub fn set(&mut self, id: u64, row: &[u8]) -> Result<(), OutOfMemory>
        ensures ok { OnOk result (self.new ≡ set_row self.old id row.now) }
    {
        if row.is_empty() {
            // Most ids come behind all that have a row, since files have them in order.
            if id > self.highest {
                return Ok(());
            }
            self.rows.remove(&id);
            return Ok(());
        }
        let row = Vec::from_slice(self.alloc, row)?;
        self.rows.insert(id, Bytes::from_vec(row))?;
        self.highest = self.highest.max(id);
        Ok(())
    }

    /// All rows, by rising id.
    pub fn text(&self) -> Result<Vec<u8>, OutOfMemory>
        ensures text { IfOk result (λ text. text.items ≡ all_rows_text self.now) }
    {
        let mut text = Vec::new(self.alloc);
        for row in self.rows.values() {
            text.extend_from_slice(row.as_slice())?;
        }
        Ok(text)
    }
}
