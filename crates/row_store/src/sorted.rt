//! Rows that are gathered in any order, and rows in the order of their spots.
ghost use Rattle.std.specs.Prelude.{◌≡◌, T, reverse, IfOk, IsTrue};
ghost use Rattle.std.specs.FinMap as finite;
ghost use Rattle.osm_base.specs.map.Spots.{spot_cmp};
ghost use Rattle.row_store.specs.Places.{place_number};

use crate::filling::Filled;
use osm_base::{Kind, OutOfMemory, Row, Spot, Tables, TryCopy};
use std::alloc::Global;
use std::marker::Model;
use store_maps::SortedRows;

/// So many numbers stand for ids.
const ID_NUMBERS: u64 = 18_014_398_509_481_984;

/// Rows in any order. Of a spot the row counts that came last.
#[derive(Drop)]
pub(crate) struct Gathered {
    rows: Vec<(Spot, Row)>,
}

impl Model for Gathered {
    ghost use Rattle.std.specs.Prelude.{reverse};
    ghost use Rattle.std.specs.FinMap as finite;
    ghost use Rattle.osm_base.specs.declared.values.row.Row.{Row};
    ghost use Rattle.osm_base.specs.map.Spots.{spot_cmp};
    ghost use Rattle.osm_base.specs.contracts.map.tables.Spot as spot;
    ghost use Rattle.osm_base.specs.contracts.values.row.Row as row;

    ghost Value = { finite.FinMap spot_cmp Row };

    ghost coded = { finite.code spot.the_row.coded row.the_row.coded };

    ghost view = { λ gathered. finite.from_entries (reverse gathered.rows.items) };
}

impl Gathered {
    /// None yet.
    pub(crate) fn new(alloc: Global) -> Self
        ensures empty { result ≡ finite.empty }
    {
        Self {
            rows: Vec::new(alloc),
        }
    }

    /// The rows by rising spots.
    pub(crate) fn sorted(self, alloc: Global) -> Result<SortedRows, OutOfMemory>
        ensures same { IfOk result (λ sorted. sorted ≡ self) }
    {
        let Self { mut rows } = self;
        rows.sort_by_cached_key(|entry: &(Spot, Row)| place_of(entry.0))?;
        if are_rising(&rows) {
            return Ok(SortedRows::from_rising(rows));
        }
        by_tree(alloc, rows)
    }
}

impl Filled for Gathered {
    ghost tables = { λ own. own };

    fn put(&mut self, spot: Spot, row: Row) -> Result<(), OutOfMemory> {
        self.rows.push((spot, row))?;
        Ok(())
    }
}

// The rows that are answered are the same whatever the number: one that rises with the spots spares the tree. No style has more than 256
// tables, and no map of today an id so great that its number is cut.
/// A spot as a number: by table, then by kind, then by id.
fn place_of(spot: Spot) -> u64
    ensures { result ≡ place_number spot }
{
    let kind = match spot.key.kind {
        Kind::Node => 0,
        Kind::Way => 1,
        Kind::Relation => 2,
    };
    let front = u64::from(spot.table) % 256 * 4 + kind;
    front * ID_NUMBERS + spot.key.id % ID_NUMBERS
}

/// Whether each row stands behind the one before it.
fn are_rising(rows: &[(Spot, Row)]) -> bool
    ensures rising { IsTrue result → T (finite.is_sorted spot_cmp rows.now) }
{
    let mut last: Option<Spot> = None;
    for (spot, _) in rows {
        if let Some(last) = last {
            if !(last < *spot) {
                return false;
            }
        }
        last = Some(*spot);
    }
    true
}

// No spot comes twice out of a store, so none of its rows go this way.
/// The rows by rising spots, found by a tree.
fn by_tree(alloc: Global, rows: Vec<(Spot, Row)>) -> Result<SortedRows, OutOfMemory>
    ensures same { IfOk result (λ sorted. sorted ≡ finite.from_entries (reverse rows.items)) }
{
    let mut tables = Tables::new(alloc);
    for (spot, row) in rows {
        tables.put(spot, row)?;
    }
    copied(alloc, &tables)
}

/// The rows of tables, copied.
fn copied(alloc: Global, tables: &Tables) -> Result<SortedRows, OutOfMemory>
    ensures same { IfOk result (λ sorted. sorted ≡ tables.now) }
{
    let mut rows = Vec::new(alloc);
    for (spot, row) in tables.rows() {
        rows.push((*spot, row.copy(alloc)?))?;
    }
    Ok(SortedRows::from_rising(rows))
}
