//! The rows of all tables, by table and by the key of the object.
ghost use Rattle.std.specs.Prelude.{◌≡◌, OnOk, OnErr, IfOk};
ghost use Rattle.std.specs.FinMap as map;
ghost use Rattle.std.specs.Option.{option_copied};
ghost use Rattle.osm_base.specs.map.SpotTree.{rows_in};
ghost use Rattle.osm_base.specs.map.Spots.{SpotOf, changed};

use crate::{Key, OutOfMemory, Row, RowChange, TryCopy};
use std::alloc::Global;
use std::collections::BTreeMap;
use std::marker::Model;

/// Where a row stands: the number of its table, from 0, and the key of its object. They are ordered by table and then
/// by key.
#[derive(Clone, Copy, PartialEq, Eq, PartialOrd, Ord)]
pub struct Spot {
    pub table: u32,
    pub key: Key,
}

impl Model for Spot {
    ghost use Rattle.osm_base.specs.map.Spots.{SpotOf};

    ghost Value = { SpotOf };

    ghost view = { λ spot. record { table = spot.table; key = spot.key } };

    ghost inverse = { λ spot. record { table = spot.table; key = spot.key } };
}

/// The rows of all tables.
#[derive(Drop)]
pub struct Tables {
    rows: BTreeMap<Spot, Row>,
}

impl Model for Tables {
    ghost use Rattle.std.specs.FinMap as map;
    ghost use Rattle.osm_base.specs.declared.values.row.Row.{Row};
    ghost use Rattle.osm_base.specs.map.Spots.{spot_cmp};
    ghost use Rattle.osm_base.specs.map.SpotTree.{rows_in};
    ghost use Rattle.osm_base.specs.contracts.map.tables.Spot as spot;
    ghost use Rattle.osm_base.specs.contracts.values.row.Row as row;

    ghost Value = { map.FinMap spot_cmp Row };

    ghost coded = { map.code spot.the_row.coded row.the_row.coded };

    ghost view = { λ tables. rows_in tables.rows };
}

impl Tables {
    /// No row.
    pub fn new(alloc: Global) -> Self
        ensures empty { result ≡ map.empty }
    {
        Self {
            rows: BTreeMap::new(alloc),
        }
    }

    /// The row that an object has in a table.
    pub fn get(&self, spot: Spot) -> Option<&Row>
        ensures row { option_copied result ≡ map.get self.now spot }
    {
        self.rows.get(&spot)
    }

    /// The rows by their spots, in order.
    pub fn rows(&self) -> &BTreeMap<Spot, Row>
        ensures rows { rows_in result.now ≡ self.now }
    {
        &self.rows
    }

    /// What a change says of a row is so from now on. After `Err` nothing has changed.
    pub fn apply(&mut self, change: RowChange) -> Result<(), OutOfMemory>
        ensures ok { OnOk result (self.new ≡ changed self.old change) }
        ensures err { OnErr result (self.new ≡ self.old) }
    {
        let RowChange { table, key, row } = change;
        let spot = Spot { table, key };
        match row {
            Some(row) => set_row(&mut self.rows, spot, row),
            None => {
                remove_row(&mut self.rows, spot);
                Ok(())
            }
        }
    }
}

/// Gives a spot this row in the tree.
fn set_row(rows: &mut BTreeMap<Spot, Row>, spot: Spot, row: Row) -> Result<(), OutOfMemory>
    ensures ok { OnOk result (rows_in rows.new ≡ map.insert (rows_in rows.old) spot row) }
    ensures err { OnErr result (rows_in rows.new ≡ rows_in rows.old) }
{
    rows.insert(spot, row)?;
    Ok(())
}

/// Takes the row of a spot out of the tree, if it has one.
fn remove_row(rows: &mut BTreeMap<Spot, Row>, spot: Spot)
    ensures { rows_in rows.new ≡ map.remove (rows_in rows.old) spot }
{
    rows.remove(&spot);
}

/// Gives a spot a row that is equal to this one.
fn copy_row(
    rows: &mut BTreeMap<Spot, Row>,
    spot: Spot,
    row: &Row,
    alloc: Global,
) -> Result<(), OutOfMemory>
    ensures ok { OnOk result (rows_in rows.new ≡ map.insert (rows_in rows.old) spot row.now) }
{
    set_row(rows, spot, row.copy(alloc)?)
}

/// A tree of equal rows.
fn copied_rows(
    rows: &BTreeMap<Spot, Row>,
    alloc: Global,
) -> Result<BTreeMap<Spot, Row>, OutOfMemory>
    ensures equal { IfOk result (λ copy. rows_in copy ≡ rows_in rows.now) }
{
    let mut copy = BTreeMap::new(alloc);
    for (spot, row) in rows.iter().rev() {
        copy_row(&mut copy, *spot, row, alloc)?;
    }
    Ok(copy)
}

impl TryCopy for Tables {
    fn copy(&self, alloc: Global) -> Result<Self, OutOfMemory> {
        Ok(Self {
            rows: copied_rows(&self.rows, alloc)?,
        })
    }
}
