//! Tables with the numbers of their rows.
ghost use Rattle.std.specs.Prelude.{◌≡◌, length, None, is_some, IfOk, IfSome, OnErr, OnOk};
ghost use Rattle.osm_base.specs.map.Spots.{changed};
ghost use Rattle.row_text.specs.Numbered.{rows_of};
ghost use Rattle.map_query.specs.Counted.{AreCounts, AreNoted, counted_on};

use osm_base::{OutOfMemory, RowChange, Spot, Tables};
use row_text::count_rows;
use std::alloc::Global;
use std::marker::Model;
use style_read::Style;

/// The rows of all tables, with how many each table of a style has, which changes keep: a table is counted once. Contracts see
/// the rows.
#[derive(Drop)]
pub struct CountedTables {
    tables: Tables,
    /// `None`: it is counted when it is asked for.
    counts: Vec<Option<u64>>,
}

impl Model for CountedTables {
    ghost use Rattle.std.specs.FinMap as map;
    ghost use Rattle.osm_base.specs.contracts.map.tables.Spot as spot;
    ghost use Rattle.osm_base.specs.contracts.values.row.Row as row;
    ghost use Rattle.osm_base.specs.map.Spots.{TableMap};
    ghost use Rattle.map_query.specs.Counted.{AreCounts};

    ghost Value = { TableMap };

    ghost coded = { map.code spot.the_row.coded row.the_row.coded };

    ghost view = { λ own. own.tables };

    ghost invariant = { λ own. AreCounts own.tables own.counts.items };
}

impl CountedTables {
    /// These tables, counted.
    pub fn new(alloc: Global, style: &Style, tables: Tables) -> Result<Self, OutOfMemory>
        ensures same { IfOk result (λ own. own ≡ tables) }
    {
        let counts = counts_of(alloc, style, &tables)?;
        Ok(Self { tables, counts })
    }

    /// Their rows.
    pub fn tables(&self) -> &Tables
        ensures same { result.now ≡ self.now }
    {
        &self.tables
    }

    /// How many rows a table has.
    pub fn count(&self, table: u32) -> u64
        ensures count { result ≡ length (rows_of self.now table) }
    {
        match self.counts.get(table as usize) {
            Some(Some(count)) => *count,
            _ => count_rows(&self.tables, table) as u64,
        }
    }

    /// What a change says of a row is so from now on. After `Err` nothing has changed.
    pub fn apply(&mut self, change: RowChange) -> Result<(), OutOfMemory>
        ensures ok { OnOk result (self.new ≡ changed self.old change) }
        ensures err { OnErr result (self.new ≡ self.old) }
    {
        let table = change.table;
        let key = change.key;
        let was = self.tables.get(Spot { table, key }).is_some();
        let is = change.row.is_some();
        self.tables.apply(change)?;
        note(&mut self.counts, table, was, is);
        Ok(())
    }
}

/// How many rows each table of a style has.
#[tactic(auto, using(crate::proofs::KeptCounts::counts_more))]
fn counts_of(alloc: Global, style: &Style, tables: &Tables) -> Result<Vec<Option<u64>>, OutOfMemory>
    ensures counts { IfOk result (λ counts. AreCounts tables.now counts.items) }
{
    let mut counts = Vec::new(alloc);
    let count = style.tables.as_slice().len() as u32;
    for table in 0..count {
        let rows = count_rows(tables, table) as u64;
        counts.push(Some(rows))?;
    }
    Ok(counts)
}

/// Notes that an object had a row of a table or none, and has one now or none.
fn note(counts: &mut [Option<u64>], table: u32, was: bool, is: bool)
    ensures noted { AreNoted table was is counts.old counts.new }
    ensures same { length counts.new ≡ length counts.old }
{
    let place = table as usize;
    if place < counts.len() {
        counts[place] = counted_on(counts[place], was, is);
    }
}

/// The number of rows behind one change.
fn counted_on(count: Option<u64>, was: bool, is: bool) -> Option<u64>
    ensures count { IfSome result (λ after. IfSome count (λ before. after ≡ counted_on was is before)) }
    ensures none { count ≡ None → result ≡ None }
{
    let count = count?;
    match (was, is) {
        (false, true) => count.checked_add(1),
        (true, false) => Some(count.saturating_sub(1)),
        _ => Some(count),
    }
}
