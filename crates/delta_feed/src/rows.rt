//! The rows of tables, as they are written.
ghost use Rattle.std.specs.Prelude.{◌≡◌, ◌++◌, IfOk, OnOk};
ghost use Rattle.osm_base.specs.map.SpotTree.{rows_in};
ghost use Rattle.delta_feed.specs.Text.{entry_lines, rows_at, table_entries, ended_lines};
ghost use Rattle.delta_feed.specs.Writing.{lent_entries};

use crate::written::push_row;
use osm_base::{OutOfMemory, Row, Spot, Tables};
use std::alloc::Global;
use std::collections::BTreeMap;

/// The rows of tables with their spots, by rising spots.
pub(crate) fn entries_of(alloc: Global, tables: &Tables) -> Result<Vec<(&Spot, &Row)>, OutOfMemory>
    ensures entries { IfOk result (λ entries. lent_entries entries.items ≡ rows_at tables.now) }
{
    tree_entries(alloc, tables.rows())
}

/// The rows of a tree with their spots.
fn tree_entries(
    alloc: Global,
    rows: &BTreeMap<Spot, Row>,
) -> Result<Vec<(&Spot, &Row)>, OutOfMemory>
    ensures entries { IfOk result (λ entries. lent_entries entries.items ≡ rows_at (rows_in rows.now)) }
{
    let mut entries = Vec::new(alloc);
    for (spot, row) in rows {
        entries.push((spot, row))?;
    }
    Ok(entries)
}

/// Appends rows that are lent, one behind another.
pub(crate) fn push_entries(
    alloc: Global,
    out: &mut Vec<u8>,
    entries: &[(&Spot, &Row)],
) -> Result<(), OutOfMemory>
    ensures lines { OnOk result (out.new.items ≡ out.old.items ++ ended_lines (entry_lines (lent_entries entries.now))) }
{
    for (spot, row) in entries {
        push_row(alloc, out, **spot, Some(*row))?;
    }
    Ok(())
}

/// Appends rows, one behind another.
pub(crate) fn push_own_entries(
    alloc: Global,
    out: &mut Vec<u8>,
    entries: &[(Spot, Row)],
) -> Result<(), OutOfMemory>
    ensures lines { OnOk result (out.new.items ≡ out.old.items ++ ended_lines (entry_lines (table_entries entries.now))) }
{
    for (spot, row) in entries {
        push_row(alloc, out, *spot, Some(row))?;
    }
    Ok(())
}
