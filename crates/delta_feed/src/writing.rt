//! Blocks are written.
ghost use Rattle.std.specs.Prelude.{◌≡◌, ◌≤◌, ◌++◌, IfOk, IfErr, OnOk};
ghost use Rattle.std.specs.FinMap as finite;
ghost use Rattle.std.specs.Io.KnownBytes.{Appends};
ghost use Rattle.osm_base.specs.map.Spots.{spot_of};
ghost use Rattle.delta_feed.specs.Text.{changes_at, changes_by_spot, delta_text, entry_lines, full_text, rows_at, ended_lines, told_entries};
ghost use Rattle.delta_feed.specs.Writing.{IsUnwritten, Writes, told_by};

use crate::FeedWrite;
use crate::rows::{entries_of, push_entries};
use crate::written::{push_delta, push_end, push_full, push_row, push_style};
use osm_base::{Delta, OutOfMemory, RowChange, Spot, Tables, TryCopy};
use outside::{Sink, put_all};
use std::alloc::Global;
use std::collections::BTreeMap;

/// Writes a block of whole tables.
pub fn write_full<S: Sink>(
    alloc: Global,
    version: u64,
    style_bytes: &[u8],
    tables: &Tables,
    out: &mut S,
) -> Result<(), FeedWrite>
    ensures ok { OnOk result (Appends (S.view out.old).taken (S.view out.new).taken (full_text version style_bytes.now tables.now)) }
    ensures err { IfErr result (IsUnwritten (full_text version style_bytes.now tables.now) (S.view out.old) (S.view out.new)) }
    ensures later { (S.view out.old).faults ≤ (S.view out.new).faults }
{
    match full_text(alloc, version, style_bytes, tables) {
        Ok(text) => put(out, &text),
        Err(_) => Err(FeedWrite::OutOfMemory),
    }
}

/// Writes a block of what a change made of the tables, by rising spots.
pub fn write_delta<S: Sink>(alloc: Global, delta: &Delta, out: &mut S) -> Result<(), FeedWrite>
    ensures ok { OnOk result (Appends (S.view out.old).taken (S.view out.new).taken (delta_text delta.now)) }
    ensures err { IfErr result (IsUnwritten (delta_text delta.now) (S.view out.old) (S.view out.new)) }
    ensures later { (S.view out.old).faults ≤ (S.view out.new).faults }
{
    match delta_text(alloc, delta) {
        Ok(text) => put(out, &text),
        Err(_) => Err(FeedWrite::OutOfMemory),
    }
}

/// Puts a whole text.
fn put<S: Sink>(out: &mut S, text: &[u8]) -> Result<(), FeedWrite>
    ensures writes { Writes result text.now (S.view out.old) (S.view out.new) }
{
    match put_all(out, text) {
        Ok(()) => Ok(()),
        Err(_) => Err(FeedWrite::WriteFault),
    }
}

/// The text of a block of whole tables.
fn full_text(
    alloc: Global,
    version: u64,
    style_bytes: &[u8],
    tables: &Tables,
) -> Result<Vec<u8>, OutOfMemory>
    ensures text { IfOk result (λ text. text.items ≡ full_text version style_bytes.now tables.now) }
{
    let mut out = Vec::new(alloc);
    push_full(&mut out, version)?;
    push_style(&mut out, style_bytes)?;
    push_rows(alloc, &mut out, tables)?;
    push_end(&mut out)?;
    Ok(out)
}

/// The text of a block of what a change made of the tables.
fn delta_text(alloc: Global, delta: &Delta) -> Result<Vec<u8>, OutOfMemory>
    ensures text { IfOk result (λ text. text.items ≡ delta_text delta.now) }
{
    let mut out = Vec::new(alloc);
    push_delta(&mut out, delta.version)?;
    push_changes(alloc, &mut out, delta.changes.as_slice())?;
    push_end(&mut out)?;
    Ok(out)
}

/// Appends the rows of tables by rising spots.
fn push_rows(alloc: Global, out: &mut Vec<u8>, tables: &Tables) -> Result<(), OutOfMemory>
    ensures lines { OnOk result (out.new.items ≡ out.old.items ++ ended_lines (entry_lines (rows_at tables.now))) }
{
    let entries = entries_of(alloc, tables)?;
    push_entries(alloc, out, &entries)?;
    Ok(())
}

/// Appends what changes say by rising spots.
fn push_changes(alloc: Global, out: &mut Vec<u8>, changes: &[RowChange]) -> Result<(), OutOfMemory>
    ensures lines { OnOk result (out.new.items ≡ out.old.items ++ ended_lines (entry_lines (changes_at changes.now))) }
{
    let told = by_spot(alloc, changes)?;
    push_told(alloc, out, &told)
}

/// The changes by their spots; where a spot stands twice, the later one.
fn by_spot(alloc: Global, changes: &[RowChange]) -> Result<BTreeMap<Spot, RowChange>, OutOfMemory>
    ensures told { IfOk result (λ told. told_by told ≡ changes_by_spot changes.now) }
{
    let mut told = BTreeMap::new(alloc);
    for change in changes {
        tell(&mut told, change.copy(alloc)?)?;
    }
    Ok(told)
}

/// Adds a change at its spot.
fn tell(told: &mut BTreeMap<Spot, RowChange>, change: RowChange) -> Result<(), OutOfMemory>
    ensures told { OnOk result (told_by told.new ≡ finite.insert (told_by told.old) (spot_of change) change) }
{
    let spot = Spot {
        table: change.table,
        key: change.key,
    };
    told.insert(spot, change)?;
    Ok(())
}

/// Appends what such changes say.
fn push_told(
    alloc: Global,
    out: &mut Vec<u8>,
    told: &BTreeMap<Spot, RowChange>,
) -> Result<(), OutOfMemory>
    ensures lines { OnOk result (out.new.items ≡ out.old.items ++ ended_lines (entry_lines (told_entries (finite.entries (told_by told.now))))) }
{
    for (spot, change) in told {
        push_row(alloc, out, *spot, change.row.as_ref())?;
    }
    Ok(())
}
