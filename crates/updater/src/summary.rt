//! The text of how much a store holds.
ghost use Rattle.std.specs.Prelude.{◌≡◌, ◌<◌, ◌≤◌, ◌++◌, codes, encode_utf8_all, length, IfOk, OnOk};
ghost use Rattle.std.specs.Fmt.{decimal};
ghost use Rattle.tile_cover.specs.Runs.{IsRun, IsTileSet};
ghost use Rattle.run_promise.specs.Courses.{columns_of, count_line, counts_text, tiles_in};

use crate::whole_text::push_text;
use osm_base::{OutOfMemory, Tables, Text};
use row_text::count_rows;
use std::alloc::Global;
use style_read::{Style, TableDef};
use tile_cover::{Run, TileRuns};

/// A line for each table with its name and how many rows it has, and one that tells how many tiles are due.
pub fn summary_text(
    alloc: Global,
    style: &Style,
    tables: &Tables,
    due: &TileRuns,
) -> Result<Vec<u8>, OutOfMemory>
    ensures text { IfOk result (λ text. text.items ≡ counts_text style.now tables.now ++ codes "tiles " ++ decimal (tiles_in due.now) ++ codes "\n") }
    ensures set { OnOk result (IsTileSet due.now) }
{
    let tiles = count_tiles(due.as_slice());
    let mut out = Vec::new(alloc);
    push_counts(&mut out, style, tables)?;
    out.extend_from_slice(b"tiles ")?;
    push_number(&mut out, tiles)?;
    out.extend_from_slice(b"\n")?;
    Ok(out)
}

/// Appends the lines of all tables.
fn push_counts(out: &mut Vec<u8>, style: &Style, tables: &Tables) -> Result<(), OutOfMemory>
    ensures text { OnOk result (out.new.items ≡ out.old.items ++ counts_text style.now tables.now) }
{
    let definitions = style.tables.as_slice();
    let count = definitions.len() as u32;
    for table in 0..count {
        push_count(out, tables, definitions, table)?;
    }
    Ok(())
}

/// Appends the line of a table.
fn push_count(
    out: &mut Vec<u8>,
    tables: &Tables,
    definitions: &[TableDef],
    table: u32,
) -> Result<(), OutOfMemory>
    requires there { table < length definitions.now }
    ensures text { OnOk result (out.new.items ≡ out.old.items ++ count_line definitions.now tables.now table) }
{
    let rows = count_rows(tables, table) as u64;
    let at = table as usize;
    let definition = &definitions[at];
    push_line(out, &definition.name, rows)?;
    Ok(())
}

/// Appends a line with a name and a number.
fn push_line(out: &mut Vec<u8>, name: &Text, number: u64) -> Result<(), OutOfMemory>
    ensures text { OnOk result (out.new.items ≡ out.old.items ++ encode_utf8_all name.now ++ codes " " ++ decimal number ++ codes "\n") }
{
    push_text(out, name)?;
    out.extend_from_slice(b" ")?;
    push_number(out, number)?;
    out.extend_from_slice(b"\n")?;
    Ok(())
}

/// Appends the digits of a number.
fn push_number(out: &mut Vec<u8>, number: u64) -> Result<(), OutOfMemory>
    ensures digits { OnOk result (out.new.items ≡ out.old.items ++ decimal number) }
{
    let mut buffer = itoa::Buffer::new();
    out.extend_from_slice(buffer.format(number).as_bytes())?;
    Ok(())
}

/// How many tiles the runs of a set have.
fn count_tiles(runs: &[Run]) -> u64
    requires set { IsTileSet runs.now }
    ensures tiles { result ≡ tiles_in runs.now }
{
    let mut tiles = 0;
    for run in runs {
        tiles += columns_of(*run);
    }
    tiles
}

/// How many tiles a run has.
fn columns_of(run: Run) -> u64
    requires run { IsRun run }
    ensures columns { result ≡ columns_of run }
    ensures few { result ≤ 65536 }
{
    u64::from(run.last - run.first) + 1
}
