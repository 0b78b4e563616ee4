//! The text of all that a store holds.
ghost use Rattle.std.specs.Prelude.{◌≡◌, ◌<◌, ◌++◌, codes, encode_utf8_all, length, IfOk, OnOk};
ghost use Rattle.due_tiles.specs.TileText.{tile_text};
ghost use Rattle.run_promise.specs.Courses.{named_text, tables_text};

use due_tiles::tiles_text;
use osm_base::{OutOfMemory, Tables, Text};
use row_text::table_text;
use std::alloc::Global;
use style_read::{Style, TableDef};
use tile_cover::TileRuns;

/// The text of all tables, each behind a line with its name, and that of the due tiles from a least zoom on.
pub fn whole_text(
    alloc: Global,
    style: &Style,
    tables: &Tables,
    due: &TileRuns,
    least: u32,
) -> Result<Vec<u8>, OutOfMemory>
    ensures text { IfOk result (λ text. text.items ≡ tables_text style.now tables.now ++ codes "tiles\n" ++ tile_text due.now least) }
{
    let mut out = Vec::new(alloc);
    push_tables(alloc, &mut out, style, tables)?;
    let tiles = tiles_text(alloc, due, least)?;
    out.extend_from_slice(b"tiles\n")?;
    out.extend_from_slice(&tiles)?;
    Ok(out)
}

/// Appends the text of all tables.
fn push_tables(
    alloc: Global,
    out: &mut Vec<u8>,
    style: &Style,
    tables: &Tables,
) -> Result<(), OutOfMemory>
    ensures text { OnOk result (out.new.items ≡ out.old.items ++ tables_text style.now tables.now) }
{
    let definitions = style.tables.as_slice();
    let count = definitions.len() as u32;
    for table in 0..count {
        push_table(alloc, out, style, tables, definitions, table)?;
    }
    Ok(())
}

/// Appends the text of a table behind a line with its name.
fn push_table(
    alloc: Global,
    out: &mut Vec<u8>,
    style: &Style,
    tables: &Tables,
    definitions: &[TableDef],
    table: u32,
) -> Result<(), OutOfMemory>
    requires same { definitions.now ≡ style.now.tables }
    requires there { table < length definitions.now }
    ensures text { OnOk result (out.new.items ≡ out.old.items ++ named_text style.now tables.now table) }
{
    let text = table_text(alloc, style, tables, table)?;
    let at = table as usize;
    let definition = &definitions[at];
    push_named(out, &definition.name, &text)?;
    Ok(())
}

/// Appends a text behind a line with a name.
fn push_named(out: &mut Vec<u8>, name: &Text, text: &Text) -> Result<(), OutOfMemory>
    ensures text { OnOk result (out.new.items ≡ out.old.items ++ codes "table " ++ encode_utf8_all name.now ++ codes "\n" ++ encode_utf8_all text.now) }
{
    out.extend_from_slice(b"table ")?;
    push_text(out, name)?;
    out.extend_from_slice(b"\n")?;
    push_text(out, text)?;
    Ok(())
}

/// Appends the bytes of a text.
pub fn push_text(out: &mut Vec<u8>, text: &Text) -> Result<(), OutOfMemory>
    ensures bytes { OnOk result (out.new.items ≡ out.old.items ++ encode_utf8_all text.now) }
{
    out.extend_from_slice(text.as_str().as_bytes())?;
    Ok(())
}
