//! The text of a table.
ghost use Rattle.std.specs.Prelude.{◌≡◌, ◌++◌, encode_utf8_all, map, IfOk, OnOk, T};
ghost use Rattle.std.specs.FinMap as finite;
ghost use Rattle.std.specs.FinMap.{is_sorted};
ghost use Rattle.std.specs.String.{string_bytes};
ghost use Rattle.osm_base.specs.values.KeyOrder.{key_cmp};
ghost use Rattle.row_text.specs.Numbered.{by_number, rows_by_number, seen};
ghost use Rattle.row_text.specs.Table.{has_areas, is_area, lines_of, row_number, table_text};

use crate::numbered::{self, KeyedRow, rows_in_order};
use crate::row::{push_row, signed_id};
use osm_base::{Key, OutOfMemory, Tables, Text};
use std::alloc::Global;
use style_read::{Source, Style};

/// The number of the row that an object has in a table: its id, negated for a relation in a table of areas.
pub fn row_number(style: &Style, table: u32, key: Key) -> i64
    ensures number { result ≡ row_number style.now table key }
{
    signed_id(has_areas(style, table), key)
}

/// The rows of a table by rising numbers; where two have one number, by rising keys.
pub fn rows_by_number<'t>(
    alloc: Global,
    style: &Style,
    tables: &'t Tables,
    table: u32,
) -> Result<Vec<KeyedRow<'t>>, OutOfMemory>
    ensures rows { IfOk result (λ rows. map seen rows.items ≡ rows_by_number (has_areas style.now table) tables.now table) }
{
    rows_in_order(alloc, has_areas(style, table), tables, table)
}

/// Puts rows of a table that stand by rising keys into the order of their numbers.
pub fn put_in_order(style: &Style, table: u32, rows: &mut [KeyedRow])
    requires rising { T (is_sorted key_cmp (map seen rows.old)) }
    ensures order { map seen rows.new ≡ finite.entries (finite.from_entries {R = by_number (has_areas style.now table)} (map seen rows.old)) }
{
    numbered::put_in_order(has_areas(style, table), rows);
}

/// The lines of the rows of a table, by rising numbers.
pub fn table_text(
    alloc: Global,
    style: &Style,
    tables: &Tables,
    table: u32,
) -> Result<Text, OutOfMemory>
    ensures text { IfOk result (λ text. encode_utf8_all text ≡ table_text style.now tables.now table) }
{
    let of_areas = has_areas(style, table);
    let rows = rows_in_order(alloc, of_areas, tables, table)?;
    let mut out = String::new(alloc);
    push_rows(&mut out, of_areas, &rows)?;
    let _text = out.as_str();
    Ok(Text::from_string(out))
}

/// Appends the lines of rows.
fn push_rows(out: &mut String, of_areas: bool, rows: &[KeyedRow]) -> Result<(), OutOfMemory>
    ensures lines { OnOk result (string_bytes out.new ≡ string_bytes out.old ++ lines_of of_areas (map seen rows.now)) }
{
    for own in rows {
        push_row(out, signed_id(of_areas, own.key), own.row)?;
    }
    Ok(())
}

/// Whether a table is one of areas.
fn has_areas(style: &Style, table: u32) -> bool
    ensures areas { result ≡ has_areas style.now table }
{
    match style.tables.as_slice().get(table as usize) {
        Some(def) => is_area(def.source),
        None => false,
    }
}

/// Whether a source is that of areas.
fn is_area(source: Source) -> bool
    ensures area { result ≡ is_area source }
{
    matches!(source, Source::Area)
}
