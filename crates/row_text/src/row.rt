//! The line of a row, and its number.
ghost use Rattle.std.specs.Prelude.{◌≡◌, ◌++◌, pos, flat_map, codes, encode_utf8_all, OnOk};
ghost use Rattle.std.specs.Fmt.{signed_decimal};
ghost use Rattle.std.specs.Str.{chars};
ghost use Rattle.std.specs.String.{string_bytes};
ghost use Rattle.row_text.specs.CopyText.{copy_text};
ghost use Rattle.row_text.specs.Row.{cell_text, row_line, signed_number, text_row};

use crate::copy_text::push_copy_text;
use crate::geometry::push_geometry;
use osm_base::{Cell, Geometry, Key, Kind, OutOfMemory, Row};

/// The number of the row of an object, in a table of areas or in another one.
pub(crate) fn signed_id(of_areas: bool, key: Key) -> i64
    ensures number { result ≡ signed_number of_areas key }
{
    let id = key.id as i64;
    match key.kind {
        Kind::Relation if of_areas => -id,
        _ => id,
    }
}

/// Appends the line of a row with this number.
#[tactic(auto, unfolding(crate::specs::Row::row_line))]
pub fn push_row(out: &mut String, number: i64, row: &Row) -> Result<(), OutOfMemory>
    ensures line { OnOk result (string_bytes out.new ≡ string_bytes out.old ++ row_line number row.now) }
{
    push_number(out, number)?;
    push_cells(out, row.cells.as_slice())?;
    out.push_str("\t")?;
    push_geometry(out, &row.geometry)?;
    out.push_str("\n")?;
    Ok(())
}

/// Appends the line of a row whose number is an id and whose one cell is a text.
#[tactic(auto, unfolding(crate::specs::Row::row_line))]
pub fn push_text_row(
    out: &mut String,
    id: u64,
    text: &str,
    geometry: &Geometry,
) -> Result<(), OutOfMemory>
    ensures line { OnOk result (string_bytes out.new ≡ string_bytes out.old ++ row_line (pos id) (text_row (chars text.now) geometry.now)) }
{
    let mut digits = itoa::Buffer::new();
    out.push_str(digits.format(id))?;
    out.push_str("\t")?;
    push_text(out, text)?;
    out.push_str("\t")?;
    push_geometry(out, geometry)?;
    out.push_str("\n")?;
    Ok(())
}

/// Appends cells, each behind a tab.
fn push_cells(out: &mut String, cells: &[Cell]) -> Result<(), OutOfMemory>
    ensures text { OnOk result (string_bytes out.new ≡ string_bytes out.old ++ flat_map (λ cell. codes "\t" ++ cell_text cell) cells.now) }
{
    for cell in cells {
        out.push_str("\t")?;
        push_cell(out, cell)?;
    }
    Ok(())
}

/// Appends what a cell says.
fn push_cell(out: &mut String, cell: &Cell) -> Result<(), OutOfMemory>
    ensures text { OnOk result (string_bytes out.new ≡ string_bytes out.old ++ cell_text cell.now) }
{
    match cell {
        Cell::Null => push_null(out),
        Cell::Text(text) => push_text(out, text.as_str()),
        Cell::Int(number) => push_number(out, *number),
    }
}

/// Appends what stands for nothing.
fn push_null(out: &mut String) -> Result<(), OutOfMemory>
    ensures text { OnOk result (string_bytes out.new ≡ string_bytes out.old ++ codes "\\N") }
{
    out.push_str("\\N")?;
    Ok(())
}

/// Appends a text with its escapes.
fn push_text(out: &mut String, text: &str) -> Result<(), OutOfMemory>
    ensures text { OnOk result (string_bytes out.new ≡ string_bytes out.old ++ copy_text (encode_utf8_all (chars text.now))) }
{
    push_copy_text(out, text)
}

/// Appends a number.
fn push_number(out: &mut String, number: i64) -> Result<(), OutOfMemory>
    ensures text { OnOk result (string_bytes out.new ≡ string_bytes out.old ++ signed_decimal number) }
{
    let mut digits = itoa::Buffer::new();
    out.push_str(digits.format(number))?;
    Ok(())
}
