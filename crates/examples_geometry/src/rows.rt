//! Rows written as lines.
use crate::shapes::geometry_of;
use example_table::{signed_of, unescaped};
use osm_base::{Cell, Cells, Geometry, OutOfMemory, Places, Row, Text, TryCopy};
use row_text::push_row;
use std::alloc::{AllocError, Global};

/// The line of a row, with `\t`, `\n` and `\\` for tabs, newlines and backslashes.
pub fn written(alloc: Global, given: &str) -> Result<Option<String>, OutOfMemory> {
    let Some((number, row)) = row_of_words(alloc, given)? else {
        return Ok(None);
    };
    Ok(Some(line_of(alloc, number, &row)?))
}

/// The line of a copy of a row, which was changed once the copy was made; `differs` where it is not the line that the row had.
pub fn copied(alloc: Global, given: &str) -> Result<Option<String>, OutOfMemory> {
    let Some((number, mut row)) = row_of_words(alloc, given)? else {
        return Ok(None);
    };
    let copy = row.copy(alloc)?;
    let before = line_of(alloc, number, &row)?;
    change(alloc, &mut row)?;
    let line = line_of(alloc, number, &copy)?;
    if line == before && line != line_of(alloc, number, &row)? {
        Ok(Some(line))
    } else {
        Ok(Some(String::from_str(alloc, "differs")?))
    }
}

/// Gives a row another cell behind those that it has, and a line without a place.
fn change(alloc: Global, row: &mut Row) -> Result<(), OutOfMemory> {
    row.cells.push(Cell::Int(0))?;
    row.geometry = Geometry::Line(Places::new(alloc));
    Ok(())
}

/// The number and the row of a text `NUMBER / CELLS / GEOMETRY`.
fn row_of_words(alloc: Global, given: &str) -> Result<Option<(i64, Row)>, OutOfMemory> {
    let Some((number, text)) = given.split_once('/') else {
        return Ok(None);
    };
    let Some((cells, geometry)) = text.split_once('/') else {
        return Ok(None);
    };
    let Some(number) = signed_of(number.trim()) else {
        return Ok(None);
    };
    match row_of_fields(alloc, cells, geometry)? {
        None => Ok(None),
        Some(row) => Ok(Some((number, row))),
    }
}

fn line_of(alloc: Global, number: i64, row: &Row) -> Result<String, OutOfMemory> {
    let mut out = String::new(alloc);
    push_row(&mut out, number, row)?;
    Ok(shown(alloc, &out)?)
}

fn row_of_fields(alloc: Global, cells: &str, geometry: &str) -> Result<Option<Row>, OutOfMemory> {
    let Some(cells) = cells_of(alloc, cells)? else {
        return Ok(None);
    };
    let Some(geometry) = geometry_of(alloc, geometry, '|')? else {
        return Ok(None);
    };
    Ok(Some(Row { cells, geometry }))
}

/// The cells of a text, a word each.
fn cells_of(alloc: Global, text: &str) -> Result<Option<Cells>, OutOfMemory> {
    let mut cells = Cells::new(alloc);
    for word in text.split_ascii_whitespace() {
        let Some(cell) = cell_of(alloc, word)? else {
            return Ok(None);
        };
        cells.push(cell)?;
    }
    Ok(Some(cells))
}

/// The cell of a word: `null`, `int:NUMBER` or `text:TEXT`.
fn cell_of(alloc: Global, word: &str) -> Result<Option<Cell>, OutOfMemory> {
    let Some((kind, field)) = word.split_once(':') else {
        return Ok(if word == "null" {
            Some(Cell::Null)
        } else {
            None
        });
    };
    match kind {
        "int" => Ok(int_of(field)),
        "text" => text_cell_of(alloc, field),
        _ => Ok(None),
    }
}

fn int_of(field: &str) -> Option<Cell> {
    Some(Cell::Int(signed_of(field)?))
}

fn text_cell_of(alloc: Global, field: &str) -> Result<Option<Cell>, OutOfMemory> {
    match unescaped(alloc, field)? {
        None => Ok(None),
        Some(text) => Ok(Some(Cell::Text(Text::from_string(text)))),
    }
}

/// A text as a field of a table.
fn shown(alloc: Global, text: &str) -> Result<String, AllocError> {
    let mut field = String::new(alloc);
    for character in text.chars() {
        push_shown(&mut field, character)?;
    }
    Ok(field)
}

fn push_shown(field: &mut String, character: char) -> Result<(), AllocError> {
    match character {
        '\t' => field.push_str("\\t"),
        '\n' => field.push_str("\\n"),
        '\\' => field.push_str("\\\\"),
        other => field.push(other),
    }
}
