//! The cells of a row.
ghost use Rattle.std.specs.Prelude.{◌≡◌, map, true, IfOk};
ghost use Rattle.std.specs.Str.{chars};
ghost use Rattle.osm_base.specs.declared.values.row.Cell.TheVariants as cells;
ghost use Rattle.row_rules.specs.Cell as spec;
ghost use Rattle.row_rules.specs.Material.{selecting_among};

use crate::number::whole_number;
use crate::relations::Relations;
use crate::tags_text::tags_text;
use crate::values::selected_cell;
use osm_base::{Cell, Cells, Lookup, OutOfMemory, Tags, Text};
use std::alloc::Global;
use style_read::{Column, Origin};

/// The cell of a number.
fn int_cell(number: i64) -> Cell
    ensures cell { result ≡ cells.Int number }
{
    Cell::Int(number)
}

/// The cell of a tag's value as a whole number.
fn number_cell(value: &str) -> Cell
    ensures cell { result ≡ spec.value_cell true (chars value.now) }
{
    match whole_number(value.as_bytes()) {
        Some(number) => int_cell(number),
        None => Cell::Null,
    }
}

/// The cell of a tag's value, as a text or as a whole number.
fn value_cell(alloc: Global, int: bool, value: &str) -> Result<Cell, OutOfMemory>
    ensures cell { IfOk result (λ cell. cell ≡ spec.value_cell int (chars value.now)) }
{
    if int {
        return Ok(number_cell(value));
    }
    Ok(Cell::Text(Text::from_str(alloc, value)?))
}

/// The cell of a column for an object with these tags.
fn cell_of<L: Lookup>(
    alloc: Global,
    column: &Column,
    tags: &Tags,
    relations: &Relations<L>,
) -> Result<Cell, OutOfMemory>
    ensures cell { IfOk result (λ cell. cell ≡ spec.cell_of relations.now.selections.now
        (selecting_among relations.now.selections.now (L.known relations.now.lookup.now).object relations.now.ids.now) tags.now column.now) }
{
    match &column.origin {
        Origin::Tag(key) => match tags.get(key.as_str()) {
            Some(value) => Ok(value_cell(alloc, column.int, value)?),
            None => Ok(Cell::Null),
        },
        Origin::AllTags => Ok(Cell::Text(Text::from_string(tags_text(alloc, tags)?))),
        Origin::Selected(number) => Ok(selected_cell(alloc, relations, *number)?),
    }
}

/// The cells of some columns, in their order.
pub(crate) fn cells_of<L: Lookup>(
    alloc: Global,
    columns: &[Column],
    tags: &Tags,
    relations: &Relations<L>,
) -> Result<Cells, OutOfMemory>
    ensures cells { IfOk result (λ cells. cells ≡ map (spec.cell_of relations.now.selections.now
        (selecting_among relations.now.selections.now (L.known relations.now.lookup.now).object relations.now.ids.now) tags.now) columns.now) }
{
    let mut cells = Vec::with_capacity(alloc, columns.len())?;
    for column in columns {
        cells.push(cell_of(alloc, column, tags, relations)?)?;
    }
    Ok(Cells::from_vec(cells))
}
