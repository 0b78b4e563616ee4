//! Columns, and from what their cells are made.
ghost use Rattle.std.specs.Prelude.{◌≡◌, ◌≤◌, length, map, IfOk};
ghost use Rattle.toml.specs.View.{view};
ghost use Rattle.style_read.specs.Column as spec;

use crate::condition::selection_of;
use crate::document::text_at;
use crate::style::{Column, MAX_SELECTIONS, Origin};
use crate::text::behind;
use osm_base::{OutOfMemory, Text};
use std::alloc::Global;
use toml::Value;

/// Whether a column is kept as a whole number.
#[tactic(auto, unfolding(crate::specs::Column::is_int))]
fn is_int(column: &Value) -> bool
    ensures int { result ≡ spec.is_int (view column.now) }
{
    text_at(column, "type") == "int"
}

/// Whether a column is from nothing that may stand there.
#[tactic(auto, unfolding(crate::specs::Column::is_bad_column))]
pub(crate) fn is_bad_column(column: &Value, may_select: bool) -> bool
    ensures bad { result ≡ spec.is_bad_column may_select (view column.now) }
{
    let from = text_at(column, "from");
    match behind(from, "selected:") {
        Some(_) => !may_select || is_int(column),
        None => is_bad_origin(is_int(column), from),
    }
}

/// Whether a text that does not begin with `selected:` is no origin, for a whole number or not.
#[tactic(auto, unfolding(crate::specs::Column::is_bad_origin))]
fn is_bad_origin(int: bool, text: &str) -> bool
    ensures bad { result ≡ spec.is_bad_origin int text.now }
{
    match behind(text, "tag:") {
        Some(key) => key.is_empty(),
        None => text != "tags" || int,
    }
}

/// The column that a table writes. `None`: it asks for a selection that is not there.
#[tactic(auto, unfolding(crate::specs::Column::column_of))]
pub(crate) fn column_of(
    alloc: Global,
    selections: &[Value],
    column: &Value,
) -> Result<Option<Column>, OutOfMemory>
    requires { length selections.now ≤ MAX_SELECTIONS }
    ensures column { IfOk result (λ found. found ≡ spec.column_of (map view selections.now) (view column.now)) }
{
    match origin_of(alloc, selections, text_at(column, "from"))? {
        Some(origin) => Ok(Some(Column {
            name: Text::from_str(alloc, text_at(column, "name"))?,
            origin,
            int: is_int(column),
        })),
        None => Ok(None),
    }
}

/// What a text names. `None`: it asks for a selection that is not there.
#[tactic(auto, unfolding(crate::specs::Column::origin_of))]
fn origin_of(alloc: Global, selections: &[Value], text: &str) -> Result<Option<Origin>, OutOfMemory>
    requires { length selections.now ≤ MAX_SELECTIONS }
    ensures origin { IfOk result (λ found. found ≡ spec.origin_of (map view selections.now) text.now) }
{
    match behind(text, "selected:") {
        Some(name) => match selection_of(selections, name) {
            Some(number) => Ok(Some(Origin::Selected(number))),
            None => Ok(None),
        },
        None => Ok(Some(tag_origin(alloc, text)?)),
    }
}

/// What a text that does not begin with `selected:` names.
#[tactic(auto, unfolding(crate::specs::Column::tag_origin))]
fn tag_origin(alloc: Global, text: &str) -> Result<Origin, OutOfMemory>
    ensures origin { IfOk result (λ found. found ≡ spec.tag_origin text.now) }
{
    match behind(text, "tag:") {
        Some(key) => Ok(Origin::Tag(Text::from_str(alloc, key)?)),
        None => Ok(Origin::AllTags),
    }
}
