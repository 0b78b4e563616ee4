//! The columns of a table, as a document writes them.
ghost use Rattle.std.specs.Prelude.{◌≡◌, ◌≤◌, [], length, map, codes, IfOk};
ghost use Rattle.std.specs.List.{list_any, filter_map};
ghost use Rattle.toml.specs.View.{view};
ghost use Rattle.style_read.specs.Causes as spec;
ghost use Rattle.style_read.specs.Column.{column_of, is_bad_column};
ghost use Rattle.style_read.specs.Document.{may_have, has_other_key};
ghost use Rattle.style_read.specs.Words.{is_key_of};
ghost use Rattle.style_read.specs.declared.words.Level.TheVariants as levels;

use crate::column::{column_of, is_bad_column};
use crate::condition::asks_unknown;
use crate::document::{lacks, may_have_text, text_at, text_value};
use crate::selections::has_bad_name;
use crate::style::{Columns, MAX_SELECTIONS};
use crate::words::{Level, has_other_key, is_type};
use osm_base::{Items, OutOfMemory};
use std::alloc::Global;
use toml::Value;

/// Whether a key of a column has no meaning.
pub(crate) fn some_has_other_key(columns: &[Value]) -> bool
    ensures other { result ≡ list_any (λ column. has_other_key (is_key_of levels.Column) (view column)) columns.now }
{
    columns
        .iter()
        .any(|column| has_other_key(column, Level::Column))
}

/// Whether a key of a column is not there.
pub(crate) fn some_lacks(columns: &[Value]) -> bool
    ensures lacks { result ≡ list_any (λ column. spec.lacks_of_column (view column)) columns.now }
{
    columns.iter().any(|column| lacks_of_column(column))
}

/// Whether a column is a table and a key of it is not there.
#[tactic(auto, unfolding(crate::specs::Causes::lacks_of_column))]
fn lacks_of_column(column: &Value) -> bool
    ensures lacks { result ≡ spec.lacks_of_column (view column.now) }
{
    column.is_table() && (lacks(column, "name") || lacks(column, "from"))
}

/// Whether a type is named, if anything is.
fn may_have_type(column: &Value) -> bool
    ensures kind { result ≡ may_have spec.is_type_word (codes "type") (view column.now) }
{
    match column.get("type") {
        Some(value) => value.is_str() && is_type(text_value(value)),
        None => true,
    }
}

/// Whether a value of a column has another type, or is none of the words.
pub(crate) fn some_has_other_types(columns: &[Value]) -> bool
    ensures other { result ≡ list_any (λ column. spec.has_other_column_types (view column)) columns.now }
{
    columns.iter().any(|column| has_other_column_types(column))
}

/// Whether a value of a column has another type, or is none of the words.
#[tactic(auto, unfolding(crate::specs::Causes::has_other_column_types))]
fn has_other_column_types(column: &Value) -> bool
    ensures other { result ≡ spec.has_other_column_types (view column.now) }
{
    !may_have_text(column, "name") || !may_have_text(column, "from") || !may_have_type(column)
}

/// Whether the name of a column is not in its form, or that of a column before.
pub(crate) fn has_bad_column_name(columns: &[Value]) -> bool
    ensures bad { result ≡ spec.has_bad_column_name [] (map view columns.now) }
{
    for index in 0..columns.len() {
        if has_bad_name(&columns[..index], &columns[index]) {
            return true;
        }
    }
    false
}

/// Whether a column is from nothing that may stand there.
pub(crate) fn some_is_bad(columns: &[Value], may_select: bool) -> bool
    ensures bad { result ≡ list_any (λ column. is_bad_column may_select (view column)) columns.now }
{
    columns
        .iter()
        .any(|column| is_bad_column(column, may_select))
}

/// Whether a column asks for a selection that is not there.
pub(crate) fn some_is_from_unknown(selections: &[Value], columns: &[Value]) -> bool
    ensures unknown { result ≡ list_any (λ column. spec.is_from_unknown (map view selections.now) (view column)) columns.now }
{
    columns
        .iter()
        .any(|column| is_from_unknown(selections, column))
}

/// Whether a column asks for a selection that is not there.
#[tactic(auto, unfolding(crate::specs::Causes::is_from_unknown))]
fn is_from_unknown(selections: &[Value], column: &Value) -> bool
    ensures unknown { result ≡ spec.is_from_unknown (map view selections.now) (view column.now) }
{
    asks_unknown(selections, text_at(column, "from"))
}

/// The columns that a list writes.
pub(crate) fn columns(
    alloc: Global,
    selections: &[Value],
    values: &[Value],
) -> Result<Columns, OutOfMemory>
    requires { length selections.now ≤ MAX_SELECTIONS }
    ensures columns { IfOk result (λ made. made ≡ filter_map (column_of (map view selections.now)) (map view values.now)) }
{
    let mut made = Items::new(alloc);
    for value in values {
        if let Some(column) = column_of(alloc, selections, value)? {
            made.push(column)?;
        }
    }
    Ok(made)
}
