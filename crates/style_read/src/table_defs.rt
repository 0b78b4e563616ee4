//! Tables, as a document writes them.
ghost use Rattle.std.specs.Prelude.{◌≡◌, ◌≤◌, length, map, IfOk};
ghost use Rattle.toml.specs.View.{view};
ghost use Rattle.style_read.specs.Reading as reading;

use crate::columns::columns;
use crate::condition::condition_of;
use crate::document::{text_at, text_value, values_at};
use crate::style::{Conditions, MAX_SELECTIONS, Mode, Source, TableDef, TableDefs};
use crate::tables::{columns_of, source_word};
use crate::words::{mode_of, source_of};
use osm_base::{Items, OutOfMemory, Text};
use std::alloc::Global;
use toml::Value;

/// The tables that parts write.
pub(crate) fn tables(
    alloc: Global,
    selections: &[Value],
    parts: &[Value],
) -> Result<TableDefs, OutOfMemory>
    requires { length selections.now ≤ MAX_SELECTIONS }
    ensures tables { IfOk result (λ made. made ≡ map (reading.table (map view selections.now)) (map view parts.now)) }
{
    let mut made = Items::new(alloc);
    for part in parts {
        made.push(table(alloc, selections, part)?)?;
    }
    Ok(made)
}

/// The table that a part writes.
#[tactic(auto, unfolding(crate::specs::Reading::table))]
fn table(alloc: Global, selections: &[Value], part: &Value) -> Result<TableDef, OutOfMemory>
    requires { length selections.now ≤ MAX_SELECTIONS }
    ensures table { IfOk result (λ made. made ≡ reading.table (map view selections.now) (view part.now)) }
{
    Ok(TableDef {
        name: Text::from_str(alloc, text_at(part, "name"))?,
        source: source_at(part),
        all_of: conditions(alloc, selections, values_at(part, "where"))?,
        one_of: conditions(alloc, selections, values_at(part, "any"))?,
        mode: mode_at(part),
        columns: columns(alloc, selections, columns_of(part))?,
    })
}

/// The source of a table.
#[tactic(auto, unfolding(crate::specs::Reading::source_at))]
fn source_at(part: &Value) -> Source
    ensures source { result ≡ reading.source_at (view part.now) }
{
    source_of(source_word(part)).unwrap_or(Source::Node)
}

/// The mode of a table.
#[tactic(auto, unfolding(crate::specs::Reading::mode_at))]
fn mode_at(part: &Value) -> Mode
    ensures mode { result ≡ reading.mode_at (view part.now) }
{
    mode_of(text_at(part, "expire")).unwrap_or(Mode::Full)
}

/// The conditions that a list writes.
fn conditions(
    alloc: Global,
    selections: &[Value],
    values: &[Value],
) -> Result<Conditions, OutOfMemory>
    requires { length selections.now ≤ MAX_SELECTIONS }
    ensures conditions { IfOk result (λ made. made ≡ reading.conditions (map view selections.now) (map view values.now)) }
{
    let mut made = Items::new(alloc);
    for value in values {
        if let Some(condition) = condition_of(alloc, selections, text_value(value))? {
            made.push(condition)?;
        }
    }
    Ok(made)
}
