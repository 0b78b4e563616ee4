//! The values that selections hand on.
ghost use Rattle.std.specs.Prelude.{◌≡◌, ◌++◌, ◌∷◌, [], map, encode_utf8_all, IfOk, OnOk};
ghost use Rattle.std.specs.FinMap as finite;
ghost use Rattle.std.specs.List.{join_with_byte, slice_get};
ghost use Rattle.std.specs.Option.{option_and_then, option_map};
ghost use Rattle.std.specs.Str.{chars};
ghost use Rattle.osm_base.specs.values.Key.{IsId, relation_key};
ghost use Rattle.row_rules.specs.Cell as spec;
ghost use Rattle.row_rules.specs.Material.{selecting_among, selecting_tags};

use crate::relations::{Relations, selecting_tags};
use osm_base::{Cell, Lookup, OutOfMemory, Text};
use row_rules::COMMA;
use std::alloc::Global;

/// The value that a relation hands on: that of its tag with this key, if it meets the selection with a number.
fn value_at<'l, L: Lookup>(
    relations: &Relations<'l, L>,
    number: u32,
    key: &str,
    id: u64,
) -> Option<&'l str>
    requires id { IsId id }
    ensures value { option_map (λ value. chars value.now) result
        ≡ option_and_then (λ tags. finite.get tags (chars key.now)) (selecting_tags relations.now.selections.now number ((L.known relations.now.lookup.now).object (relation_key id))) }
{
    match selecting_tags(relations.selections, number, relations.lookup, id) {
        Some(tags) => tags.get(key),
        None => None,
    }
}

/// Adds a value.
fn add_value<'l>(values: &mut Vec<&'l str>, value: &'l str) -> Result<(), OutOfMemory>
    ensures ok { OnOk result (map (λ value. value.now) values.new.items ≡ map (λ value. value.now) values.old.items ++ encode_utf8_all (chars value.now) ∷ []) }
{
    values.push(value)?;
    Ok(())
}

/// The values of a tag over the relations that meet the selection with a number.
fn values_of<'l, L: Lookup>(
    alloc: Global,
    relations: &Relations<'l, L>,
    number: u32,
    key: &str,
) -> Result<Vec<&'l str>, OutOfMemory>
    ensures values { IfOk result (λ values. map (λ value. value.now) values.items
        ≡ spec.values_of (chars key.now) (selecting_among relations.now.selections.now (L.known relations.now.lookup.now).object relations.now.ids.now number)) }
{
    let mut values = Vec::new(alloc);
    for &id in relations.ids {
        if let Some(value) = value_at(relations, number, key, id) {
            add_value(&mut values, value)?;
        }
    }
    Ok(values)
}

/// The distinct ones of some values, in byte order.
fn distinct(values: Vec<&str>) -> Vec<&str>
    ensures distinct { map (λ value. value.now) result.items ≡ spec.distinct (map (λ value. value.now) values.entry.items) }
{
    let mut values = values;
    values.sort_unstable();
    values.dedup();
    values
}

/// A value and others behind it, each behind a comma.
fn joined_values(alloc: Global, first: &str, rest: &[&str]) -> Result<Text, OutOfMemory>
    ensures text { IfOk result (λ text. text ≡ chars (join_with_byte COMMA (first.now ∷ map (λ value. value.now) rest.now))) }
{
    let mut text = String::from_str(alloc, first)?;
    for value in rest {
        text.push_str(",")?;
        text.push_str(value)?;
    }
    Ok(Text::from_string(text))
}

/// The cell of some values: they are joined by commas. Null where there is none.
fn joined_cell(alloc: Global, values: &[&str]) -> Result<Cell, OutOfMemory>
    ensures cell { IfOk result (λ cell. cell ≡ spec.joined_cell (map (λ value. value.now) values.now)) }
{
    match values {
        [] => Ok(Cell::Null),
        [first, rest @ ..] => Ok(Cell::Text(joined_values(alloc, first, rest)?)),
    }
}

/// The cell of the values that the selection with a number hands on.
pub(crate) fn selected_cell<L: Lookup>(
    alloc: Global,
    relations: &Relations<L>,
    number: u32,
) -> Result<Cell, OutOfMemory>
    ensures cell { IfOk result (λ cell. cell ≡ spec.selected_cell (slice_get relations.now.selections.now number)
        (selecting_among relations.now.selections.now (L.known relations.now.lookup.now).object relations.now.ids.now number)) }
{
    match relations.selections.get(number as usize) {
        None => Ok(Cell::Null),
        Some(selection) => {
            let values = values_of(alloc, relations, number, selection.take.as_str())?;
            Ok(joined_cell(alloc, &distinct(values))?)
        }
    }
}
