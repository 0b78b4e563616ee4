//! Selections, as a document writes them.
ghost use Rattle.std.specs.Prelude.{◌≡◌, ◌≤◌, length, map, IfOk};
ghost use Rattle.std.specs.List.{list_any, filter_map};
ghost use Rattle.toml.specs.View.{view};
ghost use Rattle.style_read.specs.Causes as spec;
ghost use Rattle.style_read.specs.Condition.{is_bad_condition, is_named, tag_condition};
ghost use Rattle.style_read.specs.Document.{text_value};
ghost use Rattle.style_read.specs.Reading as reading;

use crate::condition::{is_bad_condition, is_named, tag_condition};
use crate::document::{lacks, may_have_text, may_have_texts, text_at, text_value, values_at};
use crate::fault::StyleWhy;
use crate::name::is_name;
use crate::part::Part;
use crate::style::{Conditions, Selection};
use crate::words::{Level, has_other_key};
use osm_base::{Items, OutOfMemory, Text};
use std::alloc::Global;
use toml::Value;

/// A selection, beside those before it.
#[derive(Clone, Copy)]
pub(crate) struct SelectionPart<'a> {
    pub(crate) before: &'a [Value],
    pub(crate) part: &'a Value,
}

impl Part for SelectionPart<'_> {
    ghost has = { λ selection why. spec.selection_has (map view selection.before.now) (view selection.part.now) why };

    #[tactic(auto, unfolding(crate::specs::Causes::selection_has))]
    fn has(&self, why: StyleWhy) -> bool {
        match why {
            StyleWhy::UnknownKey => has_other_key(self.part, Level::Selection),
            StyleWhy::MissingKey => lacks_of_selection(self.part),
            StyleWhy::WrongType => has_other_types(self.part),
            StyleWhy::Name => has_bad_name(self.before, self.part),
            StyleWhy::Condition => is_bad_selection(self.part),
            _ => false,
        }
    }
}

/// Whether a key of a selection is not there.
#[tactic(auto, unfolding(crate::specs::Causes::lacks_of_selection))]
fn lacks_of_selection(part: &Value) -> bool
    ensures lacks { result ≡ spec.lacks_of_selection (view part.now) }
{
    lacks(part, "name") || lacks(part, "where") || lacks(part, "take")
}

/// Whether a value of a selection has another type.
#[tactic(auto, unfolding(crate::specs::Causes::has_other_types))]
fn has_other_types(part: &Value) -> bool
    ensures other { result ≡ spec.has_other_types (view part.now) }
{
    !may_have_text(part, "name") || !may_have_texts(part, "where") || !may_have_text(part, "take")
}

/// Whether a name is not in its form, or that of a part before.
#[tactic(auto, unfolding(crate::specs::Causes::has_bad_name), using(crate::proofs::Views::list_any_over))]
pub(crate) fn has_bad_name(before: &[Value], part: &Value) -> bool
    ensures bad { result ≡ spec.has_bad_name (map view before.now) (view part.now) }
{
    let name = text_at(part, "name");
    !is_name(name) || has_named(before, name)
}

/// Whether a part has this name.
fn has_named(parts: &[Value], name: &str) -> bool
    ensures named { result ≡ list_any (λ part. is_named name.now (view part)) parts.now }
{
    parts.iter().any(|part| is_named(part, name))
}

/// Whether a condition or the key of a selection is none.
#[tactic(auto, unfolding(crate::specs::Causes::is_bad_selection))]
fn is_bad_selection(part: &Value) -> bool
    ensures bad { result ≡ spec.is_bad_selection (view part.now) }
{
    has_bad_condition(part, "where", false) || text_at(part, "take").is_empty()
}

/// Whether a value of the list at a key is no condition where it stands.
#[tactic(auto, unfolding(crate::specs::Causes::has_bad_condition), using(crate::proofs::Views::list_any_over))]
pub(crate) fn has_bad_condition(part: &Value, key: &str, may_select: bool) -> bool
    ensures bad { result ≡ spec.has_bad_condition key.now may_select (view part.now) }
{
    some_is_bad(values_at(part, key), may_select)
}

/// Whether a value is no condition.
fn some_is_bad(values: &[Value], may_select: bool) -> bool
    ensures bad { result ≡ list_any (λ value. is_bad_condition may_select (text_value (view value))) values.now }
{
    values
        .iter()
        .any(|value| is_bad_condition(text_value(value), may_select))
}

/// The selection that a part writes.
#[tactic(auto, unfolding(crate::specs::Reading::selection))]
fn selection(alloc: Global, part: &Value) -> Result<Selection, OutOfMemory>
    ensures selection { IfOk result (λ made. made ≡ reading.selection (view part.now)) }
{
    Ok(Selection {
        name: Text::from_str(alloc, text_at(part, "name"))?,
        conditions: tag_conditions(alloc, values_at(part, "where"))?,
        take: Text::from_str(alloc, text_at(part, "take"))?,
    })
}

/// The conditions that a list writes.
fn tag_conditions(alloc: Global, values: &[Value]) -> Result<Conditions, OutOfMemory>
    ensures conditions { IfOk result (λ made. made ≡ reading.tag_conditions (map view values.now)) }
{
    let mut made = Items::new(alloc);
    for value in values {
        if let Some(condition) = tag_condition(alloc, text_value(value))? {
            made.push(condition)?;
        }
    }
    Ok(made)
}

/// The selections that parts write.
pub(crate) fn selections(alloc: Global, parts: &[Value]) -> Result<Items<Selection>, OutOfMemory>
    ensures selections { IfOk result (λ made. made ≡ map reading.selection (map view parts.now)) }
{
    let mut made = Items::new(alloc);
    for part in parts {
        made.push(selection(alloc, part)?)?;
    }
    Ok(made)
}
