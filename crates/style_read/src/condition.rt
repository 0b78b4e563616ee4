//! Conditions, as a style writes them.
ghost use Rattle.std.specs.Prelude.{◌≡◌, ◌≤◌, List, ℕ, length, map, codes, IfOk, option_map, is_none};
ghost use Rattle.std.specs.List.{position};
ghost use Rattle.std.specs.Str.{chars};
ghost use Rattle.toml.specs.View.{view};
ghost use Rattle.style_read.specs.Condition as spec;
ghost use Rattle.style_read.specs.Condition.{Parts};

use crate::document::text_at;
use crate::style::{Condition, MAX_SELECTIONS};
use crate::text::{around_first_equals, before_last_bang, behind};
use osm_base::{OutOfMemory, Text};
use std::alloc::Global;
use toml::Value;

/// Stands before what must not be.
pub(crate) const BANG: u8 = b'!';

/// Stands between a key and a value.
pub(crate) const EQUALS: u8 = b'=';

/// The form of a condition on tags.
#[derive(Clone, Copy)]
pub(crate) enum Form {
    Has,
    Lacks,
    Is,
    Isnt,
}

/// A text as a condition on tags: its form, its key, and its value, which is empty in a form that has
/// none. `None`: it is no such condition.
#[tactic(auto, unfolding(crate::specs::Condition::parts_of))]
fn parts_of(text: &str) -> Option<(Form, &str, &str)>
    ensures parts { option_map (λ (form, key, value). (form, key.now, value.now)) result ≡ spec.parts_of text.now }
{
    match behind(text, "!") {
        Some(key) => lacking(key),
        None => asking(text),
    }
}

/// What stands behind `!`.
fn lacking(key: &str) -> Option<(Form, &str, &str)>
    ensures parts { option_map (λ (form, key, value). (form, key.now, value.now)) result ≡ spec.lacking key.now }
{
    match around_first_equals(key) {
        Some(_) => None,
        None => keyed(Form::Lacks, key, ""),
    }
}

/// A text that does not begin with `!`.
fn asking(text: &str) -> Option<(Form, &str, &str)>
    ensures parts { option_map (λ (form, key, value). (form, key.now, value.now)) result ≡ spec.asking text.now }
{
    match around_first_equals(text) {
        Some((front, value)) => compared(front, value),
        None => keyed(Form::Has, text, ""),
    }
}

/// What stands before and behind `=`.
fn compared<'a>(front: &'a str, value: &'a str) -> Option<(Form, &'a str, &'a str)>
    ensures parts { option_map (λ (form, key, value). (form, key.now, value.now)) result ≡ spec.compared front.now value.now }
{
    match before_last_bang(front) {
        Some(key) => keyed(Form::Isnt, key, value),
        None => keyed(Form::Is, front, value),
    }
}

/// A condition on a key, where it has at least one byte.
fn keyed<'a>(form: Form, key: &'a str, value: &'a str) -> Option<(Form, &'a str, &'a str)>
    ensures parts { option_map (λ (form, key, value). (form, key.now, value.now)) result ≡ spec.keyed form key.now value.now }
{
    if key.is_empty() {
        None
    } else {
        Some((form, key, value))
    }
}

/// The condition on tags that a text writes. `None`: it writes none.
pub(crate) fn tag_condition(alloc: Global, text: &str) -> Result<Option<Condition>, OutOfMemory>
    ensures condition { IfOk result (λ found. found ≡ spec.tag_condition text.now) }
{
    match parts_of(text) {
        Some((form, key, value)) => Ok(Some(condition_on(alloc, form, key, value)?)),
        None => Ok(None),
    }
}

/// The condition of a form.
fn condition_on(alloc: Global, form: Form, key: &str, value: &str) -> Result<Condition, OutOfMemory>
    ensures condition { IfOk result (λ made. made ≡ spec.condition_on form key.now value.now) }
{
    let key = Text::from_str(alloc, key)?;
    match form {
        Form::Has => Ok(Condition::Has(key)),
        Form::Lacks => Ok(Condition::Lacks(key)),
        Form::Is => Ok(Condition::Is {
            key,
            value: Text::from_str(alloc, value)?,
        }),
        Form::Isnt => Ok(Condition::Isnt {
            key,
            value: Text::from_str(alloc, value)?,
        }),
    }
}

/// The condition that a text writes. `None`: it writes none, or asks for a selection that is not there.
#[tactic(auto, unfolding(crate::specs::Condition::condition_of))]
pub(crate) fn condition_of(
    alloc: Global,
    selections: &[Value],
    text: &str,
) -> Result<Option<Condition>, OutOfMemory>
    requires { length selections.now ≤ MAX_SELECTIONS }
    ensures condition { IfOk result (λ found. found ≡ spec.condition_of (map view selections.now) text.now) }
{
    match behind(text, "selected:") {
        Some(name) => match selection_of(selections, name) {
            Some(number) => Ok(Some(Condition::Selected(number))),
            None => Ok(None),
        },
        None => Ok(tag_condition(alloc, text)?),
    }
}

/// The number of the selection with this name, counted from 0. `None`: there is none.
#[tactic(auto, using(crate::proofs::Views::position_over))]
pub(crate) fn selection_of(selections: &[Value], name: &str) -> Option<u32>
    requires { length selections.now ≤ MAX_SELECTIONS }
    ensures number { result ≡ spec.selection_of (map view selections.now) name.now }
{
    let place = place_of(selections, name)?;
    Some(place as u32)
}

/// The place of the first part with this name.
fn place_of(parts: &[Value], name: &str) -> Option<usize>
    ensures place { result ≡ position (λ part. spec.is_named name.now (view part)) parts.now }
{
    parts.iter().position(|part| is_named(part, name))
}

/// Whether a part has this name.
pub(crate) fn is_named(part: &Value, name: &str) -> bool
    ensures named { result ≡ spec.is_named name.now (view part.now) }
{
    text_at(part, "name") == name
}

/// Whether a text is no condition, or one on selections where none may stand.
#[tactic(auto, unfolding(crate::specs::Condition::is_bad_condition))]
pub(crate) fn is_bad_condition(text: &str, may_select: bool) -> bool
    ensures bad { result ≡ spec.is_bad_condition may_select text.now }
{
    match behind(text, "selected:") {
        Some(_) => !may_select,
        None => parts_of(text).is_none(),
    }
}

/// Whether a text asks for a selection that is not there.
#[tactic(auto, unfolding(crate::specs::Condition::asks_unknown))]
pub(crate) fn asks_unknown(selections: &[Value], text: &str) -> bool
    ensures unknown { result ≡ spec.asks_unknown (map view selections.now) text.now }
{
    match behind(text, "selected:") {
        Some(name) => is_unknown(selections, name),
        None => false,
    }
}

/// Whether no selection has this name.
#[tactic(auto, using(crate::proofs::Views::position_over))]
fn is_unknown(selections: &[Value], name: &str) -> bool
    ensures unknown { result ≡ is_none (spec.selection_of (map view selections.now) name.now) }
{
    place_of(selections, name).is_none()
}
