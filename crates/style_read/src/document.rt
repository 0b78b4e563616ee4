//! A TOML document, and what stands in it. What is asked for and is not there is empty.
ghost use Rattle.std.specs.Prelude.{◌≡◌, true, false, not, [], ◌∷◌, map, is_none, IfOk};
ghost use Rattle.std.specs.List.{list_any, list_all};
ghost use Rattle.std.specs.Option.{option_map, unwrap_or};
ghost use Rattle.std.specs.String.{string_bytes};
ghost use Rattle.toml.specs.Data.{as_str, as_array, get};
ghost use Rattle.toml.specs.View.{view};
ghost use Rattle.style_read.specs.Document as spec;

use osm_base::OutOfMemory;
use std::alloc::Global;
use toml::Value;

/// The table that bytes are. `None`: they are no document.
#[tactic(auto, unfolding(crate::specs::Document::document))]
pub(crate) fn read_document(alloc: Global, bytes: &[u8]) -> Result<Option<Value>, OutOfMemory>
    ensures table { IfOk result (λ found. option_map view found ≡ spec.document bytes.now) }
{
    match str::from_utf8(bytes) {
        Ok(text) => Ok(read_text(alloc, text)?),
        Err(_) => Ok(None),
    }
}

/// The table that a text is. `None`: it is no document.
fn read_text(alloc: Global, text: &str) -> Result<Option<Value>, OutOfMemory>
    ensures table { IfOk result (λ found. option_map view found ≡ spec.table_of_text text.now) }
{
    match toml::table_from_str(alloc, text) {
        Ok(table) => Ok(Some(Value::Table(table))),
        Err(error) if error.is_memory() => Err(OutOfMemory),
        Err(_) => Ok(None),
    }
}

/// The text that a value is.
pub(crate) fn text_value(value: &Value) -> &str
    ensures text { result.now ≡ spec.text_value (view value.now) }
{
    match value.as_str() {
        Some(text) => text,
        None => "",
    }
}

/// The values of a list.
#[tactic(auto, using(crate::proofs::Views::items_in_items_of))]
pub(crate) fn values_of(value: &Value) -> &[Value]
    ensures values { map view result.now ≡ spec.values_of (view value.now) }
{
    match value.as_array() {
        Some(values) => values.as_slice(),
        None => &[],
    }
}

/// The text at a key.
pub(crate) fn text_at<'a>(part: &'a Value, key: &str) -> &'a str
    ensures text { result.now ≡ spec.text_at key.now (view part.now) }
{
    match part.get(key) {
        Some(value) => text_value(value),
        None => "",
    }
}

/// The values of the list at a key.
pub(crate) fn values_at<'a>(part: &'a Value, key: &str) -> &'a [Value]
    ensures values { map view result.now ≡ spec.values_at key.now (view part.now) }
{
    match part.get(key) {
        Some(value) => values_of(value),
        None => &[],
    }
}

/// Whether nothing stands at a key.
pub(crate) fn lacks(part: &Value, key: &str) -> bool
    ensures lacks { result ≡ spec.lacks key.now (view part.now) }
{
    part.get(key).is_none()
}

/// Whether a text stands at a key, if anything does.
pub(crate) fn may_have_text(part: &Value, key: &str) -> bool
    ensures text { result ≡ spec.may_have spec.is_text key.now (view part.now) }
{
    match part.get(key) {
        Some(value) => value.is_str(),
        None => true,
    }
}

/// Whether a list of texts stands at a key, if anything does.
pub(crate) fn may_have_texts(part: &Value, key: &str) -> bool
    ensures texts { result ≡ spec.may_have spec.are_texts key.now (view part.now) }
{
    match part.get(key) {
        Some(value) => are_texts(value),
        None => true,
    }
}

/// Whether a list of tables stands at a key, if anything does.
pub(crate) fn may_have_tables(part: &Value, key: &str) -> bool
    ensures tables { result ≡ spec.may_have spec.are_tables key.now (view part.now) }
{
    match part.get(key) {
        Some(value) => are_tables(value),
        None => true,
    }
}

/// Whether a list of nothing stands at a key.
pub(crate) fn has_empty_list(part: &Value, key: &str) -> bool
    ensures empty { result ≡ spec.has_empty_list key.now (view part.now) }
{
    match part.get(key) {
        Some(value) => value.is_array() && values_of(value).is_empty(),
        None => false,
    }
}

/// Whether a value is a list of texts.
#[tactic(auto, using(crate::proofs::Views::list_all_over))]
fn are_texts(value: &Value) -> bool
    ensures texts { result ≡ spec.are_texts (view value.now) }
{
    value.is_array() && all_are_texts(values_of(value))
}

/// Whether a value is a list of tables.
#[tactic(auto, using(crate::proofs::Views::list_all_over))]
fn are_tables(value: &Value) -> bool
    ensures tables { result ≡ spec.are_tables (view value.now) }
{
    value.is_array() && all_are_tables(values_of(value))
}

/// Whether each value is a text.
fn all_are_texts(values: &[Value]) -> bool
    ensures texts { result ≡ list_all (λ value. spec.is_text (view value)) values.now }
{
    values.iter().all(|value| value.is_str())
}

/// Whether each value is a table.
fn all_are_tables(values: &[Value]) -> bool
    ensures tables { result ≡ list_all (λ value. spec.is_table (view value)) values.now }
{
    values.iter().all(|value| value.is_table())
}
