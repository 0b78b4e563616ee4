//! The words of a style, and the keys that may stand in each of its tables.
ghost use Rattle.std.specs.Prelude.{◌≡◌, ◌||◌, not, option_map, is_some, codes};
ghost use Rattle.std.specs.BTreeMap.{keys};
ghost use Rattle.std.specs.List.{list_any};
ghost use Rattle.std.specs.Str.{bytes_eq};
ghost use Rattle.std.specs.String.{string_bytes};
ghost use Rattle.toml.specs.View.{view};
ghost use Rattle.style_read.specs.Document.{has_other_key};
ghost use Rattle.style_read.specs.Words as spec;
ghost use Rattle.style_read.specs.declared.words.Level.TheVariants as levels;

use crate::style::{Mode, Source};
use toml::{Table, Value};

/// The tables of a style, by what may stand in them.
#[derive(Clone, Copy)]
pub(crate) enum Level {
    Top,
    Selection,
    Table,
    Column,
}

/// Whether a key has a meaning in a table of this level.
#[tactic(auto, unfolding(crate::specs::Words::is_key_of))]
fn is_key_of(level: Level, key: &str) -> bool
    ensures key { result ≡ spec.is_key_of level key.now }
{
    match level {
        Level::Top => key == "select" || key == "table",
        Level::Selection => key == "name" || key == "where" || key == "take",
        Level::Table => is_key_of_table(key),
        Level::Column => key == "name" || key == "from" || key == "type",
    }
}

/// Whether a key has a meaning in a table of the map.
#[tactic(auto, unfolding(crate::specs::Words::is_key_of))]
fn is_key_of_table(key: &str) -> bool
    ensures key { result ≡ spec.is_key_of levels.Table key.now }
{
    key == "name" || key == "source" || key == "geometry" || is_free_key(key)
}

/// Whether a table of the map may have this key, and may be without it.
fn is_free_key(key: &str) -> bool
    ensures key { result ≡ (bytes_eq key.now (codes "where") || (bytes_eq key.now (codes "any")
        || (bytes_eq key.now (codes "expire") || bytes_eq key.now (codes "column")))) }
{
    key == "where" || key == "any" || key == "expire" || key == "column"
}

/// Whether a table has a key with no meaning at this level. What is no table has none.
pub(crate) fn has_other_key(part: &Value, level: Level) -> bool
    ensures other { result ≡ has_other_key (spec.is_key_of level) (view part.now) }
{
    match part.as_table() {
        Some(table) => table_has_other_key(table, level),
        None => false,
    }
}

/// Whether a table has a key with no meaning at this level.
fn table_has_other_key(table: &Table, level: Level) -> bool
    ensures other { result ≡ list_any (λ key. not (spec.is_key_of level (string_bytes key))) (keys table.now) }
{
    table.keys().any(|key| !is_key_of(level, key.as_str()))
}

/// The source that a word names.
#[tactic(auto, unfolding(crate::specs::Words::source_of))]
pub(crate) fn source_of(word: &str) -> Option<Source>
    ensures source { result ≡ spec.source_of word.now }
{
    match word {
        "node" => Some(Source::Node),
        "way" => Some(Source::Way),
        "area" => Some(Source::Area),
        "relation" => Some(Source::Relation),
        _ => None,
    }
}

/// The word of the geometry that a source gives.
#[tactic(auto, unfolding(crate::specs::Words::geometry_of))]
fn geometry_of(source: Source) -> &'static str
    ensures word { result.now ≡ spec.geometry_of source }
{
    match source {
        Source::Node => "point",
        Source::Way => "line",
        Source::Area => "polygon",
        Source::Relation => "lines",
    }
}

/// Whether a word names a geometry.
#[tactic(auto, unfolding(crate::specs::Words::is_geometry))]
pub(crate) fn is_geometry(word: &str) -> bool
    ensures geometry { result ≡ spec.is_geometry word.now }
{
    word == "point" || word == "line" || word == "polygon" || word == "lines"
}

/// Whether the source that the first word names gives the geometry that the second one names.
#[tactic(auto, unfolding(crate::specs::Words::gives_geometry))]
pub(crate) fn gives_geometry(source: &str, geometry: &str) -> bool
    ensures gives { result ≡ spec.gives_geometry source.now geometry.now }
{
    match source_of(source) {
        Some(source) => geometry == geometry_of(source),
        None => false,
    }
}

/// Whether objects of a source may be selected by relations.
#[tactic(auto, unfolding(crate::specs::Words::may_select))]
pub(crate) fn may_select(source: &str) -> bool
    ensures selects { result ≡ spec.may_select source.now }
{
    source != "relation"
}

/// The mode that a word names.
#[tactic(auto, unfolding(crate::specs::Words::mode_of))]
pub(crate) fn mode_of(word: &str) -> Option<Mode>
    ensures mode { result ≡ spec.mode_of word.now }
{
    match word {
        "full-area" => Some(Mode::Full),
        "boundary-only" => Some(Mode::Boundary),
        _ => None,
    }
}

/// Whether a word is the type of a column.
#[tactic(auto, unfolding(crate::specs::Words::is_type))]
pub(crate) fn is_type(word: &str) -> bool
    ensures kind { result ≡ spec.is_type word.now }
{
    word == "text" || word == "int"
}
