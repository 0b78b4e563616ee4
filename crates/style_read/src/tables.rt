//! The causes against a table.
ghost use Rattle.std.specs.Prelude.{◌≡◌, map, codes};
ghost use Rattle.std.specs.List.{list_any};
ghost use Rattle.toml.specs.View.{view};
ghost use Rattle.style_read.specs.Causes as spec;
ghost use Rattle.style_read.specs.Condition.{asks_unknown};
ghost use Rattle.style_read.specs.Document.{may_have, text_value};

use crate::columns::{
    has_bad_column_name, some_has_other_key, some_has_other_types, some_is_bad,
    some_is_from_unknown, some_lacks,
};
use crate::condition::asks_unknown;
use crate::document::{
    lacks, may_have_tables, may_have_text, may_have_texts, text_at, text_value, values_at,
};
use crate::fault::StyleWhy;
use crate::part::Part;
use crate::selections::{has_bad_condition, has_bad_name};
use crate::style::MAX_COLUMNS;
use crate::words::{
    Level, gives_geometry, has_other_key, is_geometry, may_select, mode_of, source_of,
};
use toml::Value;

/// A table, beside the selections and the tables before it.
#[derive(Clone, Copy)]
pub(crate) struct TablePart<'a> {
    pub(crate) selections: &'a [Value],
    pub(crate) before: &'a [Value],
    pub(crate) part: &'a Value,
}

impl Part for TablePart<'_> {
    ghost has = { λ table why. spec.table_has (map view table.selections.now) (map view table.before.now) (view table.part.now) why };

    #[tactic(auto, unfolding(crate::specs::Causes::table_has))]
    fn has(&self, why: StyleWhy) -> bool {
        match why {
            StyleWhy::TooMany => has_too_many_columns(self.part),
            StyleWhy::UnknownKey => has_other_keys(self.part),
            StyleWhy::MissingKey => lacks_of_table(self.part),
            StyleWhy::WrongType => has_other_table_types(self.part),
            StyleWhy::Name => has_bad_names(self.before, self.part),
            StyleWhy::SourceGeometry => has_other_geometry(self.part),
            StyleWhy::Condition => has_bad_conditions(self.part),
            StyleWhy::Column => has_bad_columns(self.part),
            StyleWhy::UnknownSelection => table_asks_unknown(self.selections, self.part),
            _ => false,
        }
    }
}

/// The columns of a table.
pub(crate) fn columns_of(part: &Value) -> &[Value]
    ensures columns { map view result.now ≡ spec.columns_of (view part.now) }
{
    values_at(part, "column")
}

/// The word of the source of a table.
pub(crate) fn source_word(part: &Value) -> &str
    ensures word { result.now ≡ spec.source_word (view part.now) }
{
    text_at(part, "source")
}

/// Whether there are more columns than there may be.
#[tactic(auto, unfolding(crate::specs::Causes::has_too_many_columns), using(crate::proofs::Views::length_over))]
fn has_too_many_columns(part: &Value) -> bool
    ensures many { result ≡ spec.has_too_many_columns (view part.now) }
{
    columns_of(part).len() > MAX_COLUMNS
}

/// Whether a key of a table or of a column has no meaning.
#[tactic(auto, unfolding(crate::specs::Causes::has_other_keys), using(crate::proofs::Views::list_any_over))]
fn has_other_keys(part: &Value) -> bool
    ensures other { result ≡ spec.has_other_keys (view part.now) }
{
    has_other_key(part, Level::Table) || some_has_other_key(columns_of(part))
}

/// Whether a key of a table or of a column is not there.
#[tactic(auto, unfolding(crate::specs::Causes::lacks_of_table), using(crate::proofs::Views::list_any_over))]
fn lacks_of_table(part: &Value) -> bool
    ensures lacks { result ≡ spec.lacks_of_table (view part.now) }
{
    lacks(part, "name")
        || lacks(part, "source")
        || lacks(part, "geometry")
        || some_lacks(columns_of(part))
}

/// Whether a value of a table or of a column has another type, or is none of the words.
#[tactic(auto, unfolding(crate::specs::Causes::has_other_table_types), using(crate::proofs::Views::list_any_over))]
fn has_other_table_types(part: &Value) -> bool
    ensures other { result ≡ spec.has_other_table_types (view part.now) }
{
    !may_have_text(part, "name")
        || has_other_words(part)
        || !may_have_texts(part, "where")
        || !may_have_texts(part, "any")
        || !may_have_tables(part, "column")
        || some_has_other_types(columns_of(part))
}

/// Whether the source, the geometry or the mode of a table is none of the words.
#[tactic(auto, unfolding(crate::specs::Causes::has_other_words))]
fn has_other_words(part: &Value) -> bool
    ensures other { result ≡ spec.has_other_words (view part.now) }
{
    !may_have_source(part) || !may_have_geometry(part) || !may_have_mode(part)
}

/// Whether a source is named, if anything is.
fn may_have_source(part: &Value) -> bool
    ensures source { result ≡ may_have spec.is_source (codes "source") (view part.now) }
{
    match part.get("source") {
        Some(value) => value.is_str() && source_of(text_value(value)).is_some(),
        None => true,
    }
}

/// Whether a geometry is named, if anything is.
fn may_have_geometry(part: &Value) -> bool
    ensures geometry { result ≡ may_have spec.is_geometry_word (codes "geometry") (view part.now) }
{
    match part.get("geometry") {
        Some(value) => value.is_str() && is_geometry(text_value(value)),
        None => true,
    }
}

/// Whether a mode is named, if anything is.
fn may_have_mode(part: &Value) -> bool
    ensures mode { result ≡ may_have spec.is_mode (codes "expire") (view part.now) }
{
    match part.get("expire") {
        Some(value) => value.is_str() && mode_of(text_value(value)).is_some(),
        None => true,
    }
}

/// Whether the name of a table or of a column is not in its form, or stood before.
#[tactic(auto, unfolding(crate::specs::Causes::has_bad_names))]
fn has_bad_names(before: &[Value], part: &Value) -> bool
    ensures bad { result ≡ spec.has_bad_names (map view before.now) (view part.now) }
{
    has_bad_name(before, part) || has_bad_column_name(columns_of(part))
}

/// Whether the source of a table gives another geometry.
#[tactic(auto, unfolding(crate::specs::Causes::has_other_geometry))]
fn has_other_geometry(part: &Value) -> bool
    ensures other { result ≡ spec.has_other_geometry (view part.now) }
{
    !gives_geometry(source_word(part), text_at(part, "geometry"))
}

/// Whether a condition of a table is none that may stand there.
#[tactic(auto, unfolding(crate::specs::Causes::has_bad_conditions))]
fn has_bad_conditions(part: &Value) -> bool
    ensures bad { result ≡ spec.has_bad_conditions (view part.now) }
{
    let selecting = may_select(source_word(part));
    has_bad_condition(part, "where", selecting) || has_bad_condition(part, "any", selecting)
}

/// Whether a column of a table is from nothing that may stand there.
#[tactic(auto, unfolding(crate::specs::Causes::has_bad_columns), using(crate::proofs::Views::list_any_over))]
fn has_bad_columns(part: &Value) -> bool
    ensures bad { result ≡ spec.has_bad_columns (view part.now) }
{
    some_is_bad(columns_of(part), may_select(source_word(part)))
}

/// Whether a table asks for a selection that is not there.
#[tactic(auto, unfolding(crate::specs::Causes::table_asks_unknown), using(crate::proofs::Views::list_any_over))]
fn table_asks_unknown(selections: &[Value], part: &Value) -> bool
    ensures unknown { result ≡ spec.table_asks_unknown (map view selections.now) (view part.now) }
{
    asks_unknown_at(selections, part, "where")
        || asks_unknown_at(selections, part, "any")
        || some_is_from_unknown(selections, columns_of(part))
}

/// Whether a value of the list at a key asks for a selection that is not there.
#[tactic(auto, unfolding(crate::specs::Causes::asks_unknown_at), using(crate::proofs::Views::list_any_over))]
fn asks_unknown_at(selections: &[Value], part: &Value, key: &str) -> bool
    ensures unknown { result ≡ spec.asks_unknown_at (map view selections.now) key.now (view part.now) }
{
    some_asks_unknown(selections, values_at(part, key))
}

/// Whether a value asks for a selection that is not there.
fn some_asks_unknown(selections: &[Value], values: &[Value]) -> bool
    ensures unknown { result ≡ list_any (λ value. asks_unknown (map view selections.now) (text_value (view value))) values.now }
{
    values
        .iter()
        .any(|value| asks_unknown(selections, text_value(value)))
}
