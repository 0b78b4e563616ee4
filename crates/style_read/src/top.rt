//! The top of a document.
ghost use Rattle.std.specs.Prelude.{◌≡◌, map};
ghost use Rattle.toml.specs.View.{view};
ghost use Rattle.style_read.specs.Causes as spec;

use crate::document::{has_empty_list, lacks, may_have_tables, values_at};
use crate::fault::StyleWhy;
use crate::part::Part;
use crate::style::{MAX_SELECTIONS, MAX_TABLES};
use crate::words::{Level, has_other_key};
use toml::Value;

/// The document itself.
#[derive(Clone, Copy)]
pub(crate) struct Top<'a> {
    pub(crate) document: &'a Value,
}

impl Part for Top<'_> {
    ghost has = { λ top why. spec.top_has (view top.document.now) why };

    #[tactic(auto, unfolding(crate::specs::Causes::top_has))]
    fn has(&self, why: StyleWhy) -> bool {
        match why {
            StyleWhy::TooMany => has_too_many(self.document),
            StyleWhy::UnknownKey => has_other_key(self.document, Level::Top),
            StyleWhy::MissingKey => lacks_tables(self.document),
            StyleWhy::WrongType => has_other_lists(self.document),
            _ => false,
        }
    }
}

/// The tables of selections.
pub(crate) fn selections_of(document: &Value) -> &[Value]
    ensures selections { map view result.now ≡ spec.selections_of (view document.now) }
{
    values_at(document, "select")
}

/// The tables of tables.
pub(crate) fn tables_of(document: &Value) -> &[Value]
    ensures tables { map view result.now ≡ spec.tables_of (view document.now) }
{
    values_at(document, "table")
}

/// Whether there are more selections or tables than there may be.
#[tactic(auto, unfolding(crate::specs::Causes::has_too_many), using(crate::proofs::Views::length_over))]
fn has_too_many(document: &Value) -> bool
    ensures many { result ≡ spec.has_too_many (view document.now) }
{
    selections_of(document).len() > MAX_SELECTIONS || tables_of(document).len() > MAX_TABLES
}

/// Whether there is no table.
#[tactic(auto, unfolding(crate::specs::Causes::lacks_tables))]
fn lacks_tables(document: &Value) -> bool
    ensures lacks { result ≡ spec.lacks_tables (view document.now) }
{
    lacks(document, "table") || has_empty_list(document, "table")
}

/// Whether selections or tables stand there as something else.
#[tactic(auto, unfolding(crate::specs::Causes::has_other_lists))]
fn has_other_lists(document: &Value) -> bool
    ensures other { result ≡ spec.has_other_lists (view document.now) }
{
    !may_have_tables(document, "select") || !may_have_tables(document, "table")
}
