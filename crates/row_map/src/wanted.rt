//! Which objects the tables of a style may want, whichever relations select them.
ghost use Rattle.std.specs.Prelude.{◌≡◌, true};
ghost use Rattle.std.specs.List.{list_all, list_any};
ghost use Rattle.row_rules.specs.Condition.{holds};
ghost use Rattle.row_rules.specs.Wanted as spec;

use crate::geometry::may_have_geometry;
use crate::row::tags_of;
use osm_base::{Object, Tags};
use row_rules::holds_of_tags;
use style_read::{Condition, Style, TableDef};

/// Whether a condition may hold of an object with these tags.
fn may_hold(condition: &Condition, tags: &Tags) -> bool
    ensures holds { result ≡ holds (λ _. true) tags.now condition.now }
{
    match condition {
        Condition::Selected(_) => true,
        _ => holds_of_tags(condition, tags),
    }
}

/// Whether all of these may hold.
fn all_may_hold(conditions: &[Condition], tags: &Tags) -> bool
    ensures hold { result ≡ list_all (holds (λ _. true) tags.now) conditions.now }
{
    for condition in conditions {
        if !may_hold(condition, tags) {
            return false;
        }
    }
    true
}

/// Whether one of these may hold.
fn any_may_hold(conditions: &[Condition], tags: &Tags) -> bool
    ensures holds { result ≡ list_any (holds (λ _. true) tags.now) conditions.now }
{
    for condition in conditions {
        if may_hold(condition, tags) {
            return true;
        }
    }
    false
}

/// Whether a table may want an object.
fn may_want(table: &TableDef, object: &Object) -> bool
    ensures wants { result ≡ spec.may_want table.now object.now }
{
    let tags = tags_of(object);
    let one_of = table.one_of.as_slice();
    may_have_geometry(table.source, object)
        && all_may_hold(table.all_of.as_slice(), tags)
        && (one_of.is_empty() || any_may_hold(one_of, tags))
}

/// Whether one of these tables may want an object.
fn one_may_want(tables: &[TableDef], object: &Object) -> bool
    ensures wants { result ≡ spec.one_may_want tables.now object.now }
{
    for table in tables {
        if may_want(table, object) {
            return true;
        }
    }
    false
}

/// Whether an object may have a row in a table of a style. Where it may not, nothing has to be known of what it lists, nor of
/// the relations that have it as a member.
#[tactic(auto, unfolding(row_rules::specs::Wanted::may_have_rows))]
pub fn may_have_rows(style: &Style, object: &Option<Object>) -> bool
    ensures may { result ≡ spec.may_have_rows style.now object.now }
{
    match object {
        None => false,
        Some(object) => one_may_want(style.tables.as_slice(), object),
    }
}
