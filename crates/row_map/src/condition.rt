//! Conditions on the tags of an object, and on the relations that it is a member of.
ghost use Rattle.std.specs.Prelude.{◌≡◌, ◌<◌, length};
ghost use Rattle.std.specs.List.{list_all, list_any};
ghost use Rattle.row_rules.specs.Condition as spec;
ghost use Rattle.row_rules.specs.Condition.{meets_number};
ghost use Rattle.row_rules.specs.Material.{is_selected, selecting_among};

use crate::relations::Relations;
use osm_base::{Lookup, Tags};
use row_rules::{holds_of_tags, meets};
use style_read::{Condition, Selection, Style, TableDef};

/// Whether a relation with these tags meets a selection.
pub fn selects(style: &Style, selection: u32, tags: &Tags) -> bool
    requires there { selection < length style.now.selections }
    ensures meets { result ≡ meets_number style.now.selections selection tags.now }
{
    meets_number(style.selections.as_slice(), selection, tags)
}

/// Whether a relation with these tags meets the selection with a number.
pub(crate) fn meets_number(selections: &[Selection], number: u32, tags: &Tags) -> bool
    ensures meets { result ≡ meets_number selections.now number tags.now }
{
    match selections.get(number as usize) {
        Some(selection) => meets(selection, tags),
        None => false,
    }
}

/// Whether a condition holds of an object.
fn holds<L: Lookup>(condition: &Condition, tags: &Tags, relations: &Relations<L>) -> bool
    ensures holds { result ≡ spec.holds (is_selected (selecting_among relations.now.selections.now (L.known relations.now.lookup.now).object relations.now.ids.now)) tags.now condition.now }
{
    match condition {
        Condition::Selected(number) => relations.select(*number),
        _ => holds_of_tags(condition, tags),
    }
}

/// Whether all of these hold.
fn all_hold<L: Lookup>(conditions: &[Condition], tags: &Tags, relations: &Relations<L>) -> bool
    ensures hold { result ≡ list_all (spec.holds (is_selected (selecting_among relations.now.selections.now (L.known relations.now.lookup.now).object relations.now.ids.now)) tags.now) conditions.now }
{
    for condition in conditions {
        if !holds(condition, tags, relations) {
            return false;
        }
    }
    true
}

/// Whether one of these holds.
fn any_holds<L: Lookup>(conditions: &[Condition], tags: &Tags, relations: &Relations<L>) -> bool
    ensures holds { result ≡ list_any (spec.holds (is_selected (selecting_among relations.now.selections.now (L.known relations.now.lookup.now).object relations.now.ids.now)) tags.now) conditions.now }
{
    for condition in conditions {
        if holds(condition, tags, relations) {
            return true;
        }
    }
    false
}

/// Whether the conditions of a table hold of an object.
pub(crate) fn wants<L: Lookup>(table: &TableDef, tags: &Tags, relations: &Relations<L>) -> bool
    ensures wants { result ≡ spec.table_wants (is_selected (selecting_among relations.now.selections.now (L.known relations.now.lookup.now).object relations.now.ids.now)) tags.now table.now }
{
    let one_of = table.one_of.as_slice();
    all_hold(table.all_of.as_slice(), tags, relations)
        && (one_of.is_empty() || any_holds(one_of, tags, relations))
}
