//! The members of the relations of a change that select.
ghost use Rattle.std.specs.Prelude.{◌≡◌, ◌++◌, OnOk};
ghost use Rattle.std.specs.List.{AllByRecursion, list_any};
ghost use Rattle.std.specs.Option.{option_copied};
ghost use Rattle.osm_base.specs.values.Key.{IsId};
ghost use Rattle.osm_base.specs.map.Listers.{member_ids};
ghost use Rattle.row_rules.specs.Condition.{meets};
ghost use Rattle.dep_closure.specs.Adds.{Adds};
ghost use Rattle.dep_closure.specs.Selecting.{selects, has_member, reselects, selects_again};

use object_fold::{Change, Objects};
use osm_base::{Entry, Kind, Lookup, MAX_ID, Member, Object, OutOfMemory, Tags};
use row_rules::meets;
use style_read::{Selection, Style};

/// Adds the ids of the objects of one kind that are members, before a change or after it, of a
/// relation of it that selects, before or after.
pub(crate) fn add_selected(
    style: &Style,
    kind: Kind,
    change: &Change,
    old: &Objects,
    ids: &mut Vec<u64>,
) -> Result<(), OutOfMemory>
    ensures selected { OnOk result (Adds (λ id. list_any (selects_again style.now old.now kind id) change.now)
        ids.old.items ids.new.items) }
{
    let entries = change.entries();
    for entry in entries {
        add_entry(style, kind, entry, old, ids)?;
    }
    Ok(())
}

/// Adds the same of one entry.
fn add_entry(
    style: &Style,
    kind: Kind,
    entry: &Entry,
    old: &Objects,
    ids: &mut Vec<u64>,
) -> Result<(), OutOfMemory>
    ensures selected { OnOk result (Adds (λ id. selects_again style.now old.now kind id entry.now)
        ids.old.items ids.new.items) }
{
    if entry.key.kind != Kind::Relation {
        return Ok(());
    }
    add_forms(
        style,
        kind,
        old.object_of(entry.key),
        entry.object.as_ref(),
        ids,
    )
}

/// Adds the members of two forms of a relation, where one of them selects.
fn add_forms(
    style: &Style,
    kind: Kind,
    before: Option<&Object>,
    after: Option<&Object>,
    ids: &mut Vec<u64>,
) -> Result<(), OutOfMemory>
    ensures selected { OnOk result (Adds (λ id. reselects style.now kind id (option_copied before.entry) (option_copied after.entry))
        ids.old.items ids.new.items) }
{
    if !selects(style, before) && !selects(style, after) {
        return Ok(());
    }
    add_members(kind, before, ids)?;
    add_members(kind, after, ids)?;
    Ok(())
}

/// Whether a form of a relation meets a selection.
fn selects(style: &Style, object: Option<&Object>) -> bool
    ensures selects { result ≡ selects style.now (option_copied object.entry) }
{
    match object {
        Some(Object::Relation { tags, .. }) => some_met(style.selections.as_slice(), tags),
        _ => false,
    }
}

/// Whether tags meet one of these selections.
fn some_met(selections: &[Selection], tags: &Tags) -> bool
    ensures some { result ≡ list_any (λ selection. meets selection tags.now) selections.now }
{
    selections.iter().any(|selection| meets(selection, tags))
}

/// Adds the ids of the members of one kind of a form of a relation.
fn add_members(kind: Kind, object: Option<&Object>, ids: &mut Vec<u64>) -> Result<(), OutOfMemory>
    ensures members { OnOk result (Adds (λ id. has_member kind id (option_copied object.entry))
        ids.old.items ids.new.items) }
{
    match object {
        Some(Object::Relation { members, .. }) => push_members(kind, members.as_slice(), ids),
        _ => Ok(()),
    }
}

/// Adds the ids of the members of one kind.
fn push_members(kind: Kind, members: &[Member], ids: &mut Vec<u64>) -> Result<(), OutOfMemory>
    ensures members { OnOk result (ids.new.items ≡ ids.old.items ++ member_ids kind members.now) }
    ensures ids { AllByRecursion IsId ids.old.items → AllByRecursion IsId ids.new.items }
{
    for member in members {
        let key = member.key;
        prove!(1 <= key.id && key.id <= MAX_ID);
        if key.kind == kind {
            ids.push(key.id)?;
        }
    }
    Ok(())
}
