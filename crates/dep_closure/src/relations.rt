//! The relations that a change makes due.
ghost use Rattle.std.specs.Prelude.{◌≡◌, ◌++◌, ◌∷◌, [], ℕ, false, IfOk, OnOk, OnErr};
ghost use Rattle.std.specs.List.{list_any};
ghost use Rattle.osm_base.specs.values.Ids.{AreRisingIds, has};
ghost use Rattle.osm_base.specs.map.Known.{Index, RelationsOfWay};
ghost use Rattle.dep_closure.specs.Adds.{AddsDue};
ghost use Rattle.dep_closure.specs.Asks.{Asks, OnlyAsks};
ghost use Rattle.dep_closure.specs.Questions.{AsksSome, of_member, of_members, of_ways};
ghost use Rattle.dep_closure.specs.Relations.{makes_relation, is_along, is_due_relation};

use crate::PendingFault;
use object_fold::{Change, RisingIds};
use osm_base::{Back, Entry, Ids, Kind};
use std::alloc::Global;

/// The rising ids of the relations of a change, of those that have a node of it as a member, and of
/// those that have one of these ways.
pub(crate) fn relations_due<B: Back>(
    alloc: Global,
    change: &Change,
    ways: &[u64],
    back: &mut B,
) -> Result<Ids, PendingFault<B::Refusal>>
    requires { B.spent back.old ≡ false }
    ensures due { IfOk result (λ ids. (index : Index) → B.knows back.old index
        → (id : ℕ) → has ids id ≡ is_due_relation index change.now ways.now id) }
    ensures rising { IfOk result AreRisingIds }
    ensures asks { Asks B.Back (of_members change.now ++ of_ways ways.now) back.old back.new result }
    ensures asked_some { OnErr result (AsksSome B.asks back.old (of_members change.now ++ of_ways ways.now) back.new) }
{
    let mut relations = Vec::new(alloc);
    add_named(change, back, &mut relations)?;
    add_along(ways, back, &mut relations)?;
    Ok(RisingIds::from_vec(relations).into_ids())
}

/// Adds the relations of a change, and those that have a node of it as a member.
fn add_named<B: Back>(
    change: &Change,
    back: &mut B,
    relations: &mut Vec<u64>,
) -> Result<(), PendingFault<B::Refusal>>
    requires { B.spent back.old ≡ false }
    ensures due { OnOk result (AddsDue (B.knows back.old) (λ index id. list_any (makes_relation index id) change.now)
        relations.old.items relations.new.items) }
    ensures asks { Asks B.Back (of_members change.now) back.old back.new result }
    ensures asked_some { OnErr result (AsksSome B.asks back.old (of_members change.now) back.new) }
{
    let entries = change.entries();
    for entry in entries {
        add_entry(entry, back, relations)?;
    }
    Ok(())
}

/// Adds the relations that an entry makes due.
fn add_entry<B: Back>(
    entry: &Entry,
    back: &mut B,
    relations: &mut Vec<u64>,
) -> Result<(), PendingFault<B::Refusal>>
    requires { B.spent back.old ≡ false }
    ensures due { OnOk result (AddsDue (B.knows back.old) (λ index id. makes_relation index id entry.now)
        relations.old.items relations.new.items) }
    ensures asked { B.asks back.old (of_member entry.now) back.new }
    ensures only { OnlyAsks B.Back (λ _. ⊥) back.old back.new result }
{
    let key = entry.key;
    match key.kind {
        Kind::Node => {
            let listing = back.relations_of_node(key.id).map_err(PendingFault::Back)?;
            relations.extend_from_slice(listing.as_slice())?;
        }
        Kind::Way => {}
        Kind::Relation => relations.push(key.id)?,
    }
    Ok(())
}

/// Adds the relations that have one of these ways as a member.
fn add_along<B: Back>(
    ways: &[u64],
    back: &mut B,
    relations: &mut Vec<u64>,
) -> Result<(), PendingFault<B::Refusal>>
    requires { B.spent back.old ≡ false }
    ensures due { OnOk result (AddsDue (B.knows back.old) (λ index. is_along index ways.now)
        relations.old.items relations.new.items) }
    ensures asks { Asks B.Back (of_ways ways.now) back.old back.new result }
    ensures asked_some { OnErr result (AsksSome B.asks back.old (of_ways ways.now) back.new) }
{
    for &way in ways {
        add_way(way, back, relations)?;
    }
    Ok(())
}

/// Adds the relations that have this way as a member.
fn add_way<B: Back>(
    way: u64,
    back: &mut B,
    relations: &mut Vec<u64>,
) -> Result<(), PendingFault<B::Refusal>>
    requires { B.spent back.old ≡ false }
    ensures due { OnOk result (AddsDue (B.knows back.old) (λ index. has (index.relations_of_way way))
        relations.old.items relations.new.items) }
    ensures asked { B.asks back.old (RelationsOfWay way ∷ []) back.new }
    ensures only { OnlyAsks B.Back (λ _. ⊥) back.old back.new result }
{
    let listing = back.relations_of_way(way).map_err(PendingFault::Back)?;
    relations.extend_from_slice(listing.as_slice())?;
    Ok(())
}
