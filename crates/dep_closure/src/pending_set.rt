//! The objects whose rows a change may change.
ghost use Rattle.std.specs.Prelude.{◌≡◌, ◌≤◌, ◌<◌, ◌||◌, ◌&&◌, ℕ, false, IfOk, IfErr, OnErr};
ghost use Rattle.std.specs.List.{AllByRecursion, list_any};
ghost use Rattle.osm_base.specs.values.Ids.{AreRisingIds, has};
ghost use Rattle.osm_base.specs.values.Key.{IsId, node_key};
ghost use Rattle.osm_base.specs.map.Known.{Index};
ghost use Rattle.osm_base.specs.declared.values.key.Kind.TheVariants as kinds;
ghost use Rattle.dep_closure.specs.Asks.{AsksOf};
ghost use Rattle.dep_closure.specs.Gathered.{IsGathered};
ghost use Rattle.dep_closure.specs.PendingSet.{ArePending, AreTooMany, LeavesRows, OfKnown, is_named, size};
ghost use Rattle.dep_closure.specs.Questions.{AsksSomeOf};
ghost use Rattle.row_rules.specs.Condition.{reaches_nodes};
ghost use Rattle.dep_closure.specs.Selecting.{selects_again};
ghost use Rattle.dep_closure.specs.declared.fault.PendingFault.TheVariants.{TooMany as Many};

use crate::PendingFault;
use crate::reach::reaches_nodes;
use crate::relations::relations_due;
use crate::selecting::add_selected;
use crate::ways::ways_due;
use object_fold::{Change, Objects, RisingIds};
use osm_base::{Back, Ids, Kind, Limits, OutOfMemory, PendingSet};
use std::alloc::Global;
use style_read::Style;

/// The objects whose rows a change may change, under a style. The index is that of the objects after
/// the change; `old` has the relations of the change as they were before it.
pub fn pending<B: Back>(
    alloc: Global,
    style: &Style,
    change: &Change,
    back: &mut B,
    old: &Objects,
    limits: &Limits,
) -> Result<PendingSet, PendingFault<B::Refusal>>
    requires { B.spent back.old ≡ false }

    // Of all objects whose relations of the change were so, and whose index after it is this one.
    ensures pending { IfOk result (ArePending (B.knows back.old) style.now old.now change.now) }
    ensures few { IfOk result (λ set. size set ≤ limits.now.pending) }

    // What is not among them has the same rows before and after.
    ensures others { IfOk result (λ set. OfKnown (B.knows back.old) old.now change.now
        (λ objects. LeavesRows style.now objects change.now set)) }
    ensures asks { AsksOf B.Back change.now
        (AreTooMany limits.now.pending (ArePending (B.knows back.old) style.now old.now change.now))
        back.old back.new result }
    ensures asked_some { OnErr result (AsksSomeOf B.asks B.knows back.old change.now back.new) }
{
    let _entries = change.entries();
    let set = gathered(alloc, style, change, back, old)?;
    within(set, limits)
}

/// The same, however many there are.
fn gathered<B: Back>(
    alloc: Global,
    style: &Style,
    change: &Change,
    back: &mut B,
    old: &Objects,
) -> Result<PendingSet, PendingFault<B::Refusal>>
    requires { B.spent back.old ≡ false }
    ensures gathered { IfOk result (λ set. (index : Index) → B.knows back.old index
        → IsGathered style.now old.now index change.now set) }
    ensures asks { AsksOf B.Back change.now (λ _. ⊥) back.old back.new result }
    ensures asked_some { OnErr result (AsksSomeOf B.asks B.knows back.old change.now back.new) }
{
    let moved = ways_due(alloc, change, back)?;
    let relations = relations_due(alloc, change, moved.as_slice(), back)?;
    let nodes = nodes_due(alloc, style, change, old)?;
    let ways = with_selected(style, change, old, moved)?;
    Ok(PendingSet::new(nodes, ways, relations))
}

/// The nodes of a change, and, where the style reaches nodes, those that its relations select.
fn nodes_due(
    alloc: Global,
    style: &Style,
    change: &Change,
    old: &Objects,
) -> Result<Ids, OutOfMemory>
    ensures nodes { IfOk result (λ ids. (id : ℕ) → has ids id ≡ (is_named change.now (node_key id)
        || (reaches_nodes style.now && list_any (selects_again style.now old.now kinds.Node id) change.now))) }
    ensures rising { IfOk result AreRisingIds }
{
    let mut nodes = named_nodes(alloc, change)?;
    if reaches_nodes(style) {
        add_selected(style, Kind::Node, change, old, &mut nodes)?;
    }
    Ok(RisingIds::from_vec(nodes).into_ids())
}

/// The ids of the nodes of a change.
fn named_nodes(alloc: Global, change: &Change) -> Result<Vec<u64>, OutOfMemory>
    ensures named { IfOk result (λ ids. (id : ℕ) → has ids.items id ≡ is_named change.now (node_key id)) }
    ensures ids { IfOk result (λ ids. AllByRecursion IsId ids.items) }
{
    let entries = change.entries();
    let mut nodes = Vec::new(alloc);
    for entry in entries {
        let key = entry.key;
        if key.kind == Kind::Node {
            nodes.push(key.id)?;
        }
    }
    Ok(nodes)
}

/// These ways, and those that the relations of a change select.
fn with_selected(
    style: &Style,
    change: &Change,
    old: &Objects,
    ways: Ids,
) -> Result<Ids, OutOfMemory>
    requires { AllByRecursion IsId ways }
    ensures ways { IfOk result (λ ids. (id : ℕ) → has ids id
        ≡ (list_any (selects_again style.now old.now kinds.Way id) change.now || has ways id)) }
    ensures rising { IfOk result AreRisingIds }
{
    let mut ids = ways.into_vec();
    add_selected(style, Kind::Way, change, old, &mut ids)?;
    Ok(RisingIds::from_vec(ids).into_ids())
}

/// A set, where it is not too large.
fn within<E>(set: PendingSet, limits: &Limits) -> Result<PendingSet, PendingFault<E>>
    ensures few { IfOk result (λ kept. (kept ≡ set) × (size set ≤ limits.now.pending)) }
    ensures many { IfErr result (λ why. (why ≡ Many (size set)) × (limits.now.pending < size set)) }
{
    let size = size_of(&set);
    if size > limits.pending() {
        return Err(PendingFault::TooMany { value: size });
    }
    Ok(set)
}

/// How many objects a set has.
fn size_of(set: &PendingSet) -> u64
    ensures size { result ≡ size set.now }
{
    (set.nodes().len() + set.ways().len() + set.relations().len()) as u64
}
