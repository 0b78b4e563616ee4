//! The ways that a change makes due.
ghost use Rattle.std.specs.Prelude.{◌≡◌, ℕ, false, IfOk, OnOk, OnErr};
ghost use Rattle.osm_base.specs.map.Objects.{ObjectSet, folded_all};
ghost use Rattle.osm_base.specs.map.Listers.{index_of};
ghost use Rattle.osm_base.specs.values.Ids.{has};
ghost use Rattle.dep_closure.specs.Adds.{AddsDue};
ghost use Rattle.dep_closure.specs.Asks.{Asks, OnlyAsks};
ghost use Rattle.dep_closure.specs.Questions.{AreDueWays, AsksSome, of_entry, of_nodes};
ghost use Rattle.dep_closure.specs.Ways.{makes_due, Leaves};

use crate::PendingFault;
use object_fold::{Change, RisingIds};
use osm_base::{Back, Entry, Ids, Kind};
use std::alloc::Global;

/// The rising ids of the ways of a change, and of those that list a node of it. The index is that of
/// the objects after the change.
pub fn ways_due<B: Back>(
    alloc: Global,
    change: &Change,
    back: &mut B,
) -> Result<Ids, PendingFault<B::Refusal>>
    requires { B.spent back.old ≡ false }
    ensures due { IfOk result (AreDueWays (B.knows back.old) change.now) }

    // A way that is not among them has the same object and the same line before and after.
    ensures others { IfOk result (λ ids. (objects : ObjectSet) → B.knows back.old (index_of (folded_all objects change.now))
        → (way : ℕ) → has ids way ≡ false → Leaves change.now objects way) }

    // The index is asked of each node of the change, in order, and of nothing else.
    ensures asks { Asks B.Back (of_nodes change.now) back.old back.new result }
    ensures asked_some { OnErr result (AsksSome B.asks back.old (of_nodes change.now) back.new) }
{
    let entries = change.entries();
    let mut ways = Vec::new(alloc);
    for entry in entries {
        add_due(entry, back, &mut ways)?;
    }
    Ok(RisingIds::from_vec(ways).into_ids())
}

/// Adds the ways that an entry makes due.
fn add_due<B: Back>(
    entry: &Entry,
    back: &mut B,
    ways: &mut Vec<u64>,
) -> Result<(), PendingFault<B::Refusal>>
    requires { B.spent back.old ≡ false }
    ensures due { OnOk result (AddsDue (B.knows back.old) (λ index way. makes_due index way entry.now)
        ways.old.items ways.new.items) }
    ensures asked { B.asks back.old (of_entry entry.now) back.new }
    ensures only { OnlyAsks B.Back (λ _. ⊥) back.old back.new result }
{
    let key = entry.key;
    match key.kind {
        Kind::Node => {
            let listing = back.ways_of_node(key.id).map_err(PendingFault::Back)?;
            ways.extend_from_slice(listing.as_slice())?;
        }
        Kind::Way => ways.push(key.id)?,
        Kind::Relation => {}
    }
    Ok(())
}
