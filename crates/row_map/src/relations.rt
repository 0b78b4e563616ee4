//! The relations that an object is a member of.
ghost use Rattle.std.specs.Prelude.{◌≡◌};
ghost use Rattle.std.proofs.Props.{props};
ghost use Rattle.std.specs.List.{AllByRecursion};
ghost use Rattle.std.specs.Option.{option_copied};
ghost use Rattle.osm_base.specs.values.Ids.{AreRisingIds};
ghost use Rattle.osm_base.specs.values.Key.{IsId, relation_key};
ghost use Rattle.row_rules.specs.Material as spec;
ghost use Rattle.row_rules.specs.Material.{is_selected, selecting_among, relations_with};

use crate::condition::meets_number;
use osm_base::{Key, Kind, Lookup, Object, Tags};
use style_read::Selection;

/// The ids of the relations that an object is a member of, the selections that these may meet, and who knows them.
#[derive(Drop)]
pub(crate) struct Relations<'a, L> {
    pub(crate) selections: &'a [Selection],
    pub(crate) ids: &'a [u64],
    pub(crate) lookup: &'a L,
    ghost each: { AllByRecursion IsId ids.now } by { Prim.hlevel props },
}

/// The ids of the relations that have an object as a member and may select it.
pub(crate) fn relations_with<L: Lookup>(lookup: &L, key: Key) -> &[u64]
    ensures ids { result.now ≡ relations_with (L.known lookup.now) key }
    ensures rising { AllByRecursion IsId result.now }
{
    match key.kind {
        Kind::Node => lookup.relations_of_node(key.id),
        Kind::Way => lookup.relations_of_way(key.id),
        Kind::Relation => &[],
    }
}

/// The tags of the relation with an id, if it meets the selection with a number.
pub(crate) fn selecting_tags<'l, L: Lookup>(
    selections: &[Selection],
    number: u32,
    lookup: &'l L,
    id: u64,
) -> Option<&'l Tags>
    requires id { IsId id }
    ensures tags { option_copied result ≡ spec.selecting_tags selections.now number ((L.known lookup.now).object (relation_key id)) }
{
    match lookup.object_of(Key::new(Kind::Relation, id)) {
        None => None,
        Some(object) => tags_if_selecting(selections, number, object),
    }
}

/// The tags of an object that is a relation and meets the selection with a number.
fn tags_if_selecting<'l>(
    selections: &[Selection],
    number: u32,
    object: &'l Object,
) -> Option<&'l Tags>
    ensures tags { option_copied result ≡ spec.selecting_tags selections.now number (Some object.now) }
{
    match object {
        Object::Node { .. } | Object::Way { .. } => None,
        Object::Relation { tags, .. } => {
            if meets_number(selections, number, tags) {
                Some(tags)
            } else {
                None
            }
        }
    }
}

impl<L: Lookup> Relations<'_, L> {
    /// Whether one of the relations meets the selection with a number.
    pub(crate) fn select(&self, number: u32) -> bool
        ensures selected { result ≡ is_selected (selecting_among self.now.selections.now (L.known self.now.lookup.now).object self.now.ids.now) number }
    {
        for &id in self.ids {
            if selecting_tags(self.selections, number, self.lookup, id).is_some() {
                return true;
            }
        }
        false
    }
}
