//! What is looked up of the objects of a map, where rows and lines are built.
ghost use Rattle.std.specs.Prelude.{◌≡◌};
ghost use Rattle.std.specs.Option.{option_copied};
ghost use Rattle.osm_base.specs.values.Ids.{AreRisingIds};
ghost use Rattle.osm_base.specs.map.Known.{Known};

use crate::{Key, Object, Place};

/// A part of the objects of a map. Several threads may ask it beside each other.
pub trait Lookup: Sync {
    /// What it knows.
    ghost known: { Self → Known };

    /// The place of a node. `None`: there is no such node, or it has no place.
    fn place_of(&self, id: u64) -> Option<Place>
        ensures place { result ≡ (known self.now).place id };

    /// The object of a key.
    fn object_of(&self, key: Key) -> Option<&Object>
        ensures object { option_copied result ≡ (known self.now).object key };

    /// The rising ids of the relations that have a way as a member.
    fn relations_of_way(&self, id: u64) -> &[u64]
        ensures relations { result.now ≡ (known self.now).relations_of_way id }
        ensures rising { AreRisingIds result.now };

    /// The rising ids of the relations that have a node as a member.
    fn relations_of_node(&self, id: u64) -> &[u64]
        ensures relations { result.now ≡ (known self.now).relations_of_node id }
        ensures rising { AreRisingIds result.now };
}
