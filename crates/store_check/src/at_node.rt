//! What is known of a node while its rows are judged.
ghost use Rattle.store_check.specs.Judged.{known_with};

use crate::held::Held;
use osm_base::{Key, Kind, Lookup, Object, Place};

/// The objects that are held, and beside them one node, of which the tags are known too.
#[derive(Drop)]
pub(crate) struct AtNode<'a> {
    pub(crate) held: &'a Held,
    pub(crate) node: &'a Option<Object>,
}

impl<'a> Lookup for AtNode<'a> {
    ghost known = { λ own. known_with own.held.now own.node.now };

    fn place_of(&self, id: u64) -> Option<Place> {
        self.held.place_of(id)
    }

    fn object_of(&self, key: Key) -> Option<&Object> {
        match key.kind {
            Kind::Node => self.node.as_ref(),
            _ => self.held.object_of(key),
        }
    }

    fn relations_of_way(&self, id: u64) -> &[u64] {
        self.held.relations_of_way(id)
    }

    fn relations_of_node(&self, id: u64) -> &[u64] {
        self.held.relations_of_node(id)
    }
}
