//! What is kept of a node.
ghost use Rattle.value_bytes.specs.Nodes.{record_bytes, IsRecord};

use crate::{Spelled, ValueFault};
use osm_base::{OutOfMemory, Place, Tags};
use std::alloc::Global;

/// The place of a node and its tags.
#[derive(Drop)]
pub struct NodeRecord {
    /// `None`: it has no place.
    pub place: Option<Place>,
    /// `None`: nobody knows them.
    pub tags: Option<Tags>,
}

impl Spelled for NodeRecord {
    ghost spell = { record_bytes };

    ghost is = { IsRecord };

    fn front<'b>(alloc: Global, bytes: &'b [u8]) -> Result<(Self, &'b [u8]), ValueFault> {
        let (place, behind) = match Option::<Place>::front(alloc, bytes) {
            Ok(found) => found,
            Err(fault) => return Err(fault),
        };
        let (tags, rest) = match Option::<Tags>::front(alloc, behind) {
            Ok(found) => found,
            Err(fault) => return Err(fault),
        };
        Ok((Self { place, tags }, rest))
    }

    fn push_to(&self, out: &mut Vec<u8>) -> Result<(), OutOfMemory> {
        self.place.push_to(out)?;
        self.tags.push_to(out)?;
        Ok(())
    }
}
