//! An object of a map, and what a line of a file says of one.
ghost use Rattle.std.specs.Prelude.{◌≡◌, IfOk};

use crate::{Ids, Items, Key, OutOfMemory, Place, Tags, Text, TryCopy};
use std::alloc::Global;

/// A member of a relation, with its role.
#[derive(Drop)]
pub struct Member {
    pub key: Key,
    pub role: Text,
}

/// The members of a relation, in order.
pub type Members = Items<Member>;

/// What a map knows of a node, a way or a relation.
#[derive(Drop)]
pub enum Object {
    /// A node; `None` where it has no place.
    Node { place: Option<Place>, tags: Tags },
    /// A way along these nodes.
    Way { nodes: Ids, tags: Tags },
    Relation { members: Members, tags: Tags },
}

/// What a line of a file says: the object of this key is now this one, or is deleted.
#[derive(Drop)]
pub struct Entry {
    pub key: Key,
    /// `None`: deleted.
    pub object: Option<Object>,
}

impl TryCopy for Member {
    fn copy(&self, alloc: Global) -> Result<Self, OutOfMemory> {
        Ok(Self {
            key: self.key,
            role: self.role.copy(alloc)?,
        })
    }
}

impl TryCopy for Object {
    fn copy(&self, alloc: Global) -> Result<Self, OutOfMemory> {
        match self {
            Object::Node { place, tags } => Ok(Object::Node {
                place: *place,
                tags: tags.copy(alloc)?,
            }),
            Object::Way { nodes, tags } => Ok(Object::Way {
                nodes: nodes.copy(alloc)?,
                tags: tags.copy(alloc)?,
            }),
            Object::Relation { members, tags } => Ok(Object::Relation {
                members: members.copy(alloc)?,
                tags: tags.copy(alloc)?,
            }),
        }
    }
}

impl TryCopy for Entry {
    fn copy(&self, alloc: Global) -> Result<Self, OutOfMemory> {
        let object = match &self.object {
            Some(object) => Some(object.copy(alloc)?),
            None => None,
        };
        Ok(Self {
            key: self.key,
            object,
        })
    }
}
