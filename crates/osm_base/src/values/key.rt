//! The key of an object: its kind and its id.
ghost use Rattle.std.specs.Prelude.{◌≡◌, ◌≤◌};
ghost use Rattle.osm_base.specs.values.Key.{KeyOf, IsId};

use std::marker::Model;

/// The greatest id of an object; the least is 1.
pub const MAX_ID: u64 = 9_223_372_036_854_775_807;

/// What an object is. A file has its nodes first, then its ways, then its relations.
#[derive(Clone, Copy, Debug, PartialEq, Eq, PartialOrd, Ord)]
pub enum Kind {
    Node,
    Way,
    Relation,
}

/// The name of an object, ordered by kind and then by id.
#[derive(Clone, Copy, Debug, PartialEq, Eq, PartialOrd, Ord)]
pub struct Key {
    pub kind: Kind,
    pub id: u64,
}

impl Model for Key {
    ghost Value = { KeyOf };

    ghost view = { λ key. record { kind = key.kind; id = key.id } };

    ghost inverse = { λ key. record { kind = key.kind; id = key.id } };

    ghost invariant = { λ key. IsId key.id };
}

impl Key {
    /// The key of the object of this kind with this id.
    pub fn new(kind: Kind, id: u64) -> Self
        requires { IsId id }
        ensures fields { result ≡ record { kind = kind; id = id } }
    {
        Self { kind, id }
    }
}
