//! The maps of a store.
ghost use Rattle.std.specs.Prelude.{◌≡◌, ◌↔◌, ◌<◌, ◌≤◌, IfSome, IsNone};
ghost use Rattle.value_bytes.specs.StoreMap.{map_number};

/// A map of a store: from numbers to values in bytes.
#[derive(Clone, Copy, Debug, PartialEq, Eq)]
pub enum StoreMap {
    /// From the id of a node to its place and its tags.
    Nodes,
    /// From the id of a way to its nodes and its tags.
    Ways,
    /// From the id of a relation to its members and its tags.
    Relations,
    /// From a block of nodes, which have neighbouring ids, to the ways that list one of them.
    WaysOfBlocks,
    /// From the id of a node to the relations that have it as a member.
    RelationsOfNodes,
    /// From the id of a way to the relations that have it as a member.
    RelationsOfWays,
    /// From the id of a node to its rows.
    NodeRows,
    /// From twice the id of a way, or twice the id of a relation and 1, to its rows.
    OtherRows,
}

impl StoreMap {
    /// The map with this number. For callers outside: the program does not use it.
    pub fn with_number(number: u64) -> Option<StoreMap>
        ensures map { IfSome result (λ map. map_number map ≡ number) }
        ensures none { IsNone result ↔ 8 ≤ number }
    {
        match number {
            0 => Some(StoreMap::Nodes),
            1 => Some(StoreMap::Ways),
            2 => Some(StoreMap::Relations),
            3 => Some(StoreMap::WaysOfBlocks),
            4 => Some(StoreMap::RelationsOfNodes),
            5 => Some(StoreMap::RelationsOfWays),
            6 => Some(StoreMap::NodeRows),
            7 => Some(StoreMap::OtherRows),
            _ => None,
        }
    }

    /// The number of the map in the format of a store.
    pub fn number(self) -> u8
        ensures number { result ≡ map_number self }
        ensures below { result < 8 }
    {
        match self {
            StoreMap::Nodes => 0,
            StoreMap::Ways => 1,
            StoreMap::Relations => 2,
            StoreMap::WaysOfBlocks => 3,
            StoreMap::RelationsOfNodes => 4,
            StoreMap::RelationsOfWays => 5,
            StoreMap::NodeRows => 6,
            StoreMap::OtherRows => 7,
        }
    }
}
