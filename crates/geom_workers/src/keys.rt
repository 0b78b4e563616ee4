//! The keys that wait, by number.
ghost use Rattle.std.specs.Prelude.{◌≡◌, ◌<◌, ◌≤◌, length};
ghost use Rattle.geom_workers.specs.Keys.{key_at, keys_of};

use osm_base::{Key, Kind, MAX_PENDING, PendingSet};

/// The most keys that may wait.
pub const MAX_KEYS: usize = MAX_PENDING as usize;

/// How many keys wait.
pub fn key_count(pending: &PendingSet) -> usize
    requires few { length (keys_of pending.now) ≤ MAX_KEYS }
    ensures count { result ≡ length (keys_of pending.now) }
{
    pending.nodes().len() + pending.ways().len() + pending.relations().len()
}

/// The key with a number, counted from 0: the nodes, then the ways, then the relations.
pub fn key_of(pending: &PendingSet, number: u32) -> Key
    requires there { number < length (keys_of pending.now) }
    ensures key { result ≡ key_at pending.now number }
{
    let nodes = pending.nodes();
    let ways = pending.ways();
    let index = number as usize;
    if index < nodes.len() {
        return Key::new(Kind::Node, nodes[index]);
    }
    let index = index - nodes.len();
    if index < ways.len() {
        return Key::new(Kind::Way, ways[index]);
    }
    Key::new(Kind::Relation, pending.relations()[index - ways.len()])
}
