//! The ids of keys, as the keys say them of themselves.
ghost use Rattle.osm_base.specs.values.Key.{IsId};
ghost use Rattle.update_flow.specs.Ids.{AreIdEntries};

use osm_base::{Entry, Key};

/// Each key of these entries has an id. It is what a key says of itself, said of all of them.
pub(crate) fn known_ids(entries: &[Entry])
    ensures { AreIdEntries entries.now }
{
    for entry in entries {
        known_id(entry.key);
    }
}

/// A key has an id.
fn known_id(key: Key)
    ensures { IsId key.id }
{
    let _id = key.id;
}
