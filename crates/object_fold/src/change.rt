//! The entries of a file, kept.
ghost use Rattle.std.specs.Prelude.{◌≡◌, List, [], None, IsTrue};
ghost use Rattle.osm_base.specs.values.Key.{KeyOf};
ghost use Rattle.osm_base.specs.values.KeyOrder.{is_below};
ghost use Rattle.object_fold.specs.Change.{IsChange, IsProper, Follows, last_key};
ghost use Rattle.object_fold.specs.Keeps.{pushed};

use crate::Keeper;
use osm_base::{Entry, Key, OutOfMemory, TryCopy};
use std::alloc::Global;
use std::marker::Model;

/// Entries whose keys strictly rise, each object of its key's kind; the nodes of a way have ids.
#[derive(Drop)]
pub struct Change {
    entries: Vec<Entry>,
}

impl Model for Change {
    ghost use Rattle.std.specs.Prelude.{List};
    ghost use Rattle.std.specs.Coded.{coded_list};
    ghost use Rattle.osm_base.specs.declared.values.object.Entry.{Entry};
    ghost use Rattle.osm_base.specs.contracts.values.object.Entry as entry;
    ghost use Rattle.object_fold.specs.Change.{IsChange};

    ghost Value = { List Entry };

    ghost coded = { coded_list entry.the_row.coded };

    ghost view = { λ change. change.entries.items };

    ghost invariant = { λ change. IsChange change.entries.items };
}

impl Change {
    /// No entry.
    pub fn new(alloc: Global) -> Self
        ensures empty { result ≡ [] }
    {
        Self {
            entries: Vec::new(alloc),
        }
    }

    /// No entry. Entries will stand in this room, and what stands there is let go.
    pub fn over(mut room: Vec<Entry>) -> Self
        ensures empty { result ≡ [] }
    {
        room.clear();
        Self { entries: room }
    }

    /// The entries in order.
    pub fn entries(&self) -> &[Entry]
        ensures entries { result.now ≡ self.now }
        ensures rise { IsChange self.now }
    {
        self.entries.as_slice()
    }

    /// The vector of the entries.
    pub fn into_entries(self) -> Vec<Entry>
        ensures entries { result.items ≡ self }
        ensures rise { IsChange self }
    {
        let Self { entries } = self;
        entries
    }
}

impl TryCopy for Change {
    fn copy(&self, alloc: Global) -> Result<Self, OutOfMemory> {
        Ok(Self {
            entries: Entry::copy_all(self.entries.as_slice(), alloc)?,
        })
    }
}

impl Keeper for Change {
    ghost takes = { λ change next. Follows (last_key None change) next };

    ghost after = { pushed };

    fn keep(&mut self, entry: Entry) -> Result<(), OutOfMemory> {
        self.entries.push(entry)?;
        Ok(())
    }

    fn keep_all(
        &mut self,
        last: Option<Key>,
        mut entries: Vec<Entry>,
    ) -> Result<Vec<Entry>, OutOfMemory> {
        self.entries.append(&mut entries)?;
        Ok(entries)
    }
}
