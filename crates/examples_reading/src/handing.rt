//! One who is given entries many at once, keeps a copy of each, and hands all of them back.
ghost use Rattle.object_fold.specs.Change.{Follows, last_key};
ghost use Rattle.object_fold.specs.Keeps.{pushed};
ghost use Rattle.std.specs.Prelude.{None};

use object_fold::{Change, Keeper};
use osm_base::{Entry, Key, OutOfMemory, TryCopy};
use std::alloc::Global;
use std::marker::Model;

/// Copies of the entries that it was given.
#[derive(Drop)]
pub struct Copies {
    pub alloc: Global,
    pub change: Change,
}

impl Model for Copies {
    ghost use Rattle.std.specs.Prelude.{List};
    ghost use Rattle.std.specs.Coded.{coded_list};
    ghost use Rattle.osm_base.specs.declared.values.object.Entry.{Entry};
    ghost use Rattle.osm_base.specs.contracts.values.object.Entry as entry;

    ghost Value = { List Entry };

    ghost coded = { coded_list entry.the_row.coded };

    ghost view = { λ own. own.change };
}

impl Keeper for Copies {
    ghost takes = { λ own next. Follows (last_key None own) next };

    ghost after = { pushed };

    fn keep(&mut self, entry: Entry) -> Result<(), OutOfMemory> {
        self.change.keep(entry)
    }

    fn keep_all(
        &mut self,
        last: Option<Key>,
        entries: Vec<Entry>,
    ) -> Result<Vec<Entry>, OutOfMemory> {
        let copies = Entry::copy_all(entries.as_slice(), self.alloc)?;
        self.change.keep_all(last, copies)?;
        Ok(entries)
    }
}
