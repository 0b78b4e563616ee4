//! Who is given the entries of a file.
ghost use Rattle.std.specs.Prelude.{◌≡◌, OnOk, IsTrue, fold};
ghost use Rattle.osm_base.specs.values.Key.{KeyOf};
ghost use Rattle.osm_base.specs.values.KeyOrder.{is_below};
ghost use Rattle.osm_base.specs.declared.values.object.Entry.{Entry as EntryOf};
ghost use Rattle.object_fold.specs.Change.{IsProper, RiseFrom, last_key};
ghost use Rattle.object_fold.specs.Keeps.{TakesNext};

use osm_base::{Entry, Key, OutOfMemory};

/// Keeps what it needs of the entries of a file, which it is given one after another by rising keys.
pub trait Keeper: Drop {
    /// It may be given an entry with this key next.
    ghost takes: { Self → KeyOf → Type 0 };

    /// What it is with one entry more.
    ghost after: { Self → EntryOf → Self };

    /// Takes the next entry.
    fn keep(&mut self, entry: Entry) -> Result<(), OutOfMemory>
        requires takes { takes self.old entry.key }
        requires proper { IsProper entry }
        ensures ok { OnOk result (self.new ≡ after self.old entry) }
        ensures rises { OnOk result ((next : KeyOf) → IsTrue (is_below entry.key next) → takes self.new next) };

    /// Takes the entries that come after a key, and hands back what it does not keep of them: the threads that read the next lot let go
    /// of that.
    fn keep_all(
        &mut self,
        last: Option<Key>,
        entries: Vec<Entry>,
    ) -> Result<Vec<Entry>, OutOfMemory>
        requires takes { TakesNext takes last self.old }
        requires rise { RiseFrom last entries.items }
        ensures kept { OnOk result (self.new ≡ fold after self.old entries.items) }
        ensures takes { OnOk result (TakesNext takes (last_key last entries.items) self.new) };
}
