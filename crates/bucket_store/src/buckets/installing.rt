//! What a transaction has changed in the buckets of an open store is made to stand.
ghost use Rattle.std.specs.Prelude.{◌≡◌, ◌<◌, false, OnOk};
ghost use Rattle.chain_store.specs.Ends.{ReadsFree};
ghost use Rattle.chain_store.specs.Chains.{journal_of, kept_of};

use super::Buckets;
use crate::cache::Cache;
use crate::committing::store_changed;
use outside::Disk;
use page_journal::StoreFault;

impl<'d, D: Disk> Buckets<'d, D> {
    ghost use Rattle.bucket_store.specs.Calls.{IsBegun};
    ghost use Rattle.bucket_store.specs.Installing.{CommitsImage, CommitsStrings, EndsCommit};
    ghost use Rattle.bucket_store.specs.Transaction.{chains_of, has_refused};

    /// Makes what was changed stand, all of it or nothing, and begins a transaction anew. At every moment a crash
    /// leaves the store as it was, or as it is to be.
    pub fn commit(&mut self) -> Result<(), StoreFault>
        requires { has_refused self.old ≡ false }
        ensures strings { CommitsStrings self.old self.new result }
        ensures image { CommitsImage self.old self.new result }
        ensures begun { OnOk result (IsBegun self.new) }
        ensures reads { OnOk result (ReadsFree (journal_of (chains_of self.old)) (kept_of (chains_of self.old)) (journal_of (chains_of self.new))) }
        ensures ends { EndsCommit self.old self.new result }
    {
        self.refused = true;
        let stored = store_changed(&mut self.chains, &mut self.cache);
        self.cache = Cache::new(self.alloc);
        if let Err(fault) = stored {
            return Err(fault);
        }
        match self.chains.commit() {
            Ok(()) => {
                self.refused = false;
                Ok(())
            }
            Err(fault) => Err(fault),
        }
    }
}
