//! Which pages the chains of an open store have.
ghost use Rattle.std.specs.Prelude.{◌≡◌, ◌⊎◌, ◌≤◌, ◌<◌, false};
ghost use Rattle.page_journal.specs.Journal.{home_count};
ghost use Rattle.chain_store.specs.Chains.{journal_of};
ghost use Rattle.chain_store.specs.Directories.{IsString};
ghost use Rattle.bucket_store.specs.Buckets.{IsBucketChain, bucket_count};

use super::Buckets;
use osm_base::Ids;
use outside::Disk;
use page_journal::StoreFault;

impl<'d, D: Disk> Buckets<'d, D> {
    ghost use Rattle.bucket_store.specs.Calls.{TouchesChain, TouchesNone};
    ghost use Rattle.bucket_store.specs.Listing.{ListsChainOf, ListsFree};
    ghost use Rattle.bucket_store.specs.Transaction.{IsReadyAt, chains_of, has_refused};

    /// How many home pages the store has. For callers outside: the program does not use it.
    pub fn pages(&self) -> u64
        ensures { result ≡ home_count (journal_of (chains_of self.now)) }
    {
        self.chains.pages()
    }

    /// The pages that a chain has in the store, in their order. A bucket is read as for its records.
    /// For callers outside: the program does not use it.
    pub fn pages_of(&mut self, n: u32) -> Result<Ids, StoreFault>
        requires chain { (n < 16) ⊎ IsBucketChain (bucket_count (chains_of self.old)) n }
        requires going { has_refused self.old ≡ false }
        ensures lists { ListsChainOf n self.old self.new result }
        ensures touches { TouchesChain n self.old self.new result }
    {
        if n >= 16 {
            return self.pages_of_bucket(n);
        }
        self.refused = true;
        match self.chains.pages_of(n) {
            Ok(pages) => {
                self.refused = false;
                Ok(pages)
            }
            Err(fault) => Err(fault),
        }
    }

    /// The free pages of the store, in their order. A commit reads them again.
    /// For callers outside: the program does not use it.
    pub fn free_pages(&mut self) -> Result<Ids, StoreFault>
        requires going { has_refused self.old ≡ false }
        ensures lists { ListsFree self.old self.new result }
        ensures touches { TouchesNone self.old self.new result }
    {
        self.refused = true;
        match self.chains.free_pages() {
            Ok(pages) => {
                self.refused = false;
                Ok(pages)
            }
            Err(fault) => Err(fault),
        }
    }

    // The pages of a bucket, which is read where that was not done yet.
    fn pages_of_bucket(&mut self, n: u32) -> Result<Ids, StoreFault>
        requires ready { IsReadyAt n self.old }
        ensures lists { ListsChainOf n self.old self.new result }
        ensures touches { TouchesChain n self.old self.new result }
    {
        if let Err(fault) = self.bring_chain(n) {
            return Err(fault);
        }
        match self.chains.known_pages(n) {
            Ok(pages) => Ok(pages),
            Err(_) => {
                self.refused = true;
                Err(StoreFault::OutOfMemory)
            }
        }
    }
}
