//! The index of a store, as who asks for it sees it.
ghost use Rattle.std.specs.Prelude.{◌≡◌, None};
ghost use Rattle.chain_store.specs.Chains.{disk_of};
ghost use Rattle.bucket_store.specs.Transaction.{chains_of};
ghost use Rattle.back_index.specs.Asking.{asked_none, asked_then, bears_fewer};
ghost use Rattle.back_index.specs.Index.{Asked, Bears, Knows, is_spent};

use crate::candidates::ways_of_node;
use crate::lists::listers;
use bucket_store::Buckets;
use osm_base::{Back, Ids};
use outside::Disk;
use page_journal::StoreFault;
use std::alloc::Global;
use value_bytes::StoreMap;

/// The buckets of an open store, whose index may be asked within a transaction.
#[derive(Drop)]
pub struct Indexed<'d, D: Disk> {
    pub buckets: Buckets<'d, D>,
    /// Why the last question that was refused was refused.
    pub stopped: Option<StoreFault>,
    alloc: Global,
}

impl<'d, D: Disk> Indexed<'d, D> {
    /// The index of these buckets.
    pub fn over(alloc: Global, buckets: Buckets<'d, D>) -> Self
        ensures buckets { result.buckets ≡ buckets.entry }
        ensures going { result.stopped ≡ None }
    {
        Self {
            buckets,
            stopped: None,
            alloc,
        }
    }

    /// Hands the buckets back.
    pub fn close(self) -> Buckets<'d, D>
        ensures { result ≡ self.entry.buckets }
    {
        let Self {
            buckets,
            stopped: _,
            alloc: _,
        } = self;
        buckets
    }
}

impl<D: Disk> Back for Indexed<'_, D> {
    type Refusal = StoreFault;

    ghost knows = { λ indexed index. Knows indexed.buckets index };

    ghost faults = { λ indexed. (disk_of (chains_of indexed.buckets)).faults };

    ghost spent = { λ indexed. is_spent indexed.buckets };

    ghost bears = { λ indexed count refusal. Bears indexed.buckets indexed.stopped count refusal };

    ghost asks = { λ old questions new. Asked questions old.buckets old.stopped new.buckets new.stopped };

    fn ways_of_node(&mut self, id: u64) -> Result<Ids, StoreFault> {
        match ways_of_node(self.alloc, &mut self.buckets, id) {
            Ok(ids) => Ok(ids),
            Err(fault) => {
                self.stopped = Some(fault);
                Err(fault)
            }
        }
    }

    fn relations_of_node(&mut self, id: u64) -> Result<Ids, StoreFault> {
        match listers(
            self.alloc,
            &mut self.buckets,
            StoreMap::RelationsOfNodes,
            id,
        ) {
            Ok(ids) => Ok(ids),
            Err(fault) => {
                self.stopped = Some(fault);
                Err(fault)
            }
        }
    }

    fn relations_of_way(&mut self, id: u64) -> Result<Ids, StoreFault> {
        match listers(self.alloc, &mut self.buckets, StoreMap::RelationsOfWays, id) {
            Ok(ids) => Ok(ids),
            Err(fault) => {
                self.stopped = Some(fault);
                Err(fault)
            }
        }
    }

    ghost bears_fewer = { λ indexed fewer more refusal le bears. bears_fewer indexed.buckets indexed.stopped fewer more refusal le bears };

    ghost asks_none = { λ indexed. asked_none indexed.buckets indexed.stopped };

    ghost asks_then = { λ first second third before after once again. asked_then before after first.buckets second.buckets third.buckets first.stopped second.stopped third.stopped once again };
}
