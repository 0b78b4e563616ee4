//! Laws of what a transaction reads, and of the numbers that code and definitions share.
ghost use Rattle.std.specs.Prelude.{◌≡◌, ℕ};
ghost use Rattle.std.specs.FinMap as map;
ghost use Rattle.chain_store.specs.declared.layout.TheConstants.{BUCKET, BUCKETS_AT, CHAIN_END, CHANGES_AT, DIRECTORY, FIRSTS_AT, FORMAT_AT, FREE, FREE_AT, HELD, HOME_AT, LINK, MAPS, MAX_BUCKETS, PAGE, STATE_AT};
ghost use Rattle.chain_store.specs.Known.{Lists, MayRead};
ghost use Rattle.chain_store.specs.Reads.{ReadsWithin, pages_read};

use outside::Disk;

/// The reads of a transaction add up: from its beginning on there were at most as many as the chains have pages that
/// it has read.
pub fn reads_add_up<D: Disk>()
    ensures begun { pages_read map.empty ≡ 0 }
    ensures call { (end n : ℕ) (old new : Lists) (before after : D) → MayRead end n old new (D.view before) (D.view after)
        → ReadsWithin old new (D.view before) (D.view after) }
    ensures on { (old mid new : Lists) (before between after : D) → ReadsWithin old mid (D.view before) (D.view between)
        → ReadsWithin mid new (D.view between) (D.view after) → ReadsWithin old new (D.view before) (D.view after) }
{}

/// The numbers that code and definitions share are those of the format.
pub fn shared_numbers()
    ensures page { PAGE ≡ 4096 }
    ensures link { LINK ≡ 16 }
    ensures held { HELD ≡ 4080 }
    ensures free { FREE ≡ 4294967295 }
    ensures directory { DIRECTORY ≡ 8 }
    ensures maps { MAPS ≡ 8 }
    ensures bucket { BUCKET ≡ 16 }
    ensures max_buckets { MAX_BUCKETS ≡ 65536 }
    ensures chain_end { CHAIN_END ≡ 524304 }
    ensures home_at { HOME_AT ≡ 0 }
    ensures format_at { FORMAT_AT ≡ 8 }
    ensures state_at { STATE_AT ≡ 16 }
    ensures changes_at { CHANGES_AT ≡ 24 }
    ensures buckets_at { BUCKETS_AT ≡ 32 }
    ensures free_at { FREE_AT ≡ 40 }
    ensures firsts_at { FIRSTS_AT ≡ 48 }
{}
