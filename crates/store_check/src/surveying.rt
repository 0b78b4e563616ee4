//! All chains of a store are read once, and all pages looked for in one.
ghost use Rattle.std.specs.Prelude.{◌≡◌, ◌<◌, ◌≤◌, ◌∷◌, [], List, ℕ, flat_map, length, false, OnOk};
ghost use Rattle.std.specs.List.{range_with_len};
ghost use Rattle.page_journal.specs.Journal.{home_count};
ghost use Rattle.chain_store.specs.Chains.{journal_of, kept_of};
ghost use Rattle.chain_store.specs.declared.layout.TheConstants.{FREE};
ghost use Rattle.value_bytes.specs.StoreMap.{map_number};
ghost use Rattle.bucket_store.specs.Buckets.{bucket_count};
ghost use Rattle.bucket_store.specs.Calls.{IsBegun};
ghost use Rattle.bucket_store.specs.Image.{Has, Image, IsSoundAnswer, bucket_chain};
ghost use Rattle.bucket_store.specs.Transaction.{IsOpenStore, chains_of, has_refused};
ghost use Rattle.row_store.specs.Loading.{Looks};
ghost use Rattle.store_check.specs.BadPage.{Surveys, chains_in, loads};
ghost use Rattle.store_check.specs.Marks.{is_marked};
ghost use Rattle.store_check.specs.Surveying.{IsFresh, LoadsChains, MarksOthers, TellsPages};

use crate::PageMarks;
use bucket_store::Buckets;
use osm_base::Ids;
use outside::Disk;
use page_journal::StoreFault;
use std::alloc::Global;
use value_bytes::StoreMap;

/// Reads the texts of the style and of the due tiles, each bucket and the free pages once, a bucket at a time. `BadStore` comes with
/// the page of the first of them that is refused or, where none is, with the lowest page that is in no chain and not free. The other
/// texts and the directories only count as chains here: one that is refused has no pages.
pub fn survey<D: Disk>(alloc: Global, buckets: &mut Buckets<'_, D>) -> Result<(), StoreFault>
    requires begun { IsBegun buckets.old }
    requires going { has_refused buckets.old ≡ false }
    ensures answers { (pages : List (List ℕ)) → IsOpenStore pages buckets.old → Surveys pages (kept_of (chains_of buckets.old)) result }
    ensures open { OnOk result ((pages : List (List ℕ)) → IsOpenStore pages buckets.old → IsOpenStore pages buckets.new) }
    ensures begun { OnOk result (IsBegun buckets.new) }
    ensures sound { (rest : Image) → Has rest rest buckets.old → IsSoundAnswer result }
    ensures looks { Looks buckets.old buckets.new result }
{
    match PageMarks::new(alloc, buckets.pages()) {
        Ok(mut marks) => survey_all(buckets, &mut marks),
        Err(_) => {
            buckets.refuse();
            Err(StoreFault::OutOfMemory)
        }
    }
}

// The same, with no page marked at first.
fn survey_all<D: Disk>(
    buckets: &mut Buckets<'_, D>,
    marks: &mut PageMarks,
) -> Result<(), StoreFault>
    requires fresh { IsFresh buckets.old }
    requires many { length marks.old ≡ home_count (journal_of (chains_of buckets.old)) }
    requires none { (page : ℕ) → page < length marks.old → is_marked marks.old page ≡ false }
    ensures answers { (pages : List (List ℕ)) → IsOpenStore pages buckets.old → Surveys pages (kept_of (chains_of buckets.old)) result }
    ensures open { OnOk result ((pages : List (List ℕ)) → IsOpenStore pages buckets.old → IsOpenStore pages buckets.new) }
    ensures begun { OnOk result (IsBegun buckets.new) }
    ensures looks { Looks buckets.old buckets.new result }
{
    let count = buckets.root().buckets;
    if let Err(fault) = load_all(buckets, marks, count) {
        return Err(fault);
    }
    if let Err(fault) = mark_others(buckets, marks) {
        return Err(fault);
    }
    match marks.first_left() {
        Some(page) => {
            buckets.refuse();
            Err(StoreFault::BadStore { page })
        }
        None => Ok(()),
    }
}

// The style, the due tiles, each bucket and the free pages are loaded, and their pages marked.
fn load_all<D: Disk>(
    buckets: &mut Buckets<'_, D>,
    marks: &mut PageMarks,
    count: u64,
) -> Result<(), StoreFault>
    requires fresh { IsFresh buckets.old }
    requires count { count ≡ bucket_count (chains_of buckets.old) }
    ensures loads { LoadsChains (loads count) buckets.old buckets.new marks.old marks.new result }
{
    if let Err(fault) = load_text(buckets, marks, 1) {
        return Err(fault);
    }
    if let Err(fault) = load_text(buckets, marks, 2) {
        return Err(fault);
    }
    if let Err(fault) = load_maps(buckets, marks, count) {
        return Err(fault);
    }
    match load_free(buckets, marks) {
        Ok(()) => Ok(()),
        Err(fault) => Err(fault),
    }
}

// The buckets of the eight maps, one map after the other.
fn load_maps<D: Disk>(
    buckets: &mut Buckets<'_, D>,
    marks: &mut PageMarks,
    count: u64,
) -> Result<(), StoreFault>
    requires fresh { IsFresh buckets.old }
    requires count { count ≡ bucket_count (chains_of buckets.old) }
    ensures loads { LoadsChains (flat_map (chains_in count) (range_with_len 0 8)) buckets.old buckets.new marks.old marks.new result }
{
    let mut number = 0;
    while number < 8 {
        if let Err(fault) = load_map(buckets, marks, count, number) {
            return Err(fault);
        }
        number += 1;
    }
    Ok(())
}

// The buckets of the map with this number.
fn load_map<D: Disk>(
    buckets: &mut Buckets<'_, D>,
    marks: &mut PageMarks,
    count: u64,
    number: u64,
) -> Result<(), StoreFault>
    requires fresh { IsFresh buckets.old }
    requires count { count ≡ bucket_count (chains_of buckets.old) }
    requires map { number < 8 }
    ensures loads { LoadsChains (chains_in count number) buckets.old buckets.new marks.old marks.new result }
{
    match StoreMap::with_number(number) {
        Some(map) => match load_buckets(buckets, marks, count, map) {
            Ok(()) => Ok(()),
            Err(fault) => Err(fault),
        },
        None => {
            buckets.refuse();
            Err(StoreFault::OutOfMemory)
        }
    }
}

// The buckets of a map, one after the other.
fn load_buckets<D: Disk>(
    buckets: &mut Buckets<'_, D>,
    marks: &mut PageMarks,
    count: u64,
    map: StoreMap,
) -> Result<(), StoreFault>
    requires fresh { IsFresh buckets.old }
    requires count { count ≡ bucket_count (chains_of buckets.old) }
    ensures loads { LoadsChains (chains_in count (map_number map)) buckets.old buckets.new marks.old marks.new result }
{
    let mut bucket = 0;
    while bucket < count {
        if let Err(fault) = load_bucket(buckets, marks, map, bucket) {
            return Err(fault);
        }
        bucket += 1;
    }
    Ok(())
}

// A bucket is loaded, and let go once its pages are marked.
fn load_bucket<D: Disk>(
    buckets: &mut Buckets<'_, D>,
    marks: &mut PageMarks,
    map: StoreMap,
    bucket: u64,
) -> Result<(), StoreFault>
    requires fresh { IsFresh buckets.old }
    requires bucket { bucket < bucket_count (chains_of buckets.old) }
    ensures loads { LoadsChains (bucket_chain (map_number map) bucket ∷ []) buckets.old buckets.new marks.old marks.new result }
{
    match bucket_pages(buckets, map, bucket) {
        Ok(pages) => {
            marks.mark(&pages);
            buckets.begin();
            Ok(())
        }
        Err(fault) => Err(fault),
    }
}

// The pages of a bucket, whose records are read too.
fn bucket_pages<D: Disk>(
    buckets: &mut Buckets<'_, D>,
    map: StoreMap,
    bucket: u64,
) -> Result<Ids, StoreFault>
    requires fresh { IsFresh buckets.old }
    requires bucket { bucket < bucket_count (chains_of buckets.old) }
    ensures lists { TellsPages (bucket_chain (map_number map) bucket) buckets.old buckets.new result }
{
    let n = chain_of(map, bucket, buckets.root().buckets);
    if let Err(fault) = buckets.bring(map, bucket) {
        return Err(fault);
    }
    match buckets.pages_of(n) {
        Ok(pages) => Ok(pages),
        Err(fault) => Err(fault),
    }
}

// The chain of a bucket of a map.
fn chain_of(map: StoreMap, bucket: u64, count: u64) -> u32
    requires few { count ≤ 65536 }
    requires bucket { bucket < count }
    ensures { result ≡ bucket_chain (map_number map) bucket }
{
    16 + 65536 * u32::from(map.number()) + bucket as u32
}

// A text is loaded.
fn load_text<D: Disk>(
    buckets: &mut Buckets<'_, D>,
    marks: &mut PageMarks,
    n: u32,
) -> Result<(), StoreFault>
    requires fresh { IsFresh buckets.old }
    requires text { n < 8 }
    ensures loads { LoadsChains (n ∷ []) buckets.old buckets.new marks.old marks.new result }
{
    match buckets.pages_of(n) {
        Ok(pages) => {
            marks.mark(&pages);
            buckets.begin();
            Ok(())
        }
        Err(fault) => Err(fault),
    }
}

// The free pages are read.
fn load_free<D: Disk>(buckets: &mut Buckets<'_, D>, marks: &mut PageMarks) -> Result<(), StoreFault>
    requires fresh { IsFresh buckets.old }
    ensures loads { LoadsChains (FREE ∷ []) buckets.old buckets.new marks.old marks.new result }
{
    match buckets.free_pages() {
        Ok(pages) => {
            marks.mark(&pages);
            buckets.begin();
            Ok(())
        }
        Err(fault) => Err(fault),
    }
}

// The pages of the directories are marked, and those of the chains that are to be empty.
fn mark_others<D: Disk>(
    buckets: &mut Buckets<'_, D>,
    marks: &mut PageMarks,
) -> Result<(), StoreFault>
    requires fresh { IsFresh buckets.old }
    ensures marks { MarksOthers (0 ∷ range_with_len 3 13) buckets.old buckets.new marks.old marks.new result }
{
    if let Err(fault) = mark_other(buckets, marks, 0) {
        return Err(fault);
    }
    match mark_range(buckets, marks) {
        Ok(()) => Ok(()),
        Err(fault) => Err(fault),
    }
}

// Those of chains 3 to 15.
fn mark_range<D: Disk>(
    buckets: &mut Buckets<'_, D>,
    marks: &mut PageMarks,
) -> Result<(), StoreFault>
    requires fresh { IsFresh buckets.old }
    ensures marks { MarksOthers (range_with_len 3 13) buckets.old buckets.new marks.old marks.new result }
{
    let mut n = 3;
    while n < 16 {
        if let Err(fault) = mark_other(buckets, marks, n) {
            return Err(fault);
        }
        n += 1;
    }
    Ok(())
}

// The pages of a chain are marked where it is well formed.
fn mark_other<D: Disk>(
    buckets: &mut Buckets<'_, D>,
    marks: &mut PageMarks,
    n: u32,
) -> Result<(), StoreFault>
    requires fresh { IsFresh buckets.old }
    requires other { n < 16 }
    ensures marks { MarksOthers (n ∷ []) buckets.old buckets.new marks.old marks.new result }
{
    match buckets.pages_of(n) {
        Ok(pages) => {
            marks.mark(&pages);
            buckets.begin();
            Ok(())
        }
        Err(StoreFault::BadStore { page: _ }) => {
            buckets.begin();
            Ok(())
        }
        Err(fault) => Err(fault),
    }
}
