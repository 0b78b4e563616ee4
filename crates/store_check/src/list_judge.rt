//! Lists of a store, compared with what is told of them.
ghost use Rattle.std.specs.Prelude.{◌≡◌, ◌≤◌, ◌<◌, ◌↔◌, ℕ, Some, IfOk, IsTrue, get_or, length};
ghost use Rattle.std.specs.FinMap as finite;
ghost use Rattle.std.specs.List.{AllByRecursion};
ghost use Rattle.osm_base.specs.values.Ids.{has};
ghost use Rattle.bucket_records.specs.Records.{BucketMap};
ghost use Rattle.row_store.specs.Loading.{Among};
ghost use Rattle.back_index.specs.Filling.{IsKeptAt, mentions_tell};
ghost use Rattle.back_index.specs.declared.mentions.Mention.{Mention as MentionOf};
ghost use Rattle.store_check.specs.Wrong.{IsLeastOf};

use crate::least::Least;
use crate::mentions::Mentions;
use back_index::read_ids;
use object_fold::RisingIds;
use osm_base::{Bytes, OutOfMemory};
use std::alloc::Global;
use value_bytes::ValueFault;

/// The least key of these records of a map of lists whose list is not the one that is told.
pub(crate) fn wrong_among(
    alloc: Global,
    mentions: &Mentions,
    records: &[(u64, Bytes)],
) -> Result<Option<u64>, OutOfMemory>
    ensures least { IfOk result (λ found. (kept : BucketMap) → AllByRecursion (λ one. finite.get kept one.0 ≡ Some one.1) records.now
        → IsLeastOf (Among records.now) (IsKeptAt (mentions_tell mentions.now.all.now) kept) found) }
{
    let mut least = Least::new();
    for (key, bytes) in records {
        let is_told = is_told_list(alloc, mentions, *key, bytes.as_slice())?;
        least.see(*key, is_told);
    }
    Ok(least.key())
}

/// Whether these are the bytes of the list of an id: the rising ids of those that are told to list it.
fn is_told_list(
    alloc: Global,
    mentions: &Mentions,
    id: u64,
    bytes: &[u8],
) -> Result<bool, OutOfMemory>
    ensures told { IfOk result (λ told. (kept : BucketMap) → finite.get kept id ≡ Some bytes.now
        → (IsTrue told ↔ IsKeptAt (mentions_tell mentions.now.all.now) kept id)) }
{
    let list = match read_ids(alloc, bytes) {
        Ok(list) => list,
        Err(ValueFault::NotSpelled) => return Ok(false),
        Err(ValueFault::OutOfMemory) => return Err(OutOfMemory),
    };
    let told = ids_told(alloc, mentions, id)?;
    Ok(told.as_slice() == list.as_slice())
}

/// Those that are told to list an id.
fn ids_told(alloc: Global, mentions: &Mentions, id: u64) -> Result<RisingIds, OutOfMemory>
    ensures told { IfOk result (λ ids. (by : ℕ) → has ids by ≡ mentions_tell mentions.now.all.now id by) }
{
    let mut at = first_of(mentions, id);
    let mut ids = Vec::new(alloc);
    while at < mentions.all.len() && mentions.all[at].id == id {
        ids.push(mentions.all[at].own)?;
        at += 1;
    }
    Ok(RisingIds::from_vec(ids))
}

/// Where the mentions of an id begin, or would.
fn first_of(mentions: &Mentions, id: u64) -> usize
    ensures within { result ≤ length mentions.now.all.now }
    ensures before { (place : ℕ) (own : MentionOf) → place < result → (get_or mentions.now.all.now place own).id < id }
    ensures behind { (place : ℕ) (own : MentionOf) → result ≤ place → place < length mentions.now.all.now → id ≤ (get_or mentions.now.all.now place own).id }
{
    mentions.all.partition_point(|mention| mention.id < id)
}
