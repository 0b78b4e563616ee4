//! What objects list, told one id at a time.
ghost use Rattle.std.specs.Prelude.{◌≡◌, ℕ, ◌&&◌, ◌||◌, true, nat_eq, IfOk, OnOk, IsTrue};
ghost use Rattle.std.specs.List.Sorted.{IsNonDecreasingBy, IsPermutation};
ghost use Rattle.osm_base.specs.values.Ids.{has};
ghost use Rattle.osm_base.specs.values.Key.{IsId};
ghost use Rattle.back_index.specs.Filling.{ByIds, id_of, is_told, mentions_tell};
ghost use Rattle.back_index.specs.Listed.{entry_ids, ids_in, lister_in, map_told};

use crate::listed_ids::{ids_in, listed_in};
use osm_base::{Entry, Kind, Object, OutOfMemory};
use std::alloc::Global;
use value_bytes::StoreMap;

/// An id that an object lists.
#[derive(Clone, Copy, PartialEq, Eq)]
pub struct Mention {
    /// The block, the node or the way that is listed.
    pub id: u64,
    /// The way or the relation that lists it.
    pub own: u64,
}

/// What the objects of these entries list in a map of the index, in the order of what is listed.
pub fn told(alloc: Global, map: StoreMap, entries: &[Entry]) -> Result<Vec<Mention>, OutOfMemory>
    ensures told { IfOk result (λ mentions. (id by : ℕ) → mentions_tell mentions.items id by ≡ map_told map entries.now id by) }
    ensures ids { IfOk result (λ mentions. ByIds (mentions_tell mentions.items)) }
    ensures order { IfOk result (λ mentions. IsNonDecreasingBy id_of mentions.items) }
{
    let mut mentions = all_told(alloc, map, entries)?;
    sort_mentions(&mut mentions);
    Ok(mentions)
}

/// The same in the order of the entries.
fn all_told(alloc: Global, map: StoreMap, entries: &[Entry]) -> Result<Vec<Mention>, OutOfMemory>
    ensures told { IfOk result (λ mentions. (id by : ℕ) → mentions_tell mentions.items id by ≡ map_told map entries.now id by) }
    ensures ids { IfOk result (λ mentions. ByIds (mentions_tell mentions.items)) }
{
    let mut mentions = Vec::new(alloc);
    for entry in entries {
        let ids = entry_ids(alloc, map, entry)?;
        add_all(&mut mentions, ids.as_slice(), entry.key.id)?;
    }
    Ok(mentions)
}

/// What an entry's object lists in a map of the index, where its key is of those that list something there.
fn entry_ids(alloc: Global, map: StoreMap, entry: &Entry) -> Result<Vec<u64>, OutOfMemory>
    ensures ids { IfOk result (λ ids. ids.items ≡ entry_ids map entry.now) }
{
    if lister_in(map) == entry.key.kind {
        listed_in(alloc, map, &entry.object)
    } else {
        Ok(Vec::new(alloc))
    }
}

/// Of which kind those are that list something in a map of the index.
fn lister_in(map: StoreMap) -> Kind
    ensures { result ≡ lister_in map }
{
    match map {
        StoreMap::WaysOfBlocks => Kind::Way,
        _ => Kind::Relation,
    }
}

/// Adds what an object lists in a map of the index, as told of this id. For a map of lists, an object of the kind of those that list
/// something there.
pub fn add_listed(
    alloc: Global,
    map: StoreMap,
    own: u64,
    object: &Object,
    mentions: &mut Vec<Mention>,
) -> Result<(), OutOfMemory>
    ensures told { OnOk result ((id by : ℕ) → mentions_tell mentions.new.items id by
        ≡ (mentions_tell mentions.old.items id by || (has (ids_in map object.now) id && nat_eq own by))) }
    ensures ids { OnOk result (IsId own → ByIds (mentions_tell mentions.old.items) → ByIds (mentions_tell mentions.new.items)) }
{
    let ids = ids_in(alloc, map, object)?;
    add_all(mentions, ids.as_slice(), own)
}

/// Adds that these ids are listed by this one.
fn add_all(mentions: &mut Vec<Mention>, ids: &[u64], own: u64) -> Result<(), OutOfMemory>
    ensures told { OnOk result ((id by : ℕ) → mentions_tell mentions.new.items id by
        ≡ (mentions_tell mentions.old.items id by || (has ids.now id && nat_eq own by))) }
    ensures ids { OnOk result (IsId own → ByIds (mentions_tell mentions.old.items) → ByIds (mentions_tell mentions.new.items)) }
{
    for &id in ids {
        add(mentions, Mention { id, own })?;
    }
    Ok(())
}

/// Adds what is told, unless it was told last.
fn add(mentions: &mut Vec<Mention>, mention: Mention) -> Result<(), OutOfMemory>
    ensures told { OnOk result ((id by : ℕ) → mentions_tell mentions.new.items id by ≡ (mentions_tell mentions.old.items id by || is_told mention id by)) }
{
    if ends_with(mentions.as_slice(), mention) {
        return Ok(());
    }
    mentions.push(mention)?;
    Ok(())
}

/// Whether this was told last.
fn ends_with(mentions: &[Mention], mention: Mention) -> bool
    ensures told { IsTrue result → (id by : ℕ) → is_told mention id by ≡ true → mentions_tell mentions.now id by ≡ true }
{
    match mentions.last() {
        Some(last) => last.id == mention.id && last.own == mention.own,
        None => false,
    }
}

/// Puts what is told in the order of the ids that are listed.
pub fn sort_mentions(mentions: &mut Vec<Mention>)
    ensures permutation { IsPermutation mentions.old.items mentions.new.items }
    ensures rising { IsNonDecreasingBy id_of mentions.new.items }
{
    mentions.sort_unstable_by_key(|mention| mention.id);
}
