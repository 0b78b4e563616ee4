//! Objects and pending sets of examples.
ghost use Rattle.std.specs.Prelude.{◌≡◌, ◌≤◌, true, IfSome, length, ◌+◌};
ghost use Rattle.std.specs.List.{AllByRecursion};
ghost use Rattle.osm_base.specs.values.Ids.{AreRisingIds};
ghost use Rattle.osm_base.specs.values.Key.{IsId};

use crate::refusal::Refusal;
use doubles::{Fails, MemInputs};
use example_table::{bytes_of, number_in};
use object_fold::{Change, Objects, RisingIds};
use opl_files::read_file;
use osm_base::{Bytes, FileList, Ids, Limits, MAX_ID, PendingSet, TryCopy};
use std::alloc::Global;

/// The objects after the files that words write, one after another.
pub fn objects_of(alloc: Global, files: &str) -> Result<Objects, Refusal> {
    let mut objects = Objects::new(alloc);
    fold_files(alloc, files, &mut objects)?;
    Ok(objects)
}

/// Folds the files that words write into objects.
fn fold_files(alloc: Global, files: &str, objects: &mut Objects) -> Result<(), Refusal> {
    for word in files.split_ascii_whitespace() {
        match bytes_of(alloc, word)? {
            Some(file) => objects.fold(change_of(alloc, file)?)?,
            None => return Err(Refusal::NoRow),
        }
    }
    Ok(())
}

/// The change that a file says.
fn change_of(alloc: Global, file: Vec<u8>) -> Result<Change, Refusal> {
    let mut files = Vec::new(alloc);
    files.push(Bytes::from_vec(file))?;
    let mut inputs = MemInputs::new(FileList::from_vec(files), Fails::never(alloc));
    read(alloc, &mut inputs)
}

/// The change that the first file says, the contract left behind.
fn read(alloc: Global, inputs: &mut MemInputs) -> Result<Change, Refusal> {
    match read_file(alloc, inputs, 0, &Limits::standard()) {
        Ok(change) => Ok(change),
        Err(_) => Err(Refusal::NoRow),
    }
}

/// The keys that a word names, as `n2,w10,r20`, or none as `-`.
pub fn pending_of(alloc: Global, word: &str) -> Result<PendingSet, Refusal> {
    let mut nodes = Vec::new(alloc);
    let mut ways = Vec::new(alloc);
    let mut relations = Vec::new(alloc);
    push_ids(word, &mut nodes, &mut ways, &mut relations)?;
    set_of(nodes, ways, relations)
}

/// Adds the keys of a copy of the set that a word names, once the set itself is gone.
pub fn copied(alloc: Global, given: &str, out: &mut String) -> Result<(), Refusal> {
    let copy = copy_of(alloc, given)?;
    push_keys(copy.nodes(), 'n', out)?;
    push_keys(copy.ways(), 'w', out)?;
    push_keys(copy.relations(), 'r', out)
}

/// A copy of the set that a word names, which is dropped.
fn copy_of(alloc: Global, word: &str) -> Result<PendingSet, Refusal> {
    let set = pending_of(alloc, word)?;
    Ok(set.copy(alloc)?)
}

/// Adds ids, each behind the letter of its kind, with commas before all but the first of the text.
fn push_keys(ids: &[u64], letter: char, out: &mut String) -> Result<(), Refusal> {
    for id in ids {
        let comma = if out.is_empty() { "" } else { "," };
        let id = *id;
        write!(out, "{comma}{letter}{id}")?;
    }
    Ok(())
}

/// Adds the ids of the words between commas.
fn push_ids(
    words: &str,
    nodes: &mut Vec<u64>,
    ways: &mut Vec<u64>,
    relations: &mut Vec<u64>,
) -> Result<(), Refusal> {
    for word in words.split(',') {
        if let Some(id) = word.strip_prefix('n').and_then(number_in) {
            nodes.push(id)?;
        } else if let Some(id) = word.strip_prefix('w').and_then(number_in) {
            ways.push(id)?;
        } else if let Some(id) = word.strip_prefix('r').and_then(number_in) {
            relations.push(id)?;
        }
    }
    Ok(())
}

/// The nodes from 1 to a number.
pub fn nodes_to(alloc: Global, last: u64) -> Result<PendingSet, Refusal> {
    let mut ids = Vec::new(alloc);
    for id in 1..=last {
        ids.push(id)?;
    }
    set_of(ids, Vec::new(alloc), Vec::new(alloc))
}

/// The set of these ids, if they are ids.
fn set_of(nodes: Vec<u64>, ways: Vec<u64>, relations: Vec<u64>) -> Result<PendingSet, Refusal> {
    match (ids_of(nodes), ids_of(ways), ids_of(relations)) {
        (Some(nodes), Some(ways), Some(relations)) => Ok(PendingSet::new(nodes, ways, relations)),
        _ => Err(Refusal::NoRow),
    }
}

/// The ids of a vector, if they are ids.
fn ids_of(ids: Vec<u64>) -> Option<Ids>
    ensures ids { IfSome result AreRisingIds }
{
    let ids = RisingIds::from_vec(ids).into_ids();
    if are_ids(ids.as_slice()) {
        Some(ids)
    } else {
        None
    }
}

fn are_ids(ids: &[u64]) -> bool
    ensures ids { result ≡ true → AllByRecursion IsId ids.now }
{
    ids.iter().all(|&id| 1 <= id && id <= MAX_ID)
}
