//! Examples of files of entries that are folded one after another.
ghost use Rattle.std.specs.Prelude.{◌≡◌, false};

use crate::entries::read_entries;
use crate::key::put_number;
use crate::questions::put_answers;
use dep_closure::ways_due;
use example_table::{bytes_of, named_row};
use object_fold::{Change, ObjectIndex, Objects};
use osm_base::{Back, Ids, Limits};
use std::alloc::{AllocError, Global};

/// The change of a file that a field writes; `-` is an empty file. `None`: it has no change.
pub fn change_of(alloc: Global, field: &str) -> Option<Change> {
    let field = if field == "-" { "" } else { field };
    match bytes_of(alloc, field) {
        Ok(Some(file)) => read_entries(alloc, &Limits::standard(), file, 0).ok(),
        _ => None,
    }
}

/// Folds the change of a file into objects. False: the file has none, or memory ran out.
fn fold_file(alloc: Global, objects: &mut Objects, field: &str) -> bool {
    match change_of(alloc, field) {
        Some(change) => objects.fold(change).is_ok(),
        None => false,
    }
}

/// Folds the changes of files into objects. False: a file has none, or memory ran out.
pub fn fold_files(alloc: Global, objects: &mut Objects, files: &str) -> bool {
    for field in files.split_ascii_whitespace() {
        if !fold_file(alloc, objects, field) {
            return false;
        }
    }
    true
}

/// Adds the questions to the objects after some files, up to the first that is answered otherwise.
pub fn folds(
    alloc: Global,
    found: &mut Vec<u8>,
    files: &str,
    questions: &str,
) -> Result<bool, AllocError> {
    let mut objects = Objects::new(alloc);
    if fold_files(alloc, &mut objects, files) {
        put_answers(found, &mut objects, questions)
    } else {
        Ok(false)
    }
}

/// Adds what `FILE CHANGE` finds: the ids of the ways that the change makes due.
pub fn ways(alloc: Global, found: &mut Vec<u8>, files: &str) -> Result<bool, AllocError> {
    let Some((_, field)) = named_row(files) else {
        return Ok(false);
    };
    match change_of(alloc, field) {
        Some(change) => ways_after(alloc, found, files, &change),
        None => Ok(false),
    }
}

/// Adds the ids of the ways that a change makes due, the last of some files.
fn ways_after(
    alloc: Global,
    found: &mut Vec<u8>,
    files: &str,
    change: &Change,
) -> Result<bool, AllocError> {
    let mut objects = Objects::new(alloc);
    if fold_files(alloc, &mut objects, files) {
        put_ways(alloc, found, change, &mut objects)
    } else {
        Ok(false)
    }
}

/// Adds the ids of the ways that a change makes due, as both the objects and an index of them tell.
fn put_ways(
    alloc: Global,
    found: &mut Vec<u8>,
    change: &Change,
    objects: &mut Objects,
) -> Result<bool, AllocError> {
    let mut again = Vec::new(alloc);
    put_due(alloc, &mut again, change, &mut ObjectIndex::new(objects))?;
    put_due(alloc, found, change, objects)?;
    Ok(again.as_slice() == found.as_slice())
}

/// Adds the ids of the ways that a change makes due, with blanks between.
fn put_due<B: Back>(
    alloc: Global,
    found: &mut Vec<u8>,
    change: &Change,
    back: &mut B,
) -> Result<(), AllocError>
where
    B::Refusal: Drop,
    requires { B.spent back.old ≡ false }
{
    match ways_due(alloc, change, back) {
        Ok(ids) => put_ids(alloc, found, &ids),
        Err(_) => found.extend_from_slice(b"refused"),
    }
}

/// Adds ids with blanks between.
fn put_ids(alloc: Global, found: &mut Vec<u8>, ids: &Ids) -> Result<(), AllocError> {
    for id in ids.as_slice() {
        let before = if found.is_empty() { "" } else { " " };
        put_number(alloc, found, before, *id)?;
    }
    Ok(())
}
