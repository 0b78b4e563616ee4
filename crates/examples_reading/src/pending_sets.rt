//! Examples of the objects whose rows a change may change.
use crate::changes::{change_of, fold_files};
use crate::key::put_number;
use dep_closure::{PendingFault, pending};
use example_table::{bytes_of, named_row, number_in};
use object_fold::{Change, ObjectIndex, Objects};
use osm_base::{Limits, PendingSet};
use std::alloc::{AllocError, Global};
use style_read::{Style, read_style};

/// Adds what `STYLE FILE CHANGE LIMIT` finds: the keys of the objects that are pending.
pub fn sets(alloc: Global, found: &mut Vec<u8>, given: &str) -> Result<bool, AllocError> {
    let Some((style, rest)) = named_row(given) else {
        return Ok(false);
    };
    match style_of(alloc, style) {
        Some(style) => set_of(alloc, found, &style, rest),
        None => Ok(false),
    }
}

/// The style that a field writes.
fn style_of(alloc: Global, field: &str) -> Option<Style> {
    match bytes_of(alloc, field) {
        Ok(Some(bytes)) => read_style(alloc, &bytes).ok(),
        _ => None,
    }
}

/// The fields `FILE CHANGE LIMIT`.
#[derive(Clone, Copy)]
struct Fields<'a> {
    file: &'a str,
    change: &'a str,
    limits: Limits,
}

/// The fields that a text has.
fn fields_of(text: &str) -> Option<Fields<'_>> {
    let (file, text) = named_row(text)?;
    let (change, limit) = named_row(text)?;
    let mut numbers = Limits::standard().numbers();
    numbers.pending = number_in(limit)?;
    let limits = Limits::new(numbers)?;
    Some(Fields {
        file,
        change,
        limits,
    })
}

/// Adds the keys of what is pending with a style.
fn set_of(
    alloc: Global,
    found: &mut Vec<u8>,
    style: &Style,
    text: &str,
) -> Result<bool, AllocError> {
    let Some(fields) = fields_of(text) else {
        return Ok(false);
    };
    match change_of(alloc, fields.change) {
        Some(change) => set_after(alloc, found, style, &fields, &change),
        None => Ok(false),
    }
}

/// Adds the keys of what is pending after a change.
fn set_after(
    alloc: Global,
    found: &mut Vec<u8>,
    style: &Style,
    fields: &Fields<'_>,
    change: &Change,
) -> Result<bool, AllocError> {
    let mut old = Objects::new(alloc);
    if fold_files(alloc, &mut old, fields.file) {
        set_between(alloc, found, style, fields, change, &old)
    } else {
        Ok(false)
    }
}

/// Adds the keys of what is pending between the objects before a change and those after it.
fn set_between(
    alloc: Global,
    found: &mut Vec<u8>,
    style: &Style,
    fields: &Fields<'_>,
    change: &Change,
    old: &Objects,
) -> Result<bool, AllocError> {
    let mut new = Objects::new(alloc);
    let file = fold_files(alloc, &mut new, fields.file);
    if fold_files(alloc, &mut new, fields.change) && file {
        put_set(alloc, found, style, change, &new, old, &fields.limits)
    } else {
        Ok(false)
    }
}

/// Adds the keys of what is pending, or why it is not told.
fn put_set(
    alloc: Global,
    found: &mut Vec<u8>,
    style: &Style,
    change: &Change,
    new: &Objects,
    old: &Objects,
    limits: &Limits,
) -> Result<bool, AllocError> {
    match pending(
        alloc,
        style,
        change,
        &mut ObjectIndex::new(new),
        old,
        limits,
    ) {
        Ok(set) => put_keys(alloc, found, &set)?,
        Err(PendingFault::TooMany { value }) => put_number(alloc, found, "many ", value)?,
        Err(_) => return Ok(false),
    }
    Ok(true)
}

/// Adds the keys of a set, with blanks between.
fn put_keys(alloc: Global, found: &mut Vec<u8>, set: &PendingSet) -> Result<(), AllocError> {
    put_ids(alloc, found, "n", set.nodes())?;
    put_ids(alloc, found, "w", set.ways())?;
    put_ids(alloc, found, "r", set.relations())
}

/// Adds the keys of one kind.
fn put_ids(alloc: Global, found: &mut Vec<u8>, kind: &str, ids: &[u64]) -> Result<(), AllocError> {
    for id in ids {
        if !found.is_empty() {
            found.push(b' ')?;
        }
        put_number(alloc, found, kind, *id)?;
    }
    Ok(())
}
