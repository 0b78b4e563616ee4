//! Examples of tags.
use example_table::words_of;
use osm_base::{OutOfMemory, TagList, Tags, TryCopy};
use std::alloc::{AllocError, Global};

/// Adds the keys of tags in their order, each also its value, or `twice`.
pub fn tags(
    alloc: Global,
    found: &mut Vec<u8>,
    first: &str,
    others: &str,
) -> Result<bool, AllocError> {
    let all = format!(in alloc; "{first} {others}")?;
    match words_of(alloc, &all)? {
        Some(keys) => put_tags(alloc, found, &keys),
        None => Ok(false),
    }
}

/// The key that a word of a row stands for; `-` is the empty one.
fn key_of(word: &str) -> &str {
    if word == "-" { "" } else { word }
}

/// Adds the keys of tags of these words, or `twice`.
fn put_tags(alloc: Global, found: &mut Vec<u8>, words: &[String]) -> Result<bool, AllocError> {
    let Ok(list) = list_of(alloc, words) else {
        return Ok(false);
    };
    match list.into_tags() {
        Some(tags) => put_keys(alloc, found, &tags, words)?,
        None => found.extend_from_slice(b"twice")?,
    }
    Ok(true)
}

/// Tags of these keys, each with its key as the value.
fn list_of(alloc: Global, words: &[String]) -> Result<TagList, OutOfMemory> {
    let mut list = TagList::with_room(alloc, words.len(), words.len())?;
    for word in words {
        list.push(key_of(word), key_of(word))?;
    }
    Ok(list)
}

/// Adds the keys of tags in their order, if these and their copy have the values of the keys and no other.
fn put_keys(
    alloc: Global,
    found: &mut Vec<u8>,
    tags: &Tags,
    words: &[String],
) -> Result<(), AllocError> {
    if !are_of(tags, words) || !is_copied(alloc, tags, words) {
        return found.extend_from_slice(b"other tags");
    }
    for place in 0..tags.len() {
        if place > 0 {
            found.push(b' ')?;
        }
        let (key, _) = tags.nth(place);
        let key = if key.is_empty() { "-" } else { key };
        found.extend_from_slice(key.as_bytes())?;
    }
    Ok(())
}

/// Whether a copy of tags has the values of these keys and no other.
fn is_copied(alloc: Global, tags: &Tags, words: &[String]) -> bool {
    match tags.copy(alloc) {
        Ok(copy) => are_of(&copy, words),
        Err(_) => false,
    }
}

/// Whether tags have the values of these keys and no other.
fn are_of(tags: &Tags, words: &[String]) -> bool {
    for word in words {
        if !has_its_value(tags, key_of(word)) {
            return false;
        }
    }
    !tags.is_empty() && tags.len() == words.len() && tags.get("nam").is_none()
}

/// Whether a key has itself as its value.
fn has_its_value(tags: &Tags, key: &str) -> bool {
    match tags.get(key) {
        Some(value) => value == key,
        None => false,
    }
}
