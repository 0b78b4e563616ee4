//! What both readers give of a line.

use opl_object::{LineRefused, Why, read_line, read_line_exactly};
use osm_base::{Entry, Ids, Members, Object, Place, Same, Tags};
use std::alloc::Global;

/// What a line came to.
#[derive(Clone, Copy)]
pub enum Outcome {
    Skipped,
    Entry,
    Refused(Why),
}

/// What both readers give of a line. `None`: they differ, or memory ran out.
pub fn outcome_of(alloc: Global, line: &[u8]) -> Option<Outcome> {
    agreed(&read(alloc, line), &read_exactly(alloc, line))
}

/// What the reader of a file gives of a line.
fn read(alloc: Global, line: &[u8]) -> Result<Option<Entry>, LineRefused> {
    read_line(alloc, line)
}

/// What the other reader gives of a line.
fn read_exactly(alloc: Global, line: &[u8]) -> Result<Option<Entry>, LineRefused> {
    read_line_exactly(alloc, line)
}

/// What two readings of a line come to, if they are the same.
fn agreed(
    one: &Result<Option<Entry>, LineRefused>,
    other: &Result<Option<Entry>, LineRefused>,
) -> Option<Outcome> {
    match (one, other) {
        (Ok(entry), Ok(other)) => agreed_entry(entry, other),
        (Err(LineRefused::Bad(why)), Err(LineRefused::Bad(other))) if why == other => Some(
            Outcome::Refused(*why),
        ),
        _ => None,
    }
}

/// What two entries come to, if they are the same.
fn agreed_entry(entry: &Option<Entry>, other: &Option<Entry>) -> Option<Outcome> {
    match (entry, other) {
        (None, None) => Some(Outcome::Skipped),
        (Some(entry), Some(other)) if are_same(entry, other) => Some(Outcome::Entry),
        _ => None,
    }
}

/// Whether two entries are the same.
fn are_same(entry: &Entry, other: &Entry) -> bool {
    if entry.key != other.key {
        return false;
    }
    match (&entry.object, &other.object) {
        (None, None) => true,
        (Some(object), Some(other)) => are_same_objects(object, other),
        _ => false,
    }
}

/// Whether two objects are the same.
fn are_same_objects(object: &Object, other: &Object) -> bool {
    match (object, other) {
        (
            Object::Node { place, tags },
            Object::Node {
                place: other,
                tags: others,
            },
        ) => { are_same_places(place, other) && are_same_tags(tags, others) }
        (
            Object::Way { nodes, tags },
            Object::Way {
                nodes: other,
                tags: others,
            },
        ) => { are_same_ids(nodes, other) && are_same_tags(tags, others) }
        (
            Object::Relation { members, tags },
            Object::Relation {
                members: other,
                tags: others,
            },
        ) => { are_same_members(members, other) && are_same_tags(tags, others) }
        _ => false,
    }
}

/// Whether two places are the same, or there is none.
fn are_same_places(place: &Option<Place>, other: &Option<Place>) -> bool {
    match (place, other) {
        (None, None) => true,
        (Some(place), Some(other)) => place.is_same(other),
        _ => false,
    }
}

/// Whether two lists of ids are the same.
fn are_same_ids(ids: &Ids, others: &Ids) -> bool {
    ids.as_slice() == others.as_slice()
}

/// Whether two lists of members are the same.
fn are_same_members(members: &Members, others: &Members) -> bool {
    if members.as_slice().len() != others.as_slice().len() {
        return false;
    }
    for (member, other) in members.as_slice().iter().zip(others.as_slice()) {
        if member.key != other.key || !member.role.is_same(&other.role) {
            return false;
        }
    }
    true
}

/// Whether two objects have the same tags.
fn are_same_tags(tags: &Tags, others: &Tags) -> bool {
    if tags.len() != others.len() {
        return false;
    }
    for index in 0..tags.len() {
        if tags.nth(index) != others.nth(index) {
            return false;
        }
    }
    true
}
