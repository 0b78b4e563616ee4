//! Nodes, ways and relations, as rows of the table tell them.
ghost use Rattle.value_bytes.specs.Objects.{IsKept};

use crate::hex::{none, told};
use middle_nodes::{NodeRecord, read_old};
use middle_objs::{object_bytes, read_object};
use osm_base::{Kind, Member, Object, OutOfMemory, Place, Tags};
use std::alloc::{AllocError, Global};
use value_bytes::{ValueFault, bytes_of, read_whole};

/// The record of a node with these bytes.
pub fn node(alloc: Global, bytes: &[u8]) -> Result<Option<String>, OutOfMemory> {
    match read_whole::<NodeRecord>(alloc, bytes) {
        Ok(record) => {
            let again = bytes_of(alloc, &record)?;
            told(record_text(alloc, &record)?, bytes, again.as_slice())
        }
        Err(ValueFault::NotSpelled) => none(alloc),
        Err(ValueFault::OutOfMemory) => Err(OutOfMemory),
    }
}

/// The place of a node whose record in an old store has these bytes.
pub fn place(alloc: Global, bytes: &[u8]) -> Result<Option<String>, OutOfMemory> {
    match read_old(alloc, bytes) {
        Ok(place) => {
            let again = bytes_of(alloc, &place)?;
            told(place_text(alloc, place)?, bytes, again.as_slice())
        }
        Err(ValueFault::NotSpelled) => none(alloc),
        Err(ValueFault::OutOfMemory) => Err(OutOfMemory),
    }
}

/// The way with these bytes.
pub fn way(alloc: Global, bytes: &[u8]) -> Result<Option<String>, OutOfMemory> {
    match read_object(alloc, Kind::Way, bytes) {
        Ok(object) => object_told(alloc, Kind::Way, &object, bytes),
        Err(ValueFault::NotSpelled) => none(alloc),
        Err(ValueFault::OutOfMemory) => Err(OutOfMemory),
    }
}

/// The relation with these bytes.
pub fn relation(alloc: Global, bytes: &[u8]) -> Result<Option<String>, OutOfMemory> {
    match read_object(alloc, Kind::Relation, bytes) {
        Ok(object) => object_told(alloc, Kind::Relation, &object, bytes),
        Err(ValueFault::NotSpelled) => none(alloc),
        Err(ValueFault::OutOfMemory) => Err(OutOfMemory),
    }
}

/// What is told of an object that was read out of these bytes.
fn object_told(
    alloc: Global,
    kind: Kind,
    object: &Object,
    bytes: &[u8],
) -> Result<Option<String>, OutOfMemory>
    requires { IsKept kind object.now }
{
    let again = object_bytes(alloc, kind, object)?;
    told(object_text(alloc, object)?, bytes, again.as_slice())
}

/// A place or none, as a row says it.
pub fn place_text(alloc: Global, place: Option<Place>) -> Result<String, AllocError> {
    let mut text = String::new(alloc);
    push_place(&mut text, place)?;
    Ok(text)
}

/// A record, as a row says it.
pub fn record_text(alloc: Global, record: &NodeRecord) -> Result<String, AllocError> {
    let mut text = String::new(alloc);
    push_record(&mut text, record)?;
    Ok(text)
}

fn push_record(text: &mut String, record: &NodeRecord) -> Result<(), AllocError> {
    push_place(text, record.place)?;
    match &record.tags {
        Some(tags) => push_tags(text, tags),
        None => text.push_str(" unknown"),
    }
}

/// An object, as a row says it.
pub fn object_text(alloc: Global, object: &Object) -> Result<String, AllocError> {
    let mut text = String::new(alloc);
    push_object(&mut text, object)?;
    Ok(text)
}

fn push_object(text: &mut String, object: &Object) -> Result<(), AllocError> {
    match object {
        Object::Node { place, tags } => {
            push_place(text, *place)?;
            push_tags(text, tags)
        }
        Object::Way { nodes, tags } => {
            push_numbers(text, nodes.as_slice())?;
            push_tags(text, tags)
        }
        Object::Relation { members, tags } => {
            push_members(text, members.as_slice())?;
            push_tags(text, tags)
        }
    }
}

/// Adds `at LON LAT`, or `nowhere`.
fn push_place(text: &mut String, place: Option<Place>) -> Result<(), AllocError> {
    match place {
        Some(place) => write!(text, "at {} {}", place.lon, place.lat),
        None => text.push_str("nowhere"),
    }
}

/// Adds ` KEY=VALUE` for each tag.
fn push_tags(text: &mut String, tags: &Tags) -> Result<(), AllocError> {
    for index in 0..tags.len() {
        let (key, value) = tags.nth(index);
        write!(text, " {key}={value}")?;
    }
    Ok(())
}

/// Adds `(NUMBER)` for each number.
pub fn push_numbers(text: &mut String, numbers: &[u64]) -> Result<(), AllocError> {
    for number in numbers {
        write!(text, "({number})")?;
    }
    Ok(())
}

/// Adds `(KINDID ROLE)` for each member.
fn push_members(text: &mut String, members: &[Member]) -> Result<(), AllocError> {
    for member in members {
        push_member(text, member)?;
    }
    Ok(())
}

fn push_member(text: &mut String, member: &Member) -> Result<(), AllocError> {
    let letter = match member.key.kind {
        Kind::Node => "n",
        Kind::Way => "w",
        Kind::Relation => "r",
    };
    write!(text, "({letter}{} {})", member.key.id, member.role.as_str())
}
