//! A whole line.
ghost use Rattle.std.specs.Prelude.{◌≡◌, ◌≢◌, ◌↔◌, ◌≤◌, ◌≤ℤ◌, ◌∷◌, neg_ℤ, ℕ, List, Option, None, Some, Result, Ok, Err, IsFalse, IsSome, IfSome, IfOk, IfErr, IsOkAnd, length, take};
ghost use Rattle.std.specs.List.{before_first};
ghost use Rattle.std.specs.Str.{IsAscii};
ghost use Rattle.osm_base.specs.declared.values.object.Entry.{Entry};
ghost use Rattle.osm_base.specs.values.Key.{KeyOf};
ghost use Rattle.opl_object.specs.declared.why.Why.{Why};
ghost use Rattle.opl_object.specs.declared.why.Why.TheVariants.{Order};
ghost use Rattle.opl_object.specs.declared.why.LineRefused.TheVariants.{Bad};
ghost use Rattle.opl_object.specs.Meaning.{HasOneMeaning, TellsFault};
ghost use Rattle.opl_object.specs.Spells.{Spells};
ghost use Rattle.osm_base.specs.declared.values.place.TheConstants.{MAX_LON, MAX_LAT};
ghost use Rattle.opl_object.specs.Earth.{AreOnEarth};
ghost use Rattle.opl_object.specs.Faults.{HasFault};
ghost use Rattle.opl_object.specs.Fields.{is_blank, fields_of};
ghost use Rattle.opl_object.specs.Line.{IsSkipped, is_skipped, utf8_of, key_of, place_of, object_of, entry_of, entry_behind, entry_from, reading};
ghost use Rattle.opl_object.specs.Why.{Gives, Tells};
ghost use Rattle.opl_object.specs.Written.{IsWritable};

use crate::fields::{ends_at, next_field};
use crate::lanes::{LANES, begins_ascii};
use crate::members::kind_at;
use crate::number::{id_of, usual_id};
use crate::parts::{Parts, read_fields};
use crate::{LineRefused, Why};
use osm_base::{Entry, Key, Kind, Object, Place};
use std::alloc::Global;

/// The entry of a line; `None` where the line is skipped.
pub fn read_line(alloc: Global, line: &[u8]) -> Result<Option<Entry>, LineRefused>
    // The entry, or the first cause, unless memory ran out.
    ensures exact { Gives (λ entry. entry) result (reading line.now) }
    ensures skipped { IsSkipped line.now ↔ IsOkAnd result (λ entry. entry ≡ None) }
    // What is read is spelled so, and what is spelled so is read, unless memory ran out.
    ensures spelled { IfOk result (λ found. IfSome found (λ entry. Spells line.now entry)) }
    ensures read { (entry : Entry) → Spells line.now entry → Gives (λ found. found) result (Ok (Some entry)) }
    // A refusal tells the first fault of the line, and a line with a fault is refused so, unless memory ran out.
    ensures fault { IfErr result (λ refused. TellsFault line.now refused) }
    ensures refused { (why : Why) → HasFault line.now why → Gives (λ found. found) result (Err why) }
    // What is read can be written.
    ensures writable { IfOk result (λ found. IfSome found IsWritable) }
    // The order of lines is no fault of one line.
    ensures in_order { (earlier later : KeyOf) → result ≢ Err (Bad (Order earlier later)) }
{
    if is_skipped(line) {
        return Ok(None);
    }
    read_counted(alloc, true, line)
}

/// The same, each value cut off and read by itself: what `read_line` is compared with.
/// For callers outside: the program does not use it.
pub fn read_line_exactly(alloc: Global, line: &[u8]) -> Result<Option<Entry>, LineRefused>
    ensures exact { Gives (λ entry. entry) result (reading line.now) }
{
    if is_skipped(line) {
        return Ok(None);
    }
    read_counted(alloc, false, line)
}

/// Each line is skipped, or has one fault, or spells one entry.
pub fn one_meaning()
    ensures one { (line : List ℕ) → HasOneMeaning line }
{}

/// The entry of a line that is not skipped, with `usual` values read in the pass that finds where they end.
#[tactic(auto, unfolding(crate::specs::Line::reading))]
fn read_counted(alloc: Global, usual: bool, line: &[u8]) -> Result<Option<Entry>, LineRefused>
    requires { IsFalse (is_skipped line.now) }
    ensures exact { Gives (λ entry. entry) result (reading line.now) }
    ensures some { IfOk result IsSome }
{
    let text = utf8_of(line)?;
    Ok(Some(read_entry(alloc, usual, text)?))
}

/// The line as a text.
fn utf8_of(line: &[u8]) -> Result<&str, Why>
    ensures text { Tells (λ text. text.now) result (utf8_of line.now) }
{
    // What is ASCII in front needs no test: what stands behind it is UTF-8 just where all is.
    let front = ascii_len(line);
    match str::from_utf8(&line[front..]) {
        Ok(_) => Ok(unsafe { str::from_utf8_unchecked(line) }),
        Err(_) => Err(Why::Utf8),
    }
}

/// How many bytes at the front, in sixteens, are surely ASCII.
fn ascii_len(line: &[u8]) -> usize
    ensures within { result ≤ length line.now }
    ensures ascii { IsAscii (take result line.now) }
{
    let mut len = 0;
    while LANES <= line.len() - len && begins_ascii(&line[len..]) {
        len += LANES;
    }
    len
}

/// Whether a line is skipped: it is empty, or begins with `#` or `c`.
fn is_skipped(line: &[u8]) -> bool
    ensures value { result ≡ is_skipped line.now }
{
    match line {
        [] | [b'#' | b'c', ..] => true,
        _ => false,
    }
}

/// The entry of the fields of a line.
fn read_entry(alloc: Global, usual: bool, text: &str) -> Result<Entry, LineRefused>
    ensures entry { Gives (λ entry. entry) result (entry_from (fields_of text.now)) }
{
    let (key, rest) = match first_field(usual, text) {
        Ok(found) => found,
        Err(why) => return Err(LineRefused::Bad(why)),
    };
    let parts = read_fields(alloc, usual, key.kind, rest)?;
    Ok(entry_of(key, parts)?)
}

/// The key that the first field is, and what stands behind that field.
#[tactic(auto, unfolding(crate::specs::Line::entry_from))]
fn first_field(usual: bool, text: &str) -> Result<(Key, &str), Why>
    ensures entry { IfOk result (λ (key, rest). entry_from (fields_of text.now) ≡ entry_behind key (fields_of rest.now)) }
    ensures refused { IfErr result (λ why. entry_from (fields_of text.now) ≡ Err why) }
{
    if usual {
        if let Some(found) = usual_key(text) {
            return Ok(found);
        }
    }
    let Some((first, rest)) = next_field(text) else {
        return Err(Why::Kind);
    };
    Ok((key_of(first)?, rest))
}

/// The key in its usual form that the first field is, and what stands behind that field.
fn usual_key(text: &str) -> Option<(Key, &str)>
    ensures fields { IfSome result (λ (_, rest). fields_of text.now ≡ before_first is_blank text.now ∷ fields_of rest.now) }
    ensures key { IfSome result (λ (key, _). key_of (before_first is_blank text.now) ≡ Ok key) }
{
    let (kind, digits) = kind_at(text)?;
    let (id, len) = usual_id(digits.as_bytes())?;
    if !ends_at(digits.as_bytes(), len) {
        return None;
    }
    let (_, rest) = digits.split_at(len);
    Some((Key::new(kind, id), rest))
}

/// The key that the first field is.
#[tactic(auto, unfolding(crate::specs::Line::key_of))]
fn key_of(field: &str) -> Result<Key, Why>
    ensures key { result ≡ key_of field.now }
{
    let Some((kind, digits)) = kind_at(field) else {
        return Err(Why::Kind);
    };
    let id = id_of(digits.as_bytes())?;
    Ok(Key::new(kind, id))
}

/// The entry of the fields: no object where it is deleted.
#[tactic(auto, unfolding(crate::specs::Line::entry_of))]
fn entry_of(key: Key, parts: Parts) -> Result<Entry, Why>
    requires { AreOnEarth parts }
    ensures entry { result ≡ entry_of key parts }
{
    let deleted = parts.deleted;
    let object = object_of(key.kind, parts)?;
    Ok(Entry {
        key,
        object: if deleted { None } else { Some(object) },
    })
}

/// The object of the fields.
fn object_of(kind: Kind, parts: Parts) -> Result<Object, Why>
    requires { AreOnEarth parts }
    ensures object { result ≡ object_of kind parts }
{
    let tags = parts.tags;
    match kind {
        Kind::Node => Ok(Object::Node {
            place: place_of(parts.lon, parts.lat)?,
            tags,
        }),
        Kind::Way => Ok(Object::Way {
            nodes: parts.nodes,
            tags,
        }),
        Kind::Relation => Ok(Object::Relation {
            members: parts.members,
            tags,
        }),
    }
}

/// The place of a node: both coordinates or none.
fn place_of(lon: Option<i32>, lat: Option<i32>) -> Result<Option<Place>, Why>
    requires east { IfSome lon (λ lon. lon ≤ℤ MAX_LON) }
    requires west { IfSome lon (λ lon. neg_ℤ MAX_LON ≤ℤ lon) }
    requires north { IfSome lat (λ lat. lat ≤ℤ MAX_LAT) }
    requires south { IfSome lat (λ lat. neg_ℤ MAX_LAT ≤ℤ lat) }
    ensures place { result ≡ place_of lon lat }
{
    match (lon, lat) {
        (None, None) => Ok(None),
        (Some(lon), Some(lat)) => Ok(Some(Place::new(lon, lat))),
        _ => Err(Why::HalfPlace),
    }
}
