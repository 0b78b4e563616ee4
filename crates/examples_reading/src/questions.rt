//! Questions about objects, with the answers that are wanted.
ghost use Rattle.std.specs.Prelude.{◌≡◌, false};

use crate::key::key_of;
use example_table::{named_row, number_in};
use object_fold::{ObjectIndex, Objects};
use osm_base::{Back, DegreesBuffer, Ids, Lookup, Object, Tags};
use std::alloc::AllocError;

/// Adds the questions of a text, if the objects answer each as it says, and else what is left from the first that they
/// answer otherwise.
pub fn put_answers(
    found: &mut Vec<u8>,
    objects: &mut Objects,
    questions: &str,
) -> Result<bool, AllocError> {
    let left = unanswered(objects, questions);
    if left.is_empty() {
        found.extend_from_slice(questions.as_bytes())?;
    } else {
        found.extend_from_slice(b"otherwise: ")?;
        found.extend_from_slice(left.as_bytes())?;
    }
    Ok(true)
}

/// What is left of a text from the first question on that objects answer otherwise.
fn unanswered<'a>(objects: &mut Objects, questions: &'a str) -> &'a str {
    let mut rest = questions;
    for _ in 0..questions.len() {
        match named_row(rest) {
            Some((word, text)) => match behind(objects, word, text) {
                Some(behind) => rest = behind,
                None => return rest,
            },
            None => return rest,
        }
    }
    rest
}

/// The text behind a question that objects answer as it says.
fn behind<'a>(objects: &mut Objects, word: &str, text: &'a str) -> Option<&'a str> {
    let (subject, rest) = named_row(text)?;
    let (good, rest) = match word {
        "there" => (is_there(objects, subject)?, rest),
        "gone" => (!is_there(objects, subject)?, rest),
        "placeless" => (objects.place_of(number_in(subject)?).is_none(), rest),
        "place" => {
            let (lon, rest) = named_row(rest)?;
            let (lat, rest) = named_row(rest).unwrap_or((rest, ""));
            (is_at(objects, number_in(subject)?, lon, lat), rest)
        }
        "tagged" | "bare" => {
            let (name, rest) = named_row(rest)?;
            (
                is_tagged(objects, subject, name)? == (word == "tagged"),
                rest,
            )
        }
        _ => {
            let (id, ids) = subject.split_once('=')?;
            (are_listers(objects, word, number_in(id)?, ids), rest)
        }
    };
    if good { Some(rest) } else { None }
}

/// Whether there is an object of the key that a field writes.
fn is_there(objects: &Objects, field: &str) -> Option<bool> {
    Some(objects.object_of(key_of(field)?).is_some())
}

/// Whether a node is at a place.
fn is_at(objects: &Objects, id: u64, lon: &str, lat: &str) -> bool {
    match objects.place_of(id) {
        Some(place) => is_degrees(place.lon, lon) && is_degrees(place.lat, lat),
        None => false,
    }
}

/// Whether a coordinate in degrees is this text.
fn is_degrees(units: i32, text: &str) -> bool {
    let mut buffer = DegreesBuffer::new();
    buffer.format(units) == text.as_bytes()
}

/// Whether an object has a tag of this name.
fn is_tagged(objects: &Objects, field: &str, name: &str) -> Option<bool> {
    match objects.object_of(key_of(field)?) {
        Some(object) => Some(tags_of(object).get(name).is_some()),
        None => Some(false),
    }
}

/// The tags of an object.
fn tags_of(object: &Object) -> &Tags {
    match object {
        Object::Node { tags, .. } | Object::Way { tags, .. } | Object::Relation { tags, .. } =>
            tags,
    }
}

/// Whether these list an object, as the objects and an index of them tell, and `Lookup` where it can be asked.
fn are_listers(objects: &mut Objects, word: &str, id: u64, field: &str) -> bool {
    are_told(objects, word, id, field)
        && are_told(&mut ObjectIndex::new(objects), word, id, field)
        && are_looked_up(objects, word, id, field)
}

/// Whether a look-up gives these ids too, where the question of a word is one of it.
fn are_looked_up(objects: &Objects, word: &str, id: u64, field: &str) -> bool {
    match word {
        "of_node" => are_ids(objects.relations_of_node(id), field),
        "of_way" => are_ids(objects.relations_of_way(id), field),
        _ => true,
    }
}

/// Whether an index gives these ids to the question of a word.
fn are_told<B: Back>(back: &mut B, word: &str, id: u64, field: &str) -> bool
where
    B::Refusal: Drop,
    requires { B.spent back.old ≡ false }
{
    match listers(back, word, id) {
        Some(ids) => are_ids(ids.as_slice(), field),
        None => false,
    }
}

/// The ids that an index gives to the question of a word.
fn listers<B: Back>(back: &mut B, word: &str, id: u64) -> Option<Ids>
where
    B::Refusal: Drop,
    requires { B.spent back.old ≡ false }
{
    match word {
        "ways" => back.ways_of_node(id).ok(),
        "of_node" => back.relations_of_node(id).ok(),
        "of_way" => back.relations_of_way(id).ok(),
        _ => None,
    }
}

/// Whether a field writes these ids, with commas between.
fn are_ids(ids: &[u64], field: &str) -> bool {
    if field.is_empty() {
        return ids.is_empty();
    }
    let mut rest = ids;
    for number in field.split(',') {
        match (rest, number_in(number)) {
            ([first, behind @ ..], Some(number)) if *first == number => rest = behind,
            _ => return false,
        }
    }
    rest.is_empty()
}
