//! Boxes, crossings and places on rings.
use crate::notation::{
    box_of_field, line_of_word, places_between, push_answer, text_of_answers, word_of_box,
};
use lanes_geo::{across, along, box_of, boxes_meet, is_met, odd_crossings};
use osm_base::{GeoBox, OutOfMemory, Place};
use ring_nest::{crosses_odd, lies_on};
use std::alloc::{AllocError, Global};

/// The box of the places of a line, and `-` where there are none.
pub fn boxed(alloc: Global, given: &str) -> Result<Option<String>, OutOfMemory> {
    let Some(places) = line_of_word(alloc, given)? else {
        return Ok(None);
    };
    Ok(Some(box_text(alloc, places.as_slice())?))
}

fn box_text(alloc: Global, places: &[Place]) -> Result<String, AllocError> {
    match box_of(places) {
        None => String::from_str(alloc, "-"),
        Some(found) => word_of_box(alloc, found),
    }
}

/// Which boxes have a place in common with a box: all at once for `meet`, and one after the other for `met`.
pub fn compared(alloc: Global, kind: &str, given: &str) -> Result<Option<String>, OutOfMemory> {
    let Some((asked, text)) = given.split_once('/') else {
        return Ok(None);
    };
    let Some(asked) = box_of_field(asked.trim()) else {
        return Ok(None);
    };
    let Some(boxes) = boxes_of(alloc, text)? else {
        return Ok(None);
    };
    let text = if kind == "meet" {
        marked(alloc, asked, &boxes)
    } else {
        met(alloc, asked, &boxes)
    };
    Ok(Some(text?))
}

/// The boxes of a text, a word each.
fn boxes_of(alloc: Global, text: &str) -> Result<Option<Vec<GeoBox>>, AllocError> {
    let mut boxes = Vec::new(alloc);
    for word in text.split_ascii_whitespace() {
        let Some(other) = box_of_field(word) else {
            return Ok(None);
        };
        boxes.push(other)?;
    }
    Ok(Some(boxes))
}

fn marked(alloc: Global, asked: GeoBox, boxes: &[GeoBox]) -> Result<String, AllocError> {
    let mut mask = vec![in alloc; false; boxes.len()]?;
    boxes_meet(boxes, asked, &mut mask);
    text_of_answers(alloc, &mask)
}

fn met(alloc: Global, asked: GeoBox, boxes: &[GeoBox]) -> Result<String, AllocError> {
    let mut text = String::new(alloc);
    for other in boxes {
        push_answer(&mut text, is_met(asked, *other))?;
    }
    Ok(text)
}

/// A ring, and places that are asked against it.
pub fn asked(alloc: Global, kind: &str, given: &str) -> Result<Option<String>, OutOfMemory> {
    let Some((ring, places)) = given.split_once('/') else {
        return Ok(None);
    };
    let Some(ring) = line_of_word(alloc, ring.trim())? else {
        return Ok(None);
    };
    let Some(places) = places_between(alloc, places, ' ')? else {
        return Ok(None);
    };
    let (ring, places) = (ring.as_slice(), places.as_slice());
    if kind == "products" {
        Ok(products(alloc, ring, places)?)
    } else {
        Ok(Some(told(alloc, kind, ring, places)?))
    }
}

/// Whether it is so of each place.
fn told(alloc: Global, kind: &str, ring: &[Place], places: &[Place]) -> Result<String, AllocError> {
    let mut text = String::new(alloc);
    for place in places {
        push_answer(&mut text, is_so(kind, ring, *place))?;
    }
    Ok(text)
}

/// Whether an odd number of a ring's segments cross the latitude of a place east of it, for `crosses` as nesting asks
/// it; or whether the place lies on the ring.
fn is_so(kind: &str, ring: &[Place], place: Place) -> bool {
    match kind {
        "odd" => odd_crossings(ring, place),
        "crosses" => crosses_odd(ring, place),
        _ => lies_on(ring, place),
    }
}

/// The two products of a segment and a place.
fn products(alloc: Global, ring: &[Place], places: &[Place]) -> Result<Option<String>, AllocError> {
    let ([start, end], [place]) = (ring, places) else {
        return Ok(None);
    };
    let (across, along) = (across(*start, *end, *place), along(*start, *end, *place));
    Ok(Some(format!(in alloc; "{across} {along}")?))
}
