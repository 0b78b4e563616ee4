//! What works by lanes against a loop that takes one place or one box after the other, for lists of each length.
use crate::chance::{box_of_two, is_far, place, places};
use example_table::{named_row, number_in};
use lanes_geo::{across, along, box_of, boxes_meet, odd_crossings};
use osm_base::{GeoBox, OutOfMemory, Place};
use std::alloc::{AllocError, Global};

/// How many places each ring is asked.
const ASKED: u32 = 12;

/// A kernel for lists of each length up to the last one, by chance from a seed: `box`, `meet` or `odd`, `SEED LAST`.
pub fn agree(alloc: Global, given: &str) -> Result<Option<String>, OutOfMemory> {
    let Some((kernel, seed, last)) = given_by(given) else {
        return Ok(None);
    };
    let mut state = seed;
    for length in 0..=last {
        match agrees(alloc, kernel, &mut state, length)? {
            None => return Ok(None),
            Some(true) => {}
            Some(false) => return Ok(Some(format!(in alloc; "differs at {length}")?)),
        }
    }
    Ok(Some(String::from_str(alloc, "agree")?))
}

/// The kernel, the seed and the last length of a row.
fn given_by(given: &str) -> Option<(&str, u64, u64)> {
    let (kernel, numbers) = named_row(given)?;
    let (seed, last) = named_row(numbers)?;
    Some((kernel, number_in(seed)?, number_in(last)?))
}

/// Whether a kernel and the loop say the same of a list of this length. `None`: there is no such kernel.
fn agrees(
    alloc: Global,
    kernel: &str,
    state: &mut u64,
    length: u64,
) -> Result<Option<bool>, OutOfMemory> {
    match kernel {
        "box" => Ok(Some(boxes_agree(alloc, state, length)?)),
        "meet" => Ok(Some(meetings_agree(alloc, state, length)?)),
        "odd" => Ok(Some(crossings_agree(alloc, state, length)?)),
        _ => Ok(None),
    }
}

/// The box of places.
fn boxes_agree(alloc: Global, state: &mut u64, length: u64) -> Result<bool, OutOfMemory> {
    let far = is_far(state);
    let places = places(alloc, state, length, far)?;
    Ok(box_of(places.as_slice()) == plain_box(places.as_slice()))
}

/// The box of places, one after the other.
fn plain_box(places: &[Place]) -> Option<GeoBox> {
    let mut around = None;
    for place in places {
        around = Some(stretched(around, *place));
    }
    around
}

/// The least box that has a place too.
fn stretched(around: Option<GeoBox>, place: Place) -> GeoBox {
    match around {
        None => GeoBox {
            west: place.lon,
            south: place.lat,
            east: place.lon,
            north: place.lat,
        },
        Some(around) => GeoBox {
            west: around.west.min(place.lon),
            south: around.south.min(place.lat),
            east: around.east.max(place.lon),
            north: around.north.max(place.lat),
        },
    }
}

/// Which boxes meet one, whatever the marks say before.
fn meetings_agree(alloc: Global, state: &mut u64, length: u64) -> Result<bool, OutOfMemory> {
    let far = is_far(state);
    let asked = box_of_two(state, far);
    let mut boxes = Vec::new(alloc);
    for _ in 0..length {
        boxes.push(box_of_two(state, far))?;
    }
    Ok(marks_agree(alloc, asked, &boxes, false)? && marks_agree(alloc, asked, &boxes, true)?)
}

/// The marks of the boxes that meet one, where this is what they say before.
fn marks_agree(
    alloc: Global,
    asked: GeoBox,
    boxes: &[GeoBox],
    before: bool,
) -> Result<bool, AllocError> {
    let mut marks = vec![in alloc; before; boxes.len()]?;
    boxes_meet(boxes, asked, &mut marks);
    for (other, mark) in boxes.iter().zip(marks.as_slice()) {
        if are_apart(asked, *other) == *mark {
            return Ok(false);
        }
    }
    Ok(true)
}

/// Whether one box is wholly east, west, north or south of another one.
fn are_apart(one: GeoBox, other: GeoBox) -> bool {
    other.east < one.west
        || one.east < other.west
        || other.north < one.south
        || one.north < other.south
}

/// Whether rings have an odd number of crossings east of places.
fn crossings_agree(alloc: Global, state: &mut u64, length: u64) -> Result<bool, OutOfMemory> {
    let far = is_far(state);
    let ring = places(alloc, state, length, far)?;
    for _ in 0..ASKED {
        let asked = place(state, far);
        if odd_crossings(ring.as_slice(), asked) != plain_odd(ring.as_slice(), asked) {
            return Ok(false);
        }
    }
    Ok(true)
}

/// Whether an odd number of segments cross the latitude of a place east of it, one after the other.
fn plain_odd(ring: &[Place], asked: Place) -> bool {
    let mut odd = false;
    let mut start = None;
    for end in ring {
        if is_crossed_behind(start, *end, asked) {
            odd = !odd;
        }
        start = Some(*end);
    }
    odd
}

/// Whether the segment that ends here, if there is one, crosses the latitude of a place east of it.
fn is_crossed_behind(start: Option<Place>, end: Place, asked: Place) -> bool {
    match start {
        None => false,
        Some(start) if start.lat < end.lat => is_crossed(start, end, asked),
        Some(start) => is_crossed(end, start, asked),
    }
}

/// Whether a segment from its south end to its north one crosses the latitude of a place east of it; its south end does, and
/// its north one does not.
fn is_crossed(south: Place, north: Place, asked: Place) -> bool {
    south.lat <= asked.lat
        && asked.lat < north.lat
        && across(south, north, asked) < along(south, north, asked)
}
