//! Places, lines and boxes as the tables write them.
//!
//! A place is a small letter, which stands for the longitude of its code and the latitude 0, or
//! `LON,LAT` in units of 1e-7 degree. A line is a word of letters, or places with `:` between them, or
//! `WEST,SOUTH..EAST,NORTH` for the ring round a box, from its south west corner on to the east.
use example_table::signed_of;
use osm_base::{GeoBox, LineList, MAX_LAT, MAX_LON, OutOfMemory, Place, Places};
use std::alloc::{AllocError, Global};

/// The place that a field writes.
pub fn place_of(field: &str) -> Option<Place> {
    match field.split_once(',') {
        None => letter_of(field),
        Some((lon, lat)) => on_earth(signed_of(lon)?, signed_of(lat)?),
    }
}

/// The place that a letter stands for.
fn letter_of(field: &str) -> Option<Place> {
    match field.as_bytes() {
        [letter] => place_of_letter(*letter),
        _ => None,
    }
}

fn place_of_letter(letter: u8) -> Option<Place> {
    if letter.is_ascii_lowercase() {
        Some(Place::new(i32::from(letter), 0))
    } else {
        None
    }
}

/// The place with this longitude and latitude, if it is on the earth.
pub fn on_earth(lon: i64, lat: i64) -> Option<Place> {
    let lon = i32::try_from(lon).ok()?;
    let lat = i32::try_from(lat).ok()?;
    if -MAX_LON <= lon && lon <= MAX_LON && -MAX_LAT <= lat && lat <= MAX_LAT {
        Some(Place::new(lon, lat))
    } else {
        None
    }
}

/// The box that a field writes as its south west and its north east corner.
pub fn box_of_field(field: &str) -> Option<GeoBox> {
    let (low, high) = field.split_once("..")?;
    Some(box_between(place_of(low)?, place_of(high)?))
}

/// The box with these south west and north east corners.
fn box_between(low: Place, high: Place) -> GeoBox {
    GeoBox {
        west: low.lon,
        south: low.lat,
        east: high.lon,
        north: high.lat,
    }
}

/// The line that a word writes.
pub fn line_of_word(alloc: Global, word: &str) -> Result<Option<Places>, OutOfMemory> {
    if let Some((low, high)) = word.split_once("..") {
        return ring_round(alloc, low, high);
    }
    if word.contains(',') {
        places_between(alloc, word, ':')
    } else {
        places_of_letters(alloc, word)
    }
}

/// The ring round a box.
fn ring_round(alloc: Global, low: &str, high: &str) -> Result<Option<Places>, OutOfMemory> {
    let (Some(low), Some(high)) = (place_of(low), place_of(high)) else {
        return Ok(None);
    };
    let mut ring = Places::new(alloc);
    ring.push(low)?;
    ring.push(Place::new(high.lon, low.lat))?;
    ring.push(high)?;
    ring.push(Place::new(low.lon, high.lat))?;
    ring.push(low)?;
    Ok(Some(ring))
}

/// The places of a text with a sign between them, or more of it.
pub fn places_between(
    alloc: Global,
    text: &str,
    sign: char,
) -> Result<Option<Places>, OutOfMemory> {
    let mut places = Places::new(alloc);
    for field in text.split(sign) {
        if field.is_empty() {
            continue;
        }
        let Some(place) = place_of(field) else {
            return Ok(None);
        };
        places.push(place)?;
    }
    Ok(Some(places))
}

fn places_of_letters(alloc: Global, word: &str) -> Result<Option<Places>, OutOfMemory> {
    let mut places = Places::new(alloc);
    for letter in word.bytes() {
        let Some(place) = place_of_letter(letter) else {
            return Ok(None);
        };
        places.push(place)?;
    }
    Ok(Some(places))
}

/// The lines of a text, a word each.
pub fn lines_of(alloc: Global, text: &str) -> Result<Option<LineList>, OutOfMemory> {
    let mut lines = LineList::new(alloc);
    for word in text.split_ascii_whitespace() {
        let Some(line) = line_of_word(alloc, word)? else {
            return Ok(None);
        };
        lines.push(line)?;
    }
    Ok(Some(lines))
}

/// Adds a word to a text, and a blank before it where it is not the first.
pub fn push_word(text: &mut String, word: &str) -> Result<(), AllocError> {
    if !text.is_empty() {
        text.push(' ')?;
    }
    text.push_str(word)
}

/// The word that writes a line.
pub fn word_of_line(alloc: Global, line: &[Place]) -> Result<String, AllocError> {
    if let Some(word) = word_of_letters(alloc, line)? {
        return Ok(word);
    }
    if let [low, east, high, west, last] = line {
        let (low, east, high, west, last) = (*low, *east, *high, *west, *last);
        if low == last && low < high && is_corner(east, high, low) && is_corner(west, low, high) {
            return word_of_box(alloc, box_between(low, high));
        }
    }
    let mut word = String::new(alloc);
    for place in line {
        if !word.is_empty() {
            word.push(':')?;
        }
        push_place(&mut word, *place)?;
    }
    Ok(word)
}

/// Whether a place has the longitude of one place and the latitude of another.
fn is_corner(place: Place, lon: Place, lat: Place) -> bool {
    place.lon == lon.lon && place.lat == lat.lat
}

/// The word that writes a box.
pub fn word_of_box(alloc: Global, found: GeoBox) -> Result<String, AllocError> {
    let GeoBox {
        west,
        south,
        east,
        north,
    } = found;
    format!(in alloc; "{west},{south}..{east},{north}")
}

fn push_place(text: &mut String, place: Place) -> Result<(), AllocError> {
    write!(text, "{},{}", place.lon, place.lat)
}

/// The word of letters that writes a line, if there is one.
fn word_of_letters(alloc: Global, line: &[Place]) -> Result<Option<String>, AllocError> {
    let mut word = String::new(alloc);
    for place in line {
        let Some(letter) = letter_at(*place) else {
            return Ok(None);
        };
        word.push(letter)?;
    }
    Ok(Some(word))
}

/// The letter that stands for a place, if one does.
fn letter_at(place: Place) -> Option<char> {
    let letter = u8::try_from(place.lon).ok()?;
    if place.lat == 0 && letter.is_ascii_lowercase() {
        Some(char::from(letter))
    } else {
        None
    }
}

/// The words that write lines.
pub fn text_of_lines(alloc: Global, lines: &[Places]) -> Result<String, AllocError> {
    let mut text = String::new(alloc);
    push_lines(alloc, &mut text, lines)?;
    Ok(text)
}

/// Adds the words that write lines.
pub fn push_lines(alloc: Global, text: &mut String, lines: &[Places]) -> Result<(), AllocError> {
    for line in lines {
        push_word(text, word_of_line(alloc, line.as_slice())?.as_str())?;
    }
    Ok(())
}

/// The words of answers: `yes` or `no` for each.
pub fn text_of_answers(alloc: Global, answers: &[bool]) -> Result<String, AllocError> {
    let mut text = String::new(alloc);
    for answer in answers {
        push_answer(&mut text, *answer)?;
    }
    Ok(text)
}

/// Adds the word of an answer.
pub fn push_answer(text: &mut String, answer: bool) -> Result<(), AllocError> {
    push_word(text, if answer { "yes" } else { "no" })
}
