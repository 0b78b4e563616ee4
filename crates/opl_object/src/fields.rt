//! The pieces of a text, one after the other.
ghost use Rattle.std.specs.Prelude.{◌≡◌, ◌<◌, ◌≤◌, ◌+◌, not, true, [], ◌∷◌, length, drop, slice_index, count_by, IfSome, IsTrue, MatchOption};
ghost use Rattle.std.specs.Char.{is_ascii_digit};
ghost use Rattle.std.specs.List.{slice_split, position_or_len, before_first};
ghost use Rattle.std.specs.Option.{option_map};
ghost use Rattle.opl_object.specs.Fields.{is, is_blank, from_blank, fields_of, cut_at, later_pieces, behind};

use crate::ascii::{COMMA, SPACE, TAB};
use crate::lanes::{LANES, digits_run};
use memchr::memchr2;

/// What stands before the first `end` and, where there is one, what stands after it.
pub(crate) fn cut(text: &str, end: u8) -> (&str, Option<&str>)
    requires { end < 128 }
    ensures value { (result.0.now, option_map (λ rest. rest.now) result.1) ≡ cut_at (is end) text.now }
    ensures pieces { slice_split (is end) text.now
        ≡ result.0.now ∷ later_pieces (is end) (option_map (λ rest. rest.now) result.1) }
    ensures shorter { IfSome result.1 (λ rest. length rest.now < length text.now) }
{
    let place = place_of(text.as_bytes(), end);
    if place == text.len() {
        return (text, None);
    }
    let (front, _) = text.split_at(place);
    let (_, rest) = text.split_at(place + 1);
    (front, Some(rest))
}

/// What stands before the first `end` and, where there is one, what stands after it.
pub(crate) fn cut_bytes(text: &[u8], end: u8) -> (&[u8], Option<&[u8]>)
    ensures value { (result.0.now, option_map (λ rest. rest.now) result.1) ≡ cut_at (is end) text.now }
{
    let place = place_of(text, end);
    if place == text.len() {
        return (text, None);
    }
    (&text[..place], Some(&text[place + 1..]))
}

/// What stands behind this first byte, where it is the first.
pub(crate) fn behind(text: &str, first: u8) -> Option<&str>
    requires some { 0 < first }
    requires ascii { first < 128 }
    ensures value { option_map (λ rest. rest.now) result ≡ behind first text.now }
{
    if first_byte(text) == first {
        Some(after_first(text))
    } else {
        None
    }
}

/// The first byte, or zero where there is none.
pub(crate) fn first_byte(text: &str) -> u8
    ensures value { result ≡ slice_index text.now 0 }
{
    match text.as_bytes() {
        [first, ..] => *first,
        [] => 0,
    }
}

/// What stands behind the first byte.
pub(crate) fn after_first(text: &str) -> &str
    requires some { 0 < slice_index text.now 0 }
    requires ascii { slice_index text.now 0 < 128 }
    ensures value { result.now ≡ drop 1 text.now }
{
    let (_, rest) = text.split_at(1);
    rest
}

/// How many pieces commas make of the text.
pub(crate) fn pieces(text: &str) -> usize
    ensures count { result ≡ count_by (is COMMA) text.now + 1 }
{
    commas(text.as_bytes()) + 1
}

/// How many commas there are.
fn commas(text: &[u8]) -> usize
    ensures count { result ≡ count_by (is COMMA) text.now }
{
    let mut count = 0;
    for &byte in text {
        count += usize::from(byte == COMMA);
    }
    count
}

/// The first field and what stands behind it.
pub(crate) fn next_field(text: &str) -> Option<(&str, &str)>
    ensures fields { MatchOption result (fields_of text.now ≡ [])
        (λ (field, rest). fields_of text.now ≡ field.now ∷ fields_of rest.now) }
{
    let Some(field) = field_at(text) else {
        return None;
    };
    let end = blank_place(field.as_bytes());
    Some(field.split_at(end))
}

/// The text from its first field on.
pub(crate) fn field_at(text: &str) -> Option<&str>
    ensures fields { MatchOption result (fields_of text.now ≡ [])
        (λ field. fields_of text.now ≡ before_first is_blank field.now ∷ fields_of (from_blank field.now)) }
    ensures some { IfSome result (λ field. 0 < position_or_len is_blank field.now) }
    ensures within { IfSome result (λ field. length field.now ≤ length text.now) }
{
    let start = field_place(text.as_bytes());
    if start == text.len() {
        return None;
    }
    let (_, field) = text.split_at(start);
    Some(field)
}

/// Whether a field ends at this place: a blank stands there, or the text ends.
pub(crate) fn ends_at(text: &[u8], place: usize) -> bool
    ensures blank { IsTrue result → place < length text.now → is_blank (slice_index text.now place) ≡ true }
{
    text.len() <= place || is_blank(text[place])
}

/// Where the first `end` stands, or the length of the text.
fn place_of(text: &[u8], end: u8) -> usize
    ensures place { result ≡ position_or_len (is end) text.now }
    ensures within { result ≤ length text.now }
{
    for (place, &byte) in text.iter().enumerate() {
        if byte == end {
            return place;
        }
    }
    text.len()
}

/// Where the first space or tab stands, or the length of the text.
pub(crate) fn blank_place(text: &[u8]) -> usize
    ensures place { result ≡ position_or_len is_blank text.now }
{
    if ends_at(text, 0) {
        return 0;
    }
    match memchr2(SPACE, TAB, text) {
        Some(place) => place,
        None => text.len(),
    }
}

/// Where the first byte stands that is neither a space nor a tab, or the length of the text.
fn field_place(text: &[u8]) -> usize
    ensures place { result ≡ position_or_len (λ byte. not (is_blank byte)) text.now }
{
    for (place, &byte) in text.iter().enumerate() {
        if !is_blank(byte) {
            return place;
        }
    }
    text.len()
}

/// How many digits stand at the front.
pub(crate) fn digits_len(text: &[u8]) -> usize
    ensures place { result ≡ position_or_len (λ byte. not (is_ascii_digit byte)) text.now }
{
    if text.len() >= LANES {
        let run = digits_run(text);
        if run < LANES {
            return run;
        }
    }
    for (place, byte) in text.iter().enumerate() {
        if !byte.is_ascii_digit() {
            return place;
        }
    }
    text.len()
}

/// Whether the byte is a space or a tab.
fn is_blank(byte: u8) -> bool
    ensures value { result ≡ is_blank byte }
{
    byte == SPACE || byte == TAB
}
