//! Numbers, times and ids.
ghost use Rattle.std.specs.Prelude.{◌≡◌, ◌≤◌, ◌<◌, ◌^◌, IsTrue, Ok, IfOk, IfSome, length, take};
ghost use Rattle.std.specs.Char.{is_ascii_digit};
ghost use Rattle.std.specs.List.{list_all, zip};
ghost use Rattle.std.specs.Str.Parse.{digits_value, digits_value_after};
ghost use Rattle.osm_base.specs.values.Key.{IsId};
ghost use Rattle.opl_object.specs.Number.{is_negative, unsigned, are_digits, is_whole, is_formed, is_time, id_of};
ghost use Rattle.opl_object.specs.Nodes.{digits_len};

use crate::Why;
use crate::ascii::DIGIT_0;
use crate::lanes::{LANES, all_within};
use osm_base::MAX_ID;

/// The form of a time, with a zero where a digit stands.
pub const TIME_FORM: [u8; 20] = *b"0000-00-00T00:00:00Z";

/// The first sixteen bytes of the form.
const FRONT_FORM: [u8; LANES] = *b"0000-00-00T00:00";

/// How far behind each of them a byte of a time may be.
const FRONT_ROOM: [u8; LANES] = [9, 9, 9, 9, 0, 9, 9, 0, 9, 9, 0, 9, 9, 0, 9, 9];

/// The last sixteen bytes of the form, which begin with the last twelve of those.
const BACK_FORM: [u8; LANES] = *b"-00-00T00:00:00Z";

/// How far behind each of them a byte of a time may be.
const BACK_ROOM: [u8; LANES] = [0, 9, 9, 0, 9, 9, 0, 9, 9, 0, 9, 9, 0, 9, 9, 0];

/// The greatest number of digits of an id or of another whole number.
pub(crate) const WHOLE_DIGITS: usize = 19;

/// A number up to this one is small.
pub(crate) const SMALL: u64 = 100_000_000_000;

/// Whether a minus stands in front, and what stands behind it.
pub(crate) fn signed(text: &[u8]) -> (bool, &[u8])
    ensures sign { result.0 ≡ is_negative text.now }
    ensures rest { result.1.now ≡ unsigned text.now }
{
    match text {
        [b'-', rest @ ..] => (true, rest),
        _ => (false, text),
    }
}

/// Whether the text is from one to `most` digits.
pub(crate) fn are_digits(text: &[u8], most: usize) -> bool
    ensures value { result ≡ are_digits most text.now }
{
    1 <= text.len() && text.len() <= most && all_digits(text)
}

/// Whether each byte is a digit.
fn all_digits(text: &[u8]) -> bool
    ensures value { result ≡ list_all is_ascii_digit text.now }
{
    for byte in text {
        if !byte.is_ascii_digit() {
            return false;
        }
    }
    true
}

/// Whether the text is nothing or a whole number.
pub(crate) fn is_whole(text: &[u8]) -> bool
    ensures value { result ≡ is_whole text.now }
{
    let (_, digits) = signed(text);
    text.is_empty() || are_digits(digits, WHOLE_DIGITS)
}

/// Whether the text is nothing or a time.
pub(crate) fn is_time(text: &[u8]) -> bool
    ensures value { result ≡ is_time text.now }
{
    text.is_empty() || (text.len() == TIME_FORM.len() && all_formed(text))
}

/// Whether each byte of a time is one that the form has there.
#[inline(always)]
pub(crate) fn all_formed(text: &[u8]) -> bool
    requires { length text.now ≡ 20 }
    ensures value { result ≡ list_all is_formed (zip TIME_FORM text.now) }
{
    all_within(&text[..LANES], FRONT_FORM, FRONT_ROOM)
        & all_within(&text[4..], BACK_FORM, BACK_ROOM)
}

/// The id that the text is.
#[tactic(auto, unfolding(crate::specs::Number::id_of))]
pub fn id_of(text: &[u8]) -> Result<u64, Why>
    ensures value { result ≡ id_of text.now }
    ensures id { IfOk result (λ id. IsId id) }
{
    if !are_digits(text, WHOLE_DIGITS) {
        return Err(Why::Id);
    }
    let id = value_of(text);
    if 1 <= id && id <= MAX_ID {
        Ok(id)
    } else {
        Err(Why::Id)
    }
}

/// The number that the digits write.
fn value_of(digits: &[u8]) -> u64
    requires { IsTrue (are_digits 19 digits.now) }
    ensures value { result ≡ digits_value 10 digits.now }
{
    let mut value = 0;
    for &digit in digits {
        value = value * 10 + u64::from(digit - b'0');
    }
    value
}

/// The number that the digits in front write behind those of a number, and how many they are. `None`: it is not small.
pub(crate) fn small_number(front: u64, text: &[u8]) -> Option<(u64, usize)>
    requires { front ≤ SMALL }
    ensures len { IfSome result (λ (_, len). len ≡ digits_len text.now) }
    ensures value { IfSome result (λ (value, len). value ≡ digits_value_after 10 front (take len text.now)) }
    ensures small { IfSome result (λ (value, _). value ≤ SMALL) }
{
    let mut value = front;
    for (place, &byte) in text.iter().enumerate() {
        if !byte.is_ascii_digit() {
            return Some((value, place));
        }
        value = value * 10 + u64::from(byte - DIGIT_0);
        if SMALL < value {
            return None;
        }
    }
    Some((value, text.len()))
}

/// The number that so few digits write behind those of a small number.
#[inline(always)]
pub(crate) fn few_digits(front: u64, digits: &[u8]) -> u64
    requires small { front ≤ SMALL }
    requires few { length digits.now ≤ 7 }
    requires digits { IsTrue (list_all is_ascii_digit digits.now) }
    ensures value { result ≡ digits_value_after 10 front digits.now }
{
    let mut value = front;
    for &digit in digits {
        value = value * 10 + u64::from(digit - DIGIT_0);
    }
    value
}

/// The id in front of a text, and how many digits it has. `None`: there is none, or none that is small.
pub(crate) fn usual_id(text: &[u8]) -> Option<(u64, usize)>
    ensures len { IfSome result (λ (_, len). len ≡ digits_len text.now) }
    ensures id { IfSome result (λ (id, len). id_of (take len text.now) ≡ Ok id) }
    ensures range { IfSome result (λ (id, _). IsId id) }
{
    let (id, len) = small_number(0, text)?;
    if id < 1 || WHOLE_DIGITS < len {
        return None;
    }
    Some((id, len))
}
