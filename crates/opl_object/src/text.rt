//! Texts of a line, in which percent signs stand round escapes.
ghost use Rattle.std.specs.Prelude.{◌≡◌, ◌≤◌, ◌<◌, ◌^◌, ◌&&◌, not, IsTrue, true, List, ℕ, length, IfOk};
ghost use Rattle.std.specs.Char.{digit_value, is_ascii_hexdigit};
ghost use Rattle.std.specs.List.{list_all, slice_split};
ghost use Rattle.std.specs.Str.{chars};
ghost use Rattle.std.specs.Str.Parse.{digits_value};
ghost use Rattle.std.specs.String.{string_bytes};
ghost use Rattle.opl_object.specs.Fields.{is};
ghost use Rattle.opl_object.specs.Spelled.{spelled_bytes};
ghost use Rattle.opl_object.specs.Text.{is_reserved, is_plain, escaped, resolved, bytes_of, text_of, checked_text};
ghost use Rattle.opl_object.specs.Why.{Gives};

use crate::ascii::{AT, PERCENT};
use crate::fields::cut;
use crate::{LineRefused, Why};
use osm_base::{OutOfMemory, Text};
use std::alloc::Global;

/// The greatest number of digits of an escape.
const ESCAPE_DIGITS: usize = 6;

/// A text: as it stands in the line or, where it has escapes, with those resolved.
#[derive(Drop)]
pub enum Spelled<'a> {
    Plain(&'a str),
    Resolved(String),
}

impl<'a> Spelled<'a> {
    /// The text as Rust's.
    pub(crate) fn as_str(&self) -> &str
        ensures bytes { result.now ≡ spelled_bytes self.now }
    {
        match self {
            Spelled::Plain(text) => text,
            Spelled::Resolved(text) => text.as_str(),
        }
    }

    /// The text by itself.
    pub(crate) fn into_text(self, alloc: Global) -> Result<Text, OutOfMemory>
        ensures characters { IfOk result (λ text. text ≡ chars (spelled_bytes self.entry)) }
    {
        match self {
            Spelled::Plain(text) => Ok(Text::from_str(alloc, text)?),
            Spelled::Resolved(text) => Ok(Text::from_string(text)),
        }
    }
}

/// The text that is spelled so.
#[tactic(auto, unfolding(crate::specs::Text::bytes_of))]
pub(crate) fn text_of(alloc: Global, spelled: &str) -> Result<Spelled<'_>, LineRefused>
    ensures bytes { Gives spelled_bytes result (bytes_of spelled.now) }
{
    if is_plain(spelled.as_bytes()) {
        return Ok(Spelled::Plain(spelled));
    }
    Ok(Spelled::Resolved(resolve(alloc, spelled)?))
}

/// Tests that the text is spelled as one, and keeps nothing.
#[tactic(auto, unfolding(crate::specs::Text::bytes_of))]
pub(crate) fn check_text(spelled: &str) -> Result<(), Why>
    ensures value { result ≡ checked_text spelled.now }
{
    let mut rest = spelled;
    loop {
        let (plain, escape) = cut(rest, PERCENT);
        if !is_plain(plain.as_bytes()) {
            return Err(Why::Escape);
        }
        let Some(escape) = escape else {
            return Ok(());
        };
        let (digits, after) = cut(escape, PERCENT);
        let Some(after) = after else {
            return Err(Why::Escape);
        };
        escaped(digits.as_bytes())?;
        rest = after;
    }
}

/// The text with each escape resolved.
fn resolve(alloc: Global, spelled: &str) -> Result<String, LineRefused>
    ensures bytes { Gives string_bytes result (bytes_of spelled.now) }
{
    let mut text = String::new(alloc);
    let mut rest = spelled;
    loop {
        let (plain, escape) = cut(rest, PERCENT);
        if !is_plain(plain.as_bytes()) {
            return Err(LineRefused::Bad(Why::Escape));
        }
        text.push_str(plain)?;
        let Some(escape) = escape else {
            return Ok(text);
        };
        let (digits, after) = cut(escape, PERCENT);
        let Some(after) = after else {
            return Err(LineRefused::Bad(Why::Escape));
        };
        text.push(escaped(digits.as_bytes())?)?;
        rest = after;
    }
}

/// The character of an escape.
#[tactic(auto, unfolding(crate::specs::Text::escaped))]
fn escaped(digits: &[u8]) -> Result<char, Why>
    ensures value { result ≡ escaped digits.now }
{
    if digits.is_empty() || ESCAPE_DIGITS < digits.len() || !all_hexdigits(digits) {
        return Err(Why::Escape);
    }
    match char::from_u32(value_of(digits)) {
        Some(code) if code != '\0' => Ok(code),
        _ => Err(Why::Escape),
    }
}

/// The number that hexadecimal digits write.
fn value_of(digits: &[u8]) -> u32
    requires few { length digits.now ≤ 6 }
    requires digits { IsTrue (list_all is_ascii_hexdigit digits.now) }
    ensures value { result ≡ digits_value 16 digits.now }
{
    let mut value = 0;
    for &digit in digits {
        value = value * 16 + digit_value(digit);
    }
    value
}

/// The value of a hexadecimal digit.
fn digit_value(digit: u8) -> u32
    requires { IsTrue (is_ascii_hexdigit digit) }
    ensures value { result ≡ digit_value digit }
    ensures below { result < 16 }
{
    let value = match digit {
        b'0'..=b'9' => digit - b'0',
        b'a'..=b'f' => digit - b'a' + 10,
        b'A'..=b'F' => digit - b'A' + 10,
        _ => 0,
    };
    u32::from(value)
}

/// Whether each byte is a hexadecimal digit.
fn all_hexdigits(text: &[u8]) -> bool
    ensures value { result ≡ list_all is_ascii_hexdigit text.now }
{
    for byte in text {
        if !byte.is_ascii_hexdigit() {
            return false;
        }
    }
    true
}

/// Whether no byte is reserved.
fn is_plain(text: &[u8]) -> bool
    ensures value { result ≡ is_plain text.now }
{
    for &byte in text {
        if is_reserved(byte) {
            return false;
        }
    }
    true
}

/// Whether the byte stands in no text as it is.
pub(crate) fn is_reserved(byte: u8) -> bool
    ensures value { result ≡ is_reserved byte }
{
    // Most bytes are letters, for which one comparison is enough.
    if byte > AT {
        return false;
    }
    match byte {
        0 | b'\t' | b'\n' | b' ' | b'%' | b',' | b'=' | b'@' => true,
        _ => false,
    }
}
