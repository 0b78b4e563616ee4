//! Texts as PostgreSQL's `COPY` text format has them.
ghost use Rattle.std.specs.Prelude.{◌≡◌, ◌<◌, ◌++◌, false, encode_utf8, OnOk, IfSome, IsSome, IsNone};
ghost use Rattle.std.specs.List.{list_any};
ghost use Rattle.std.specs.String.{string_bytes};
ghost use Rattle.row_text.specs.CopyText.{copy_text, has_escape, text_of_byte};

use osm_base::OutOfMemory;

/// The characters that stand behind a backslash in a text.
pub const BACKSPACE: u8 = 8;

pub const TAB: u8 = 9;

pub const NEWLINE: u8 = 10;

pub const VERTICAL_TAB: u8 = 11;

pub const FORM_FEED: u8 = 12;

pub const RETURN: u8 = 13;

pub const BACKSLASH: u8 = 92;

/// The numbers that code and definitions share are those of the format.
pub fn shared_numbers()
    ensures backspace { BACKSPACE ≡ 8 }
    ensures tab { TAB ≡ 9 }
    ensures newline { NEWLINE ≡ 10 }
    ensures vertical_tab { VERTICAL_TAB ≡ 11 }
    ensures form_feed { FORM_FEED ≡ 12 }
    ensures carriage_return { RETURN ≡ 13 }
    ensures backslash { BACKSLASH ≡ 92 }
{}

/// Appends a text with its escapes.
pub fn push_copy_text(out: &mut String, text: &str) -> Result<(), OutOfMemory>
    ensures text { OnOk result (string_bytes out.new ≡ string_bytes out.old ++ copy_text text.now) }
{
    if any_escape(text.as_bytes()) {
        return push_escaped(out, text);
    }
    out.push_str(text)?;
    Ok(())
}

/// Whether one of these bytes has an escape.
fn any_escape(text: &[u8]) -> bool
    ensures any { result ≡ list_any has_escape text.now }
{
    text.iter().any(|&byte| has_escape(byte))
}

/// Whether a byte has an escape.
#[inline(always)]
#[tactic(auto, unfolding(crate::specs::CopyText::has_escape))]
fn has_escape(byte: u8) -> bool
    ensures escape { result ≡ has_escape byte }
{
    (BACKSPACE <= byte && byte <= RETURN) || byte == BACKSLASH
}

/// Appends a text with its escapes, one character after another.
fn push_escaped(out: &mut String, text: &str) -> Result<(), OutOfMemory>
    ensures text { OnOk result (string_bytes out.new ≡ string_bytes out.old ++ copy_text text.now) }
{
    for character in text.chars() {
        push_character(out, character)?;
    }
    Ok(())
}

/// Appends a character of a text, with its escape where it has one.
fn push_character(out: &mut String, character: char) -> Result<(), OutOfMemory>
    ensures text { OnOk result (string_bytes out.new ≡ string_bytes out.old ++ copy_text (encode_utf8 character)) }
{
    match escape_of(character) {
        Some(escape) => out.push_str(escape)?,
        None => out.push(character)?,
    }
    Ok(())
}

/// The escape of a character. `None`: it has none.
#[tactic(auto, unfolding(crate::specs::CopyText::text_of_byte, crate::specs::CopyText::has_escape))]
fn escape_of(character: char) -> Option<&'static str>
    ensures escape { IfSome result (λ escape. escape.now ≡ text_of_byte character) }
    ensures ascii { IsSome result → character < 128 }
    ensures none { IsNone result → has_escape character ≡ false }
{
    match character {
        '\u{8}' => Some("\\b"),
        '\t' => Some("\\t"),
        '\n' => Some("\\n"),
        '\u{b}' => Some("\\v"),
        '\u{c}' => Some("\\f"),
        '\r' => Some("\\r"),
        '\\' => Some("\\\\"),
        _ => None,
    }
}
