//! A text as it is written, with escapes.
ghost use Rattle.std.specs.Prelude.{◌≡◌, ◌<◌, ◌≤◌, ◌^◌, ◌++◌, not, false, length, drop, slice_index, OnOk, OnErr, IsTrue, MatchOption};
ghost use Rattle.std.specs.Char.{encode_utf8, digit_char, IsScalar};
ghost use Rattle.std.specs.Io.KnownBytes.{Appends};
ghost use Rattle.std.specs.List.{list_all, prefix_len, position_or_len};
ghost use Rattle.std.specs.Str.{IsUtf8, chars};
ghost use Rattle.outside.specs.Bytes.{AppendsPrefix};
ghost use Rattle.outside.specs.Causes.{HasCause};
ghost use Rattle.opl_object.specs.Escapes.{is_bare, is_zero, escape_text, written_text, IsText};

use outside::{Failed, Sink, put_all};

/// The bytes of the longest escape: six digits between percent signs.
const LONGEST: usize = 8;

/// Puts a text: what may stand as it is in one piece up to the next escape.
pub(crate) fn put_text<S: Sink>(out: &mut S, text: &str) -> Result<(), Failed>
    ensures ok { OnOk result (Appends (S.view out.old).taken (S.view out.new).taken (written_text (chars text.now))) }
    ensures err { OnErr result (AppendsPrefix (S.view out.old).taken (S.view out.new).taken (written_text (chars text.now))) }
    ensures cause { HasCause (S.view out.old).faults (S.view out.new).faults result }
    ensures text { IsText (chars text.now) }
{
    let mut rest = text;
    loop {
        let (bare, behind) = split_bare(rest);
        put_all(out, bare.as_bytes())?;
        let Some((code, after)) = first_char(behind) else {
            return Ok(());
        };
        put_escape(out, code)?;
        rest = after;
    }
}

/// What may stand as it is at the front of a text, and what stands behind it.
fn split_bare(text: &str) -> (&str, &str)
    ensures whole { text.now ≡ result.0.now ++ result.1.now }
    ensures bare { IsTrue (list_all is_bare result.0.now) }
    ensures stop { is_bare (slice_index result.1.now 0) ≡ false }
    ensures text { IsUtf8 result.1.now }
{
    text.split_at(bare_len(text.as_bytes()))
}

/// How many bytes at the front may stand as they are.
fn bare_len(text: &[u8]) -> usize
    ensures len { result ≡ position_or_len (λ byte. not (is_bare byte)) text.now }
{
    for (place, &byte) in text.iter().enumerate() {
        if !is_bare(byte) {
            return place;
        }
    }
    text.len()
}

/// Whether a byte may stand as it is.
fn is_bare(byte: u8) -> bool
    ensures value { result ≡ is_bare byte }
{
    byte.is_ascii_alphanumeric()
        || byte == b'_'
        || byte == b'-'
        || byte == b'.'
        || byte == b':'
        || byte == b'/'
}

/// The first character of a text, and what stands behind it.
fn first_char(text: &str) -> Option<(char, &str)>
    ensures first { MatchOption result (length text.now ≡ 0) (λ (code, after). text.now ≡ encode_utf8 code ++ after.now) }
{
    let mut characters = text.chars();
    let code = characters.next()?;
    Some((code, characters.as_str()))
}

/// Puts the escape of a character.
fn put_escape<S: Sink>(out: &mut S, code: char) -> Result<(), Failed>
    ensures ok { OnOk result (Appends (S.view out.old).taken (S.view out.new).taken (escape_text code)) }
    ensures err { OnErr result (AppendsPrefix (S.view out.old).taken (S.view out.new).taken (escape_text code)) }
    ensures cause { HasCause (S.view out.old).faults (S.view out.new).faults result }
{
    let mut text = [0; LONGEST];
    let start = write_escape(u32::from(code), &mut text);
    put_all(out, &text[start..])?;
    Ok(())
}

/// Writes an escape at the end of the bytes, and says where it starts.
fn write_escape(code: u32, text: &mut [u8; LONGEST]) -> usize
    requires { code < 2 ^ 24 }
    ensures written { drop result text.new ≡ escape_text code }
    ensures start { result ≤ LONGEST }
{
    *text = [
        b'%',
        digit(code / 0x10_0000 % 16),
        digit(code / 0x1_0000 % 16),
        digit(code / 0x1000 % 16),
        digit(code / 0x100 % 16),
        digit(code / 0x10 % 16),
        digit(code % 16),
        b'%',
    ];
    let start = zeros_len(&text[1..]);
    text[start] = b'%';
    start
}

/// How many zeros stand at the front.
fn zeros_len(digits: &[u8]) -> usize
    ensures len { result ≡ prefix_len is_zero digits.now }
{
    for (place, &digit) in digits.iter().enumerate() {
        if digit != b'0' {
            return place;
        }
    }
    digits.len()
}

/// The hexadecimal digit of a number, in lower case.
fn digit(number: u32) -> u8
    requires { number < 16 }
    ensures digit { result ≡ digit_char number }
{
    let number = number as u8;
    if number < 10 {
        b'0' + number
    } else {
        b'a' - 10 + number
    }
}
