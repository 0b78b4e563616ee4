//! The bytes that a field stands for.
ghost use Rattle.std.specs.Prelude.{◌<◌, length, IfSome};

use std::alloc::{AllocError, Global};

/// The bytes that a field stands for. `None`: a backslash is followed by what is no escape.
pub fn bytes_of(alloc: Global, field: &str) -> Result<Option<Vec<u8>>, AllocError> {
    let mut bytes = Vec::with_capacity(alloc, field.len())?;
    let mut rest = field.as_bytes();
    while let Some((byte, behind)) = first_of(rest) {
        bytes.push(byte)?;
        rest = behind;
    }
    Ok(if rest.is_empty() { Some(bytes) } else { None })
}

/// The text that a field stands for. `None`: it has an escape that is none, or bytes that are no text.
pub fn unescaped(alloc: Global, field: &str) -> Result<Option<String>, AllocError> {
    let Some(bytes) = bytes_of(alloc, field)? else {
        return Ok(None);
    };
    match std::str::from_utf8(&bytes) {
        Ok(text) => Ok(Some(String::from_str(alloc, text)?)),
        Err(_) => Ok(None),
    }
}

/// The texts that the words of a text stand for. `None`: one of them stands for none.
pub fn words_of(alloc: Global, text: &str) -> Result<Option<Vec<String>>, AllocError> {
    let mut words = Vec::new(alloc);
    for field in text.split_ascii_whitespace() {
        match unescaped(alloc, field)? {
            None => return Ok(None),
            Some(word) => words.push(word)?,
        }
    }
    Ok(Some(words))
}

/// The first byte that a text stands for, and the text behind what writes it.
/// `None`: the text is empty, or begins with an escape that is none.
fn first_of(text: &[u8]) -> Option<(u8, &[u8])>
    ensures shorter { IfSome result (λ (_, behind). length behind.now < length text.now) }
{
    match text {
        [b'\\', b'x', high, low, rest @ ..] => Some((byte_of(*high, *low)?, rest)),
        [b'\\', letter, rest @ ..] => Some((escaped(*letter)?, rest)),
        [b'\\'] | [] => None,
        [byte, rest @ ..] => Some((*byte, rest)),
    }
}

/// The byte that a backslash before a letter stands for.
fn escaped(letter: u8) -> Option<u8> {
    match letter {
        b'n' => Some(b'\n'),
        b't' => Some(b'\t'),
        b'r' => Some(b'\r'),
        b's' => Some(b' '),
        b'\\' => Some(b'\\'),
        _ => None,
    }
}

/// The byte that two hexadecimal digits write.
fn byte_of(high: u8, low: u8) -> Option<u8> {
    let high = char::from(high).to_digit(16)?;
    let low = char::from(low).to_digit(16)?;
    u8::try_from(high * 16 + low).ok()
}
