//! What the rows of a run add to it. False, or `None`: a row is not in its form.
ghost use Rattle.std.specs.Prelude.{◌≡◌};
ghost use Rattle.std.specs.Bool.{OnFalse};

use example_table::{bytes_of, number_in, unescaped, words_of};
use std::alloc::{AllocError, Global};

/// Sets a number. It stays where the text is none.
pub fn set_number(number: &mut u64, text: &str) -> bool
    ensures stays { OnFalse result (number.new ≡ number.old) }
{
    match number_in(text) {
        Some(value) => {
            *number = value;
            true
        }
        None => false,
    }
}

/// Sets a text.
pub fn set_text(alloc: Global, place: &mut String, text: &str) -> Result<bool, AllocError> {
    match unescaped(alloc, text)? {
        Some(value) => {
            *place = value;
            Ok(true)
        }
        None => Ok(false),
    }
}

/// Adds words: those of a text, a text that is one word, or a number and a word that comes so many times.
pub fn push_words(
    alloc: Global,
    words: &mut Vec<String>,
    row: &str,
    text: &str,
) -> Result<bool, AllocError> {
    match row {
        "words" => match words_of(alloc, text)? {
            Some(more) => {
                for word in more {
                    words.push(word)?;
                }
                Ok(true)
            }
            None => Ok(false),
        },
        "word" => push_word(alloc, words, 1, text),
        _ => match counted(text) {
            Some((count, text)) => push_word(alloc, words, count, text),
            None => Ok(false),
        },
    }
}

/// Adds a word so many times.
fn push_word(
    alloc: Global,
    words: &mut Vec<String>,
    count: u64,
    text: &str,
) -> Result<bool, AllocError> {
    let Some(word) = unescaped(alloc, text)? else {
        return Ok(false);
    };
    for _ in 0..count {
        words.push(String::from_str(alloc, word.as_str())?)?;
    }
    Ok(true)
}

/// Adds bytes: a line, a part of one, a number and a part that comes so many times, or two numbers and a line
/// that comes with each number from the first to the second in place of each `#`.
pub fn push_bytes(
    alloc: Global,
    bytes: &mut Vec<u8>,
    row: &str,
    text: &str,
) -> Result<bool, AllocError> {
    match row {
        "|" => push_part(alloc, bytes, 1, text, b"\n"),
        "part" => push_part(alloc, bytes, 1, text, b""),
        "part-times" => match counted(text) {
            Some((count, part)) => push_part(alloc, bytes, count, part, b""),
            None => Ok(false),
        },
        _ => match counted(text) {
            Some((first, rest)) => match counted(rest) {
                Some((last, line)) => push_each(alloc, bytes, first, last, line),
                None => Ok(false),
            },
            None => Ok(false),
        },
    }
}

/// A number, and the text behind it.
fn counted(text: &str) -> Option<(u64, &str)> {
    let (number, rest) = text.split_once(' ')?;
    Some((number_in(number)?, rest))
}

/// Adds a part so many times, each with this end.
fn push_part(
    alloc: Global,
    bytes: &mut Vec<u8>,
    count: u64,
    field: &str,
    end: &[u8],
) -> Result<bool, AllocError> {
    let Some(part) = bytes_of(alloc, field)? else {
        return Ok(false);
    };
    for _ in 0..count {
        bytes.extend_from_slice(&part)?;
        bytes.extend_from_slice(end)?;
    }
    Ok(true)
}

/// Adds a line with each of these numbers in place of each `#`.
fn push_each(
    alloc: Global,
    bytes: &mut Vec<u8>,
    first: u64,
    last: u64,
    field: &str,
) -> Result<bool, AllocError> {
    let Some(line) = bytes_of(alloc, field)? else {
        return Ok(false);
    };
    let mut digits = itoa::Buffer::new();
    for number in first..last {
        push_numbered(bytes, &line, digits.format(number).as_bytes())?;
    }
    push_numbered(bytes, &line, digits.format(last).as_bytes())?;
    Ok(true)
}

/// Adds a line with this number in place of each `#`.
fn push_numbered(bytes: &mut Vec<u8>, line: &[u8], number: &[u8]) -> Result<(), AllocError> {
    for byte in line {
        if *byte == b'#' {
            bytes.extend_from_slice(number)?;
        } else {
            bytes.push(*byte)?;
        }
    }
    bytes.push(b'\n')?;
    Ok(())
}
