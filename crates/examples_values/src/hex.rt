//! Bytes as a row writes them: two hexadecimal digits each, with blanks between where they help.
use osm_base::OutOfMemory;
use std::alloc::Global;

/// The bytes that these digits write. `None`: they write none.
pub fn bytes_of(alloc: Global, digits: &str) -> Result<Option<Vec<u8>>, OutOfMemory> {
    let mut bytes = Vec::with_capacity(alloc, digits.len() / 2)?;
    let mut high = None;
    for letter in digits.chars() {
        if letter == ' ' {
            continue;
        }
        let Some(digit) = letter.to_digit(16) else {
            return Ok(None);
        };
        match high {
            None => high = Some(digit),
            Some(first) => {
                bytes.push(byte_of(first, digit))?;
                high = None;
            }
        }
    }
    if high.is_some() {
        return Ok(None);
    }
    Ok(Some(bytes))
}

/// The byte of two digits.
fn byte_of(high: u32, low: u32) -> u8 {
    (high % 16 * 16 + low % 16) as u8
}

/// What is told of a value that was read out of bytes and gives these again.
pub fn told(mut text: String, bytes: &[u8], again: &[u8]) -> Result<Option<String>, OutOfMemory> {
    if bytes != again {
        text.push_str(", but written as other bytes")?;
    }
    Ok(Some(text))
}

/// What is told where the bytes are no value.
pub fn none(alloc: Global) -> Result<Option<String>, OutOfMemory> {
    Ok(Some(String::from_str(alloc, "none")?))
}
