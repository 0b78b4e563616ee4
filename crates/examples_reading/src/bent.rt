//! Lines that are bent a little.
ghost use Rattle.std.specs.Prelude.{◌≤◌, length};

use crate::dice::Dice;
use std::alloc::{AllocError, Global};

/// Bytes that mean something in a line, and some that stand in none.
const BYTES: [u8; 33] = *b" \t,=@%-.:#0159axynwrTNMcdtiuvVDZ\xff";

/// A line with one byte, one field or one item of a list changed, dropped, doubled, put in or moved.
pub fn bent(alloc: Global, dice: &mut Dice, line: &[u8]) -> Result<Vec<u8>, AllocError> {
    let (front, back) = line.split_at(dice.below(line.len() + 1));
    let byte = [BYTES[dice.below(BYTES.len())]];
    let (first, rest) = back.split_at(back.len().min(1));
    match dice.below(8) {
        0 => joined_texts(alloc, [front, &byte, rest, &[]]),
        1 => joined_texts(alloc, [front, rest, &[], &[]]),
        2 => joined_texts(alloc, [front, first, back, &[]]),
        3 => joined_texts(alloc, [front, &byte, back, &[]]),
        4 => joined_texts(alloc, [front, &[], &[], &[]]),
        way => with_pieces(
            alloc,
            way,
            if dice.below(2) == 0 { b' ' } else { b',' },
            line,
            front.len(),
        ),
    }
}

/// A line with a piece behind this place dropped, doubled or moved behind the next. Each begins with `mark`.
fn with_pieces(
    alloc: Global,
    way: usize,
    mark: u8,
    line: &[u8],
    place: usize,
) -> Result<Vec<u8>, AllocError>
    requires { place ≤ length line.now }
{
    let (before, back) = line.split_at(place);
    let (more, pieces) = cut_before(mark, back);
    let (piece, behind) = cut_before(mark, pieces);
    let (next, rest) = cut_before(mark, behind);
    let front = joined_texts(alloc, [before, more, &[], &[]])?;
    match way {
        5 => joined_texts(alloc, [&front, behind, &[], &[]]),
        6 => joined_texts(alloc, [&front, piece, pieces, &[]]),
        _ => joined_texts(alloc, [&front, next, piece, rest]),
    }
}

/// What stands before the first `mark` behind the first byte, and the text from there on.
fn cut_before(mark: u8, text: &[u8]) -> (&[u8], &[u8]) {
    for (place, &byte) in text.iter().enumerate() {
        if byte == mark && 0 < place {
            return text.split_at(place);
        }
    }
    (text, &[])
}

/// Texts one behind the other.
fn joined_texts(alloc: Global, texts: [&[u8]; 4]) -> Result<Vec<u8>, AllocError> {
    let mut line = Vec::with_capacity(alloc, 256)?;
    for text in texts {
        line.extend_from_slice(text)?;
    }
    Ok(line)
}
