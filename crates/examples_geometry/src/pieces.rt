//! Pieces that are tested, taken, joined and closed.
ghost use Rattle.std.specs.Prelude.{IfOk, IfSome};
ghost use Rattle.piece_ends.specs.Pieces.{ArePieces};

use crate::notation::{
    line_of_word, lines_of, place_of, push_word, text_of_answers, text_of_lines, word_of_line,
};
use line_build::join_lines;
use osm_base::{LineList, OutOfMemory, Place, Places};
use piece_ends::{UnusedPieces, are_pieces, extend};
use ring_build::rings_of;
use std::alloc::{AllocError, Global};

/// The pieces that a text writes. `None`: they can't be joined.
fn pieces_of(alloc: Global, text: &str) -> Result<Option<LineList>, OutOfMemory>
    ensures pieces { IfOk result (λ found. IfSome found ArePieces) }
{
    let Some(lines) = lines_of(alloc, text)? else {
        return Ok(None);
    };
    if are_pieces(&lines) {
        return Ok(Some(lines));
    }
    Ok(None)
}

/// Whether lines may be joined.
pub fn tested(alloc: Global, given: &str) -> Result<Option<String>, OutOfMemory> {
    let Some(lines) = lines_of(alloc, given)? else {
        return Ok(None);
    };
    Ok(Some(text_of_answers(alloc, &[are_pieces(&lines)])?))
}

/// What is taken of pieces: the first one, or the first at a place.
pub fn taken(alloc: Global, given: &str) -> Result<Option<String>, OutOfMemory> {
    let Some((pieces, deeds)) = given.split_once('/') else {
        return Ok(None);
    };
    let Some(pieces) = pieces_of(alloc, pieces)? else {
        return Ok(None);
    };
    let mut unused = UnusedPieces::new(alloc, &pieces)?;
    let mut text = String::new(alloc);
    for deed in deeds.split_ascii_whitespace() {
        let piece = match place_of(deed) {
            Some(place) => unused.take_at(place),
            None => unused.take_first(),
        };
        push_piece(alloc, &mut text, piece)?;
    }
    Ok(Some(text))
}

/// Adds the word of a piece, or `-` for none.
fn push_piece(alloc: Global, text: &mut String, piece: Option<&Places>) -> Result<(), AllocError> {
    match piece {
        None => push_word(text, "-"),
        Some(piece) => push_word(text, word_of_line(alloc, piece.as_slice())?.as_str()),
    }
}

/// A line made longer out of pieces.
pub fn extended(alloc: Global, given: &str) -> Result<Option<String>, OutOfMemory> {
    let Some((line, pieces)) = given.split_once('/') else {
        return Ok(None);
    };
    let Some(pieces) = pieces_of(alloc, pieces)? else {
        return Ok(None);
    };
    match line_of_word(alloc, line.trim())? {
        None => Ok(None),
        Some(line) => extended_by(alloc, line.into_vec(), &pieces),
    }
}

fn extended_by(
    alloc: Global,
    mut line: Vec<Place>,
    pieces: &LineList,
) -> Result<Option<String>, OutOfMemory>
    requires { ArePieces pieces.now }
{
    if line.is_empty() {
        return Ok(None);
    }
    let mut unused = UnusedPieces::new(alloc, pieces)?;
    extend(&mut line, &mut unused)?;
    Ok(Some(word_of_line(alloc, line.as_slice())?))
}

/// Pieces joined to lines.
pub fn joined_lines(alloc: Global, given: &str) -> Result<Option<String>, OutOfMemory> {
    let Some(pieces) = pieces_of(alloc, given)? else {
        return Ok(None);
    };
    let lines = join_lines(alloc, &pieces)?;
    Ok(Some(text_of_lines(alloc, lines.as_slice())?))
}

/// Pieces closed to rings, and `-` where they make none.
pub fn closed(alloc: Global, given: &str) -> Result<Option<String>, OutOfMemory> {
    let Some(pieces) = pieces_of(alloc, given)? else {
        return Ok(None);
    };
    match rings_of(alloc, &pieces)? {
        None => Ok(Some(String::from_str(alloc, "-")?)),
        Some(rings) => Ok(Some(text_of_lines(alloc, rings.as_slice())?)),
    }
}
