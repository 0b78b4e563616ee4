//! Many tags whose keys come in no order: their pieces are put in order before the tags are kept.
ghost use Rattle.std.specs.Prelude.{◌≡◌, [], ◌++◌, IfOk, OnOk};
ghost use Rattle.std.specs.FinMap as map;
ghost use Rattle.std.specs.List.{slice_split};
ghost use Rattle.std.specs.List.Sorted.{IsPermutation};
ghost use Rattle.opl_object.specs.Fields.{is};
ghost use Rattle.opl_object.specs.Mixed.{tags_in};
ghost use Rattle.opl_object.specs.Tags.{gathered, with_piece};
ghost use Rattle.opl_object.specs.Why.{each_piece};

use crate::Why;
use crate::ascii::COMMA;
use crate::fields::{cut, pieces};
use crate::tag::{add_piece, key_in};
use osm_base::{OutOfMemory, TagList};
use std::alloc::Global;

/// Keys come in no order where so many rise and so many fall.
const MANY: usize = 16;

/// So many bytes of a key are compared as a number.
const FRONT: usize = 16;

/// A piece that is a tag, and the front of its key.
#[derive(Clone, Copy)]
struct Piece<'a> {
    front: u128,
    text: &'a str,
}

/// Whether the pieces between commas begin in no order.
pub(crate) fn are_mixed(text: &str) -> bool {
    let mut rises = 0_usize;
    let mut falls = 0_usize;
    let mut last = 0;
    let mut left = Some(text);
    while let Some(text) = left {
        let front = front_of(text.as_bytes());
        if front < last {
            falls = falls.saturating_add(1);
        } else {
            rises = rises.saturating_add(1);
        }
        if MANY < rises.min(falls) {
            return true;
        }
        last = front;
        let (_, later) = cut(text, COMMA);
        left = later;
    }
    false
}

/// Adds the tags of the pieces between commas up to the first piece that is no tag, and answers why
/// it is none. Those whose keys begin lower come first.
pub(crate) fn add_mixed(
    alloc: Global,
    list: &mut TagList,
    text: &str,
) -> Result<Option<Why>, OutOfMemory>
    requires { list.old ≡ [] }
    ensures tags { IfOk result (λ fault. each_piece with_piece map.empty (slice_split (is COMMA) text.now)
        ≡ gathered list.new fault) }
{
    let mut found = Vec::with_capacity(alloc, pieces(text))?;
    let fault = find_tags(&mut found, text)?;
    sort(&mut found);
    add_found(alloc, list, &found)?;
    Ok(fault)
}

/// Finds the pieces up to the first that is no tag, and answers why it is none.
fn find_tags<'a>(found: &mut Vec<Piece<'a>>, text: &'a str) -> Result<Option<Why>, OutOfMemory>
    requires { found.old.items ≡ [] }
    ensures tags { IfOk result (λ fault. each_piece with_piece map.empty (slice_split (is COMMA) text.now)
        ≡ gathered (tags_in found.new.items) fault) }
{
    let mut left = Some(text);
    while let Some(text) = left {
        let (piece, later) = cut(text, COMMA);
        match key_in(piece) {
            Ok(key) => found.push(Piece {
                front: front_of(key.as_bytes()),
                text: piece,
            })?,
            Err(why) => return Ok(Some(why)),
        }
        left = later;
    }
    Ok(None)
}

/// Puts pieces in the order of the fronts of their keys.
fn sort(found: &mut Vec<Piece<'_>>)
    ensures permutation { IsPermutation found.old.items found.new.items }
{
    found.sort_unstable_by_key(|piece| piece.front);
}

/// Adds the tags of pieces.
fn add_found(alloc: Global, list: &mut TagList, found: &[Piece<'_>]) -> Result<(), OutOfMemory>
    ensures tags { OnOk result (list.new ≡ list.old ++ tags_in found.now) }
{
    for piece in found {
        // Each is a tag, so that only memory can be missing.
        match add_piece(alloc, list, piece.text) {
            Ok(()) => {}
            Err(_) => return Err(OutOfMemory),
        }
    }
    Ok(())
}

/// The front of a text as a number, with zeros behind a shorter one.
fn front_of(text: &[u8]) -> u128 {
    let len = text.len().min(FRONT);
    let mut front = [0; FRONT];
    front[..len].copy_from_slice(&text[..len]);
    u128::from_be_bytes(front)
}
