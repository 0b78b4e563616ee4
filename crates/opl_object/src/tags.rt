//! The tags of an object.
ghost use Rattle.std.specs.Prelude.{◌≡◌, [], IfOk};
ghost use Rattle.std.specs.FinMap as map;
ghost use Rattle.std.specs.List.{slice_split};
ghost use Rattle.opl_object.specs.Fields.{is};
ghost use Rattle.opl_object.specs.Tags.{gathered, with_piece, tags_of};
ghost use Rattle.opl_object.specs.Why.{Gives, each_piece};

use crate::ascii::COMMA;
use crate::fields::{cut, pieces};
use crate::mixed::{add_mixed, are_mixed};
use crate::tag::{add_piece, usual_tag};
use crate::{LineRefused, Why};
use osm_base::{OutOfMemory, TagList, Tags};
use std::alloc::Global;

/// The tags of a longer value are looked through for the order of their keys.
const LONG: usize = 4096;

/// The tags of a value.
#[tactic(auto, unfolding(crate::specs::Tags::tags_of))]
pub(crate) fn tags_of(alloc: Global, usual: bool, text: &str) -> Result<Tags, LineRefused>
    ensures tags { Gives (λ tags. tags) result (tags_of text.now) }
{
    if text.is_empty() {
        return Ok(Tags::new(alloc));
    }
    tags_between(alloc, usual, text)
}

/// The tags of the pieces between commas.
fn tags_between(alloc: Global, usual: bool, text: &str) -> Result<Tags, LineRefused>
    ensures tags { Gives (λ tags. tags) result (each_piece with_piece map.empty (slice_split (is COMMA) text.now)) }
{
    let mut list = TagList::with_room(alloc, pieces(text), text.len())?;
    let fault = add_pieces(alloc, &mut list, usual, text)?;
    // A key that stands twice stands before the piece that is no tag.
    let Some(tags) = list.into_tags() else {
        return Err(LineRefused::Bad(Why::RepeatedKey));
    };
    match fault {
        Some(why) => Err(LineRefused::Bad(why)),
        None => Ok(tags),
    }
}

/// Adds the tags of the pieces between commas up to the first piece that is no tag, and answers why
/// it is none.
fn add_pieces(
    alloc: Global,
    list: &mut TagList,
    usual: bool,
    text: &str,
) -> Result<Option<Why>, OutOfMemory>
    requires { list.old ≡ [] }
    ensures tags { IfOk result (λ fault. each_piece with_piece map.empty (slice_split (is COMMA) text.now)
        ≡ gathered list.new fault) }
{
    if LONG < text.len() && are_mixed(text) {
        add_mixed(alloc, list, text)
    } else {
        add_in_turn(alloc, list, usual, text)
    }
}

/// The same, one after the other.
fn add_in_turn(
    alloc: Global,
    list: &mut TagList,
    usual: bool,
    text: &str,
) -> Result<Option<Why>, OutOfMemory>
    requires { list.old ≡ [] }
    ensures tags { IfOk result (λ fault. each_piece with_piece map.empty (slice_split (is COMMA) text.now)
        ≡ gathered list.new fault) }
{
    let mut left = Some(text);
    while let Some(text) = left {
        if let Some((key, value, later)) = usual_tag(usual, text) {
            list.push(key, value)?;
            left = later;
            continue;
        }
        let (piece, later) = cut(text, COMMA);
        match add_piece(alloc, list, piece) {
            Ok(()) => left = later,
            Err(LineRefused::Bad(why)) => return Ok(Some(why)),
            Err(LineRefused::OutOfMemory) => return Err(OutOfMemory),
        }
    }
    Ok(None)
}
