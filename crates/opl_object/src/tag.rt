//! One tag of a value: the piece that it is written in.
ghost use Rattle.std.specs.Prelude.{◌≡◌, ◌<◌, ◌∷◌, ◌++◌, Ok, OnErr, IfSome, IsTrue, length};
ghost use Rattle.std.specs.List.{slice_split};
ghost use Rattle.std.specs.Option.{option_map};
ghost use Rattle.std.specs.Str.{chars};
ghost use Rattle.opl_object.specs.Fields.{is, cut_at, later_pieces};
ghost use Rattle.opl_object.specs.Tags.{listed, tag_in, tag_of};
ghost use Rattle.opl_object.specs.Text.{is_plain};
ghost use Rattle.opl_object.specs.Why.{Gives, Tells};
ghost use Rattle.opl_object.specs.declared.ascii.TheConstants.{COMMA, EQUALS};

use crate::ascii::{COMMA, EQUALS};
use crate::fields::{behind, cut};
use crate::text::{check_text, text_of};
use crate::usual::plain_len;
use crate::{LineRefused, Why};
use osm_base::TagList;
use std::alloc::Global;

/// Adds the tag of a piece.
#[tactic(auto, unfolding(crate::specs::Tags::listed, crate::specs::Text::text_of))]
pub(crate) fn add_piece(alloc: Global, list: &mut TagList, piece: &str) -> Result<(), LineRefused>
    ensures tags { Gives (λ _. list.new) result (listed list.old piece.now) }
    ensures kept { OnErr result (list.new ≡ list.old) }
{
    let (key, value) = cut(piece, EQUALS);
    let Some(value) = value else {
        return Err(LineRefused::Bad(Why::Tag));
    };
    let key = text_of(alloc, key)?;
    let value = text_of(alloc, value)?;
    list.push(key.as_str(), value.as_str())?;
    Ok(())
}

/// The key of a piece as it is written, where the piece is a tag.
pub(crate) fn key_in(piece: &str) -> Result<&str, Why>
    ensures tag { Tells (λ _. tag_of piece.now) result (tag_in (cut_at (is EQUALS) piece.now)) }
{
    let (key, behind) = cut(piece, EQUALS);
    let Some(value) = behind else {
        return Err(Why::Tag);
    };
    check_text(key)?;
    check_text(value)?;
    Ok(key)
}

/// A key and a value without escapes in front of a text, and what stands behind their comma.
pub(crate) fn usual_tag(usual: bool, text: &str) -> Option<(&str, &str, Option<&str>)>
    ensures pieces { IfSome result (λ (key, value, later). slice_split (is COMMA) text.now
        ≡ (key.now ++ EQUALS ∷ value.now) ∷ later_pieces (is COMMA) (option_map (λ rest. rest.now) later)) }
    ensures tag { IfSome result (λ (key, value, _). tag_in (cut_at (is EQUALS) (key.now ++ EQUALS ∷ value.now))
        ≡ Ok (chars key.now, chars value.now)) }
    ensures shorter { IfSome result (λ (_, _, later). IfSome later (λ rest. length rest.now < length text.now)) }
{
    if !usual {
        return None;
    }
    let (key, rest) = split_plain(text);
    let (value, rest) = split_plain(behind(rest, EQUALS)?);
    if rest.is_empty() {
        return Some((key, value, None));
    }
    let later = behind(rest, COMMA)?;
    Some((key, value, Some(later)))
}

/// What may stand in a text as it is at the front, and what stands behind it.
fn split_plain(text: &str) -> (&str, &str)
    ensures whole { text.now ≡ result.0.now ++ result.1.now }
    ensures plain { IsTrue (is_plain result.0.now) }
{
    text.split_at(plain_len(text.as_bytes()))
}
