//! The members of a relation, and the kinds of objects.
ghost use Rattle.std.specs.Prelude.{◌≡◌, ◌<◌, [], IfSome};
ghost use Rattle.std.specs.List.{slice_split};
ghost use Rattle.std.specs.Option.{option_map};
ghost use Rattle.opl_object.specs.Fields.{is};
ghost use Rattle.opl_object.specs.Members.{kind_of, kind_at, with_role, member_of, with_member, members_of};
ghost use Rattle.opl_object.specs.Why.{Gives, each_piece};

use crate::ascii::{AT, COMMA};
use crate::fields::{after_first, behind, cut, first_byte, pieces};
use crate::nodes::numbered;
use crate::text::text_of;
use crate::{LineRefused, Why};
use osm_base::{Key, Kind, Member, Members};
use std::alloc::Global;

/// The members of a value.
#[tactic(auto, unfolding(crate::specs::Members::members_of))]
pub(crate) fn members_of(alloc: Global, usual: bool, text: &str) -> Result<Members, LineRefused>
    ensures members { Gives (λ members. members) result (members_of text.now) }
{
    if text.is_empty() {
        return Ok(Members::new(alloc));
    }
    Ok(Members::from_vec(members_between(alloc, usual, text)?))
}

/// The members of the pieces between commas.
fn members_between(alloc: Global, usual: bool, text: &str) -> Result<Vec<Member>, LineRefused>
    ensures members { Gives (λ members. members.items) result
        (each_piece with_member [] (slice_split (is COMMA) text.now)) }
{
    let mut members = Vec::with_capacity(alloc, pieces(text))?;
    let mut left = Some(text);
    while let Some(text) = left {
        let (piece, later) = cut(text, COMMA);
        members.push(member_of(alloc, usual, piece)?)?;
        left = later;
    }
    Ok(members)
}

/// The member that a piece is.
#[tactic(auto, unfolding(crate::specs::Members::member_of))]
fn member_of(alloc: Global, usual: bool, piece: &str) -> Result<Member, LineRefused>
    ensures member { Gives (λ member. member) result (member_of piece.now) }
{
    let Some((kind, rest)) = kind_at(piece) else {
        return Err(LineRefused::Bad(Why::Member));
    };
    let (id, rest) = numbered(usual, rest)?;
    with_role(alloc, Key::new(kind, id), rest)
}

/// A member with the role that stands after the at sign.
#[tactic(auto, unfolding(crate::specs::Text::text_of))]
fn with_role(alloc: Global, key: Key, text: &str) -> Result<Member, LineRefused>
    ensures member { Gives (λ member. member) result (with_role key text.now) }
{
    let Some(spelled) = behind(text, AT) else {
        return Err(LineRefused::Bad(Why::Member));
    };
    let role = text_of(alloc, spelled)?;
    Ok(Member {
        key,
        role: role.into_text(alloc)?,
    })
}

/// The kind in front of a text, and what stands behind it.
pub(crate) fn kind_at(text: &str) -> Option<(Kind, &str)>
    ensures value { option_map (λ (kind, rest). (kind, rest.now)) result ≡ kind_at text.now }
{
    match kind_of(first_byte(text)) {
        Some(kind) => Some((kind, after_first(text))),
        None => None,
    }
}

/// The kind that a letter stands for.
#[tactic(auto, unfolding(crate::specs::Members::kind_of))]
fn kind_of(byte: u8) -> Option<Kind>
    ensures value { result ≡ kind_of byte }
    ensures some { IfSome result (λ _. 0 < byte) }
    ensures ascii { IfSome result (λ _. byte < 128) }
{
    match byte {
        b'n' => Some(Kind::Node),
        b'w' => Some(Kind::Way),
        b'r' => Some(Kind::Relation),
        _ => None,
    }
}
