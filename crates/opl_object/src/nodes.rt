//! The node references of a way.
ghost use Rattle.std.specs.Prelude.{◌≡◌, ◌<◌, ◌≤◌, ℕ, [], ◌∷◌, Ok, IfOk, IfSome, length};
ghost use Rattle.std.specs.List.{slice_split};
ghost use Rattle.opl_object.specs.Fields.{is, later_pieces};
ghost use Rattle.osm_base.specs.values.Key.{IsId};
ghost use Rattle.opl_object.specs.Nodes.{numbered, placed, place_pair, node_of, with_node, nodes_of};
ghost use Rattle.opl_object.specs.Why.{Gives, Tells, each_piece};
ghost use Rattle.std.specs.Option.{option_map};

use crate::ascii::{COMMA, SMALL_N, SMALL_X, SMALL_Y};
use crate::coordinate::coordinate;
use crate::fields::{behind, cut, digits_len, pieces};
use crate::number::{id_of, usual_id};
use crate::{LineRefused, Why};
use osm_base::{Ids, MAX_LAT, MAX_LON};
use std::alloc::Global;

/// The greatest longitude and latitude, without a sign.
pub(crate) const FURTHEST_EAST: u32 = MAX_LON as u32;

pub(crate) const FURTHEST_NORTH: u32 = MAX_LAT as u32;

/// The node ids of a value.
#[tactic(auto, unfolding(crate::specs::Nodes::nodes_of))]
pub(crate) fn nodes_of(alloc: Global, usual: bool, text: &str) -> Result<Ids, LineRefused>
    ensures nodes { Gives (λ nodes. nodes) result (nodes_of text.now) }
{
    if text.is_empty() {
        return Ok(Ids::new(alloc));
    }
    Ok(Ids::from_vec(nodes_between(alloc, usual, text)?))
}

/// The node ids of the pieces between commas.
fn nodes_between(alloc: Global, usual: bool, text: &str) -> Result<Vec<u64>, LineRefused>
    ensures nodes { Gives (λ nodes. nodes.items) result (each_piece with_node [] (slice_split (is COMMA) text.now)) }
{
    let mut nodes = Vec::with_capacity(alloc, pieces(text))?;
    let mut left = Some(text);
    while let Some(text) = left {
        if let Some((id, _, later)) = usual_node(usual, text) {
            nodes.push(id)?;
            left = later;
            continue;
        }
        let (piece, later) = cut(text, COMMA);
        nodes.push(node_of(usual, piece)?)?;
        left = later;
    }
    Ok(nodes)
}

/// The id of a node reference without a place in front of a text, its digits, and what stands behind their comma.
fn usual_node(usual: bool, text: &str) -> Option<(u64, &str, Option<&str>)>
    ensures pieces { IfSome result (λ (_, digits, later). slice_split (is COMMA) text.now
        ≡ (SMALL_N ∷ digits.now) ∷ later_pieces (is COMMA) (option_map (λ rest. rest.now) later)) }
    ensures node { IfSome result (λ (id, digits, _). node_of (SMALL_N ∷ digits.now) ≡ Ok id) }
    ensures shorter { IfSome result (λ (_, _, later). IfSome later (λ rest. length rest.now < length text.now)) }
{
    if !usual {
        return None;
    }
    let rest = behind(text, SMALL_N)?;
    let (id, len) = usual_id(rest.as_bytes())?;
    let (digits, rest) = rest.split_at(len);
    if rest.is_empty() {
        return Some((id, digits, None));
    }
    let later = behind(rest, COMMA)?;
    Some((id, digits, Some(later)))
}

/// The id of a node reference.
#[tactic(auto, unfolding(crate::specs::Nodes::node_of))]
fn node_of(usual: bool, piece: &str) -> Result<u64, Why>
    ensures node { result ≡ node_of piece.now }
{
    let Some(rest) = behind(piece, SMALL_N) else {
        return Err(Why::Member);
    };
    let (id, place) = numbered(usual, rest)?;
    placed(place)?;
    Ok(id)
}

/// The digits in front as an id, and what stands after them.
pub(crate) fn numbered(usual: bool, text: &str) -> Result<(u64, &str), Why>
    ensures parts { Tells (λ (id, rest). (id, rest.now)) result (numbered text.now) }
    ensures id { IfOk result (λ (id, _). IsId id) }
{
    if !usual {
        return exactly_numbered(text);
    }
    match usual_id(text.as_bytes()) {
        Some((id, len)) => {
            let (_, rest) = text.split_at(len);
            Ok((id, rest))
        }
        None => exactly_numbered(text),
    }
}

/// The same of any digits.
#[tactic(auto, unfolding(crate::specs::Nodes::numbered))]
fn exactly_numbered(text: &str) -> Result<(u64, &str), Why>
    ensures parts { Tells (λ (id, rest). (id, rest.now)) result (numbered text.now) }
    ensures id { IfOk result (λ (id, _). IsId id) }
{
    let (digits, rest) = text.split_at(digits_len(text.as_bytes()));
    Ok((id_of(digits.as_bytes())?, rest))
}

/// Tests that nothing stands after an id, or a place.
#[tactic(auto, unfolding(crate::specs::Nodes::placed))]
fn placed(text: &str) -> Result<(), Why>
    ensures place { result ≡ placed text.now }
{
    if text.is_empty() {
        return Ok(());
    }
    let Some(place) = behind(text, SMALL_X) else {
        return Err(Why::Member);
    };
    let (lon, lat) = cut(place, SMALL_Y);
    let Some(lat) = lat else {
        return Err(Why::HalfPlace);
    };
    place_pair(lon, lat)
}

/// Tests that nothing stands on both sides, or a longitude and a latitude.
#[tactic(auto, unfolding(crate::specs::Nodes::place_pair))]
fn place_pair(lon: &str, lat: &str) -> Result<(), Why>
    ensures place { result ≡ place_pair lon.now lat.now }
{
    if lon.is_empty() && lat.is_empty() {
        return Ok(());
    }
    if lon.is_empty() || lat.is_empty() {
        return Err(Why::HalfPlace);
    }
    coordinate(FURTHEST_EAST, lon.as_bytes())?;
    coordinate(FURTHEST_NORTH, lat.as_bytes())?;
    Ok(())
}
