//! The single entries of a square.
ghost use Rattle.std.specs.Prelude.{◌≡◌, ◌+◌, ◌*◌, ◌<◌, ◌≤◌, IfOk};
ghost use Rattle.osm_base.specs.values.Key.{IsId};
ghost use Rattle.osm_base.specs.values.Place.{PlaceOf};
ghost use Rattle.demo_map.specs.Demo as demo;

use crate::squares::{MAX_SQUARES, Squares};
use osm_base::{
    Entry, Ids, Key, Kind, Member, Members, Object, OutOfMemory, Place, TagList, Tags, Text,
};
use std::alloc::Global;

/// So far east and north of the south west corner of a square, in units of 1e-7 degree.
pub(crate) fn place_in(square: u32, east: u32, north: u32) -> Place
    requires few { square < MAX_SQUARES }
    requires east { east ≤ 11000 }
    requires north { north ≤ 11000 }
    ensures place { result ≡ demo.place_in square east north }
{
    let lon = (20_000 * (square % 1000) + east) as i32 - 1_700_000_000;
    let lat = (20_000 * (square / 1000) + north) as i32 - 800_000_000;
    Place::new(lon, lat)
}

/// A node at a place.
pub(crate) fn node_at(id: u64, place: Place, tags: Tags) -> Entry
    requires id { IsId id }
    ensures node { result ≡ demo.node_at id place tags }
{
    Entry {
        key: Key::new(Kind::Node, id),
        object: Some(Object::Node {
            place: Some(place),
            tags,
        }),
    }
}

/// The way of a square.
pub(crate) fn way_of(alloc: Global, square: u32) -> Result<Entry, OutOfMemory>
    ensures way { IfOk result (λ entry. entry ≡ demo.way_of square) }
{
    let before = 4 * u64::from(square);
    let corners = [before + 1, before + 2, before + 3, before + 4, before + 1];
    let nodes = Ids::from_vec(Vec::from_slice(alloc, &corners)?);
    let tags = Tags::one(alloc, "building", "yes")?;
    Ok(Entry {
        key: Key::new(Kind::Way, u64::from(square) + 1),
        object: Some(Object::Way { nodes, tags }),
    })
}

/// The relation of a tenth square of so many.
pub(crate) fn route_of(alloc: Global, squares: Squares, square: u32) -> Result<Entry, OutOfMemory>
    requires there { square < squares.count }
    ensures route { IfOk result (λ entry. entry ≡ demo.route_of squares.count square) }
{
    let id = u64::from(square) / 10 + 1;
    let members = members_of(alloc, square + 1, squares.count.min(square + 10) - square)?;
    let tags = route_tags(alloc, id)?;
    Ok(Entry {
        key: Key::new(Kind::Relation, id),
        object: Some(Object::Relation { members, tags }),
    })
}

/// So many ways from this one on, as members without a role.
fn members_of(alloc: Global, first: u32, count: u32) -> Result<Members, OutOfMemory>
    requires least { 1 ≤ first }
    requires few { first + count ≤ MAX_SQUARES + 1 }
    ensures members { IfOk result (λ members. members ≡ demo.members_of first count) }
{
    let mut members = Members::new(alloc);
    for id in first..first + count {
        members.push(Member {
            key: Key::new(Kind::Way, u64::from(id)),
            role: Text::from_str(alloc, "")?,
        })?;
    }
    Ok(members)
}

/// The tags of a route.
fn route_tags(alloc: Global, id: u64) -> Result<Tags, OutOfMemory>
    ensures tags { IfOk result (λ tags. tags ≡ demo.route_tags id) }
{
    let reference = format!(in alloc; "R{id}")?;
    let mut tags = TagList::with_room(alloc, 2, 32)?;
    tags.push("ref", reference.as_str())?;
    tags.push("type", "route")?;
    match tags.into_rising() {
        Some(tags) => Ok(tags),
        None => unreachable!(),
    }
}

/// The third corner of a square, moved.
pub(crate) fn moved_of(alloc: Global, square: u32) -> Entry
    requires few { square < MAX_SQUARES }
    ensures moved { result ≡ demo.moved_of square }
{
    let place = place_in(square, 11_000, 11_000);
    node_at(4 * u64::from(square) + 3, place, Tags::new(alloc))
}

/// The first corner of a square, deleted.
pub(crate) fn gone_of(square: u32) -> Entry
    ensures gone { result ≡ demo.gone_of square }
{
    Entry {
        key: Key::new(Kind::Node, 4 * u64::from(square) + 1),
        object: None,
    }
}
