//! The points and the line of a way.
ghost use Rattle.std.specs.Prelude.{◌≡◌, IfOk};
ghost use Rattle.std.specs.List.{filter_map};
ghost use Rattle.piece_ends.specs.Points.{points, line};

use osm_base::{Lookup, OutOfMemory, Place, Places};
use std::alloc::Global;

/// The places of nodes that have one, in order, each that equals the one before it dropped.
pub fn points_of<L: Lookup>(alloc: Global, lookup: &L, ids: &[u64]) -> Result<Places, OutOfMemory>
    ensures points { IfOk result (λ places. places ≡ points (L.known lookup.now).place ids.now) }
{
    let mut places = places_of(alloc, lookup, ids)?;
    places.dedup();
    Ok(Places::from_vec(places))
}

/// The line along these nodes. `None`: it has fewer than two points.
pub fn line_of<L: Lookup>(
    alloc: Global,
    lookup: &L,
    ids: &[u64],
) -> Result<Option<Places>, OutOfMemory>
    ensures line { IfOk result (λ found. found ≡ line (L.known lookup.now).place ids.now) }
{
    let places = points_of(alloc, lookup, ids)?;
    if places.as_slice().len() < 2 {
        return Ok(None);
    }
    Ok(Some(places))
}

/// The places of nodes that have one, in order.
fn places_of<L: Lookup>(alloc: Global, lookup: &L, ids: &[u64]) -> Result<Vec<Place>, OutOfMemory>
    ensures places { IfOk result (λ places. places.items ≡ filter_map (L.known lookup.now).place ids.now) }
{
    let mut places = Vec::with_capacity(alloc, ids.len())?;
    for &id in ids {
        if let Some(place) = lookup.place_of(id) {
            places.push(place)?;
        }
    }
    Ok(places)
}
