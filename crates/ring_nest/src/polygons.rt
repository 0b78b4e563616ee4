//! The polygons of rings.
ghost use Rattle.std.specs.Prelude.{◌≡◌, ◌+◌, ◌<◌, true, take, ◌%◌, ◌==◌, ◌&&◌, ◌++◌, ◌∷◌, [], List, length, map, IfOk, OnOk, if◌then◌else◌, slice_index_or, slice_set, All};
ghost use Rattle.std.specs.Option.{option_map};
ghost use Rattle.osm_base.specs.values.Line.{IsRing};
ghost use Rattle.osm_base.specs.values.Place.{PlaceOf};
ghost use Rattle.lanes_geo.specs.Nesting.{has_place, nested};
ghost use Rattle.ring_nest.specs.Holders.{inner_owner};
ghost use Rattle.ring_nest.specs.Polygons.{filled, polygons_from, slots_from};

use crate::boxed::BoxedRings;
use crate::boxes::boxes_of;
use crate::deep::DeepRings;
use crate::holders::depths_and_owners;
use osm_base::{LineList, OutOfMemory, Places, Polygons, TryCopy};
use std::alloc::Global;

/// The place of each ring's polygon among the polygons.
fn slots_of(alloc: Global, depths: &[usize]) -> Result<Vec<usize>, OutOfMemory>
    ensures { IfOk result (λ slots. slots.items ≡ slots_from 0 depths.now) }
{
    let mut slots = Vec::with_capacity(alloc, depths.len())?;
    let mut place = 0;
    for depth in depths {
        slots.push(place)?;
        place = next_place(place, *depth, slots.len());
    }
    Ok(slots)
}

/// The place after that of a ring of this depth.
fn next_place(place: usize, depth: usize, rings: usize) -> usize
    requires { place < rings }
    ensures { result ≡ (if depth % 2 == 0 then place + 1 else place) }
{
    if depth % 2 == 0 { place + 1 } else { place }
}

/// The polygon of an outer ring, without inner ones.
fn polygon_of(alloc: Global, ring: &Places) -> Result<LineList, OutOfMemory>
    ensures { IfOk result (λ polygon. polygon ≡ ring.now ∷ []) }
{
    let mut polygon = LineList::new(alloc);
    polygon.push(ring.copy(alloc)?)?;
    Ok(polygon)
}

/// Adds the polygon of an outer ring.
fn add_outer(
    alloc: Global,
    polygons: &mut Vec<LineList>,
    ring: &Places,
    depth: usize,
) -> Result<(), OutOfMemory>
    ensures { OnOk result (polygons.new.items ≡ (if depth % 2 == 0 then polygons.old.items ++ (ring.now ∷ []) ∷ [] else polygons.old.items)) }
{
    if depth % 2 == 0 {
        let polygon = polygon_of(alloc, ring)?;
        polygons.push(polygon)?;
        Ok(())
    } else {
        Ok(())
    }
}

/// The polygons of the outer rings alone.
fn outers_of(alloc: Global, deep: &DeepRings) -> Result<Vec<LineList>, OutOfMemory>
    ensures { IfOk result (λ polygons. polygons.items ≡ polygons_from deep.now.rings.now [] 0 deep.now.rings.now) }
{
    let rings = deep.rings;
    let depths = deep.depths;
    let mut polygons = Vec::with_capacity(alloc, rings.len())?;
    let mut at = 0;
    while rings.len() - at > 0 {
        add_outer(alloc, &mut polygons, &rings[at], depths[at])?;
        at += 1;
    }
    Ok(polygons)
}

/// Adds an inner ring to a polygon.
fn add_inner(polygons: &mut Vec<LineList>, slot: usize, ring: Places) -> Result<(), OutOfMemory>
    requires { slot < length polygons.old.items }
    ensures { OnOk result (polygons.new.items ≡ slice_set polygons.old.items slot (slice_index_or polygons.old.items slot [] ++ ring ∷ [])) }
{
    let polygon = &mut polygons[slot];
    polygon.push(ring)?;
    Ok(())
}

/// The place of a ring's polygon.
fn slot_at(slots: &[usize], number: usize) -> usize
    requires { number < length slots.now }
    ensures { result ≡ slice_index_or slots.now number 0 }
{
    slots[number]
}

/// Adds a ring, if it is an inner one, to the polygon that it belongs to, and tells whether it has a place.
fn add_ring(
    alloc: Global,
    deep: &DeepRings,
    owners: &[Option<usize>],
    slots: &[usize],
    at: usize,
    polygons: &mut Vec<LineList>,
) -> Result<bool, OutOfMemory>
    requires owners { owners.now ≡ map (inner_owner deep.now.rings.now) deep.now.rings.now }
    requires slots { slots.now ≡ slots_from 0 deep.now.depths.now }
    requires at { at < length deep.now.rings.now }
    requires so_far { polygons.old.items ≡ polygons_from deep.now.rings.now (take at deep.now.rings.now) 0 deep.now.rings.now }
    ensures placed { IfOk result (λ placed. placed ≡ has_place deep.now.rings.now (slice_index_or deep.now.rings.now at [])) }
    ensures added { IfOk result (λ placed. placed ≡ true → polygons.new.items ≡ polygons_from deep.now.rings.now (take (at + 1) deep.now.rings.now) 0 deep.now.rings.now) }
{
    let ring = &deep.rings[at];
    let depth = deep.depths[at];
    if depth % 2 == 0 {
        return Ok(true);
    }
    match owners[at] {
        None => Ok(false),
        Some(number) => {
            add_inner(polygons, slot_at(slots, number), ring.copy(alloc)?)?;
            Ok(true)
        }
    }
}

/// The polygons with their inner rings; none where an inner ring belongs to no ring.
fn with_inners(
    alloc: Global,
    deep: &DeepRings,
    owners: &[Option<usize>],
    outers: Vec<LineList>,
) -> Result<Option<Vec<LineList>>, OutOfMemory>
    requires owners { owners.now ≡ map (inner_owner deep.now.rings.now) deep.now.rings.now }
    requires outers { outers.items ≡ polygons_from deep.now.rings.now [] 0 deep.now.rings.now }
    ensures { IfOk result (λ polygons. option_map (λ some. some.items) polygons ≡ filled deep.now.rings.now) }
{
    let rings = deep.rings;
    let slots = slots_of(alloc, deep.depths)?;
    let mut polygons = outers;
    let mut at = 0;
    while rings.len() - at > 0 {
        if !add_ring(alloc, deep, owners, &slots, at, &mut polygons)? {
            return Ok(None);
        }
        at += 1;
    }
    Ok(Some(polygons))
}

/// The polygons of rings: each outer ring in order, followed by its inner rings in order. None where an inner ring belongs
/// to no outer one.
#[tactic(auto, using(crate::proofs::Outers::filled_is))]
pub fn nest(alloc: Global, rings: &LineList) -> Result<Option<Polygons>, OutOfMemory>
    requires { All IsRing rings.now }
    ensures { IfOk result (λ polygons. polygons ≡ nested rings.now) }
{
    let rings = rings.as_slice();
    let boxes = boxes_of(alloc, rings)?;
    let boxed = BoxedRings {
        rings,
        boxes: &boxes,
    };
    let (depths, owners) = depths_and_owners(alloc, &boxed)?;
    let deep = DeepRings {
        rings,
        depths: &depths,
    };
    let outers = outers_of(alloc, &deep)?;
    match with_inners(alloc, &deep, &owners, outers)? {
        None => Ok(None),
        Some(polygons) => Ok(Some(Polygons::from_vec(polygons))),
    }
}
