//! The latitudes of the places of rings, in order: how many of them are one is found by few steps.
ghost use Rattle.std.specs.Prelude.{◌≡◌, ◌++◌, ◌==◌, ℕ, nat_le, nat_lt, length, map, count_by, IfOk, OnOk};
ghost use Rattle.std.specs.List.Sorted.{IsNonDecreasing};
ghost use Rattle.lanes_geo.specs.Grid.{north_of as north_of_place};
ghost use Rattle.ring_nest.specs.Latitudes.{at_latitude};
ghost use Rattle.ring_nest.specs.Opened.{sum_open};

use crate::ring_edges::north_of;
use osm_base::{OutOfMemory, Place, Places};
use std::alloc::Global;

/// Adds the latitudes of a ring's places.
fn add_ring(lats: &mut Vec<u32>, ring: &[Place]) -> Result<(), OutOfMemory>
    ensures added { OnOk result (lats.new.items ≡ lats.old.items ++ map north_of_place ring.now) }
{
    for place in ring {
        lats.push(north_of(*place))?;
    }
    Ok(())
}

/// The latitudes of all places of the marked rings, in the order of the rings.
fn lats_of(alloc: Global, rings: &[Places], marks: &[bool]) -> Result<Vec<u32>, OutOfMemory>
    requires marks { length marks.now ≡ length rings.now }
    ensures count { IfOk result (λ lats. (north : ℕ) → count_by (λ own. own == north) lats.items ≡ sum_open (at_latitude north) rings.now marks.now) }
{
    let mut lats = Vec::new(alloc);
    let mut at = 0;
    while rings.len() - at > 0 {
        if marks[at] {
            add_ring(&mut lats, rings[at].as_slice())?;
        }
        at += 1;
    }
    Ok(lats)
}

/// The latitudes of all places of the marked rings, from south to north.
pub(crate) fn latitudes_of(
    alloc: Global,
    rings: &[Places],
    marks: &[bool],
) -> Result<Vec<u32>, OutOfMemory>
    requires marks { length marks.now ≡ length rings.now }
    ensures sorted { IfOk result (λ lats. IsNonDecreasing lats.items) }
    ensures count { IfOk result (λ lats. (north : ℕ) → count_by (λ own. own == north) lats.items ≡ sum_open (at_latitude north) rings.now marks.now) }
{
    let mut lats = lats_of(alloc, rings, marks)?;
    lats.sort_unstable();
    Ok(lats)
}

/// How many latitudes are south of one.
#[inline(always)]
fn count_south(lats: &[u32], north: u32) -> usize
    requires sorted { IsNonDecreasing lats.now }
    ensures { result ≡ count_by (λ own. nat_lt own north) lats.now }
{
    lats.partition_point(|own| *own < north)
}

/// How many are south of one, or it.
#[inline(always)]
fn count_up_to(lats: &[u32], north: u32) -> usize
    requires sorted { IsNonDecreasing lats.now }
    ensures { result ≡ count_by (λ own. nat_le own north) lats.now }
{
    lats.partition_point(|own| *own <= north)
}

/// How many of them are this one.
pub(crate) fn count_latitude(lats: &[u32], north: u32) -> usize
    requires sorted { IsNonDecreasing lats.now }
    ensures { result ≡ count_by (λ own. own == north) lats.now }
{
    count_up_to(lats, north) - count_south(lats, north)
}

/// How many places of a ring have a latitude, told by how far north of the south pole it is.
pub(crate) fn places_at(ring: &[Place], north: u32) -> usize
    ensures { result ≡ at_latitude north ring.now }
{
    let mut count = 0;
    for place in ring {
        if north_of(*place) == north {
            count += 1;
        }
    }
    count
}
