//! Numbers and places that look like those of chance: the same seed gives the same ones.
use osm_base::{GeoBox, OutOfMemory, Place, Places};
use std::alloc::Global;

/// The next number: the upper bits of the state.
pub fn next(state: &mut u64) -> u64 {
    *state = (*state)
        .wrapping_mul(6_364_136_223_846_793_005)
        .wrapping_add(1_442_695_040_888_963_407);
    *state >> 33
}

/// Whether the next places are to lie all over the world, and not beside each other.
pub fn is_far(state: &mut u64) -> bool {
    next(state) % 2 == 0
}

/// A place of a grid that is small, so that many places have a longitude or a latitude in common. It reaches round the
/// world, or over a few units.
pub fn place(state: &mut u64, far: bool) -> Place {
    let lon = (next(state) % 37) as i32 - 18;
    let lat = (next(state) % 19) as i32 - 9;
    if far {
        Place::new(lon * 100_000_000, lat * 100_000_000)
    } else {
        Place::new(lon, lat)
    }
}

/// So many places.
pub fn places(
    alloc: Global,
    state: &mut u64,
    count: u64,
    far: bool,
) -> Result<Places, OutOfMemory> {
    let mut places = Places::new(alloc);
    for _ in 0..count {
        places.push(place(state, far))?;
    }
    Ok(places)
}

/// A box round two places.
pub fn box_of_two(state: &mut u64, far: bool) -> GeoBox {
    let (one, other) = (place(state, far), place(state, far));
    GeoBox {
        west: one.lon.min(other.lon),
        south: one.lat.min(other.lat),
        east: one.lon.max(other.lon),
        north: one.lat.max(other.lat),
    }
}
