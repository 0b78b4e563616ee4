//! A segment as natural numbers, from its southern end to its northern one.
ghost use Rattle.std.specs.Prelude.{◌≡◌, ◌*◌, ◌≤◌, ◌≤ℤ◌, ◌+ℤ◌, ◌-ℤ◌, ◌*ℤ◌, pos};
ghost use Rattle.tile_cover.specs.Span.{IsSame, IsWithinWorld, lat_of, segment_of};
ghost use Rattle.tile_cover.specs.Table.{IsLatitude};
ghost use Rattle.tile_cover.specs.Tile.{widened};

use osm_base::{MAX_LAT, MAX_LON, Place};

/// The ends of a segment: longitudes counted from the antimeridian on and taken as often as there are columns, latitudes
/// from the south pole on.
#[derive(Clone, Copy)]
pub(crate) struct Climb {
    pub(crate) start: u64,
    pub(crate) south: u64,
    pub(crate) end: u64,
    pub(crate) north: u64,
}

/// How far a latitude is north of the south pole.
pub(crate) fn from_pole(lat: i32) -> u64
    requires { IsLatitude lat }
    ensures lat { lat_of result ≡ lat }
    ensures on_earth { result ≤ 1800000000 }
{
    (i64::from(lat) + i64::from(MAX_LAT)) as u64
}

/// The latitude so far north of the south pole.
pub(crate) fn lat_from_pole(north: u64) -> i32
    requires { north ≤ 1800000000 }
    ensures lat { result ≡ lat_of north }
    ensures latitude { IsLatitude result }
{
    (north as i64 - i64::from(MAX_LAT)) as i32
}

/// The latitude a unit south of that.
pub(crate) fn lat_south_of(north: u64) -> i32
    requires { north ≤ 1800000000 }
    ensures lat { result ≡ lat_of north -ℤ pos 1 }
{
    (north as i64 - i64::from(MAX_LAT) - 1) as i32
}

/// How far a place is east of the antimeridian.
fn from_antimeridian(place: Place) -> u64
    ensures lon { pos result ≡ place.lon +ℤ MAX_LON }
    ensures within { result ≤ 3600000000 }
{
    (i64::from(place.lon) + i64::from(MAX_LON)) as u64
}

/// The same, taken as often as there are columns.
pub(crate) fn wide_lon(columns: u32, place: Place) -> u64
    requires { columns ≤ 65536 }
    ensures lon { pos result ≡ (place.lon +ℤ MAX_LON) *ℤ pos columns }
    ensures within { result ≤ columns * 3600000000 }
{
    from_antimeridian(place) * u64::from(columns)
}

/// A segment whose start is no further north than its end.
fn upward(columns: u32, start: Place, end: Place) -> Climb
    requires columns { columns ≤ 65536 }
    requires up { start.lat ≤ℤ end.lat }
    ensures same { segment_of result ≡ record { start = widened columns start; end = widened columns end } }
    ensures bounds { IsWithinWorld columns result }
{
    Climb {
        start: wide_lon(columns, start),
        south: from_pole(start.lat),
        end: wide_lon(columns, end),
        north: from_pole(end.lat),
    }
}

/// A segment, of whichever direction.
pub(crate) fn climb_of(columns: u32, start: Place, end: Place) -> Climb
    requires { columns ≤ 65536 }
    ensures bounds { IsWithinWorld columns result }
    ensures same { IsSame (record { start = widened columns start; end = widened columns end }) result }
{
    if start.lat <= end.lat {
        upward(columns, start, end)
    } else {
        upward(columns, end, start)
    }
}
