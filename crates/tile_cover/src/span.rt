//! The columns of one row that a segment meets.
ghost use Rattle.std.specs.Prelude.{◌≡◌, ℕ, ◌+◌, ◌*◌, ◌-◌, ◌<◌, ◌≤◌, min, max, nat_le, false, IfSome};
ghost use Rattle.tile_cover.specs.Span.{IsWithinWorld, Tells, lat_of, segment_of};
ghost use Rattle.tile_cover.specs.Tile.{box_between};

use crate::climb::Climb;

/// The columns of a row that a segment meets, from the first to the last.
#[derive(Clone, Copy)]
pub(crate) struct Span {
    pub(crate) first: u32,
    pub(crate) last: u32,
    /// The segment goes through the northern side of the row.
    pub(crate) straddles: bool,
}

/// How wide a column is, in longitudes that are taken as often as there are columns.
pub(crate) const COLUMN: u64 = 3_600_000_000;

/// The columns of a segment that lies in one row, none of it north or south of the row.
fn span_within(climb: Climb, columns: u32) -> Span
    requires columns { 0 < columns × columns ≤ 65536 }
    requires climb { IsWithinWorld columns climb }
    ensures first { (x : ℕ) → nat_le result.first x ≡ nat_le (min climb.start climb.end) ((x + 1) * 3600000000) }
    ensures last { (x : ℕ) → x < columns → nat_le x result.last ≡ nat_le (x * 3600000000) (max climb.start climb.end) }
    ensures ordered { result.first ≤ result.last }
    ensures within { result.last < columns }
    ensures straddles { result.straddles ≡ false }
{
    let first = climb.start.min(climb.end).saturating_sub(1) / COLUMN;
    let last = (climb.start.max(climb.end) / COLUMN).min(u64::from(columns) - 1);
    Span {
        first: first as u32,
        last: last as u32,
        straddles: false,
    }
}

/// The columns between two longitudes, both taken `height` times.
fn span_between(low: u128, high: u128, height: u64, columns: u32, straddles: bool) -> Span
    requires low { low ≤ (columns * 3600000000) * height }
    requires high { high ≤ (columns * 3600000000) * height }
    requires height { 0 < height × height ≤ 1800000000 }
    requires columns { 0 < columns × columns ≤ 65536 }
    ensures first { (x : ℕ) → nat_le result.first x ≡ nat_le (min low high) (((x + 1) * 3600000000) * height) }
    ensures last { (x : ℕ) → x < columns → nat_le x result.last ≡ nat_le ((x * 3600000000) * height) (max low high) }
    ensures ordered { result.first ≤ result.last }
    ensures within { result.last < columns }
    ensures straddles { result.straddles ≡ straddles }
{
    let width = 3_600_000_000 * u128::from(height);
    let first = low.min(high).saturating_sub(1) / width;
    let last = (low.max(high) / width).min(u128::from(columns) - 1);
    Span {
        first: first as u32,
        last: last as u32,
        straddles,
    }
}

/// The longitude of a segment at a latitude between its ends, taken as often as the segment is high.
fn lon_at(climb: Climb, lat: u64) -> u128
    requires south { climb.south ≤ lat }
    requires north { lat ≤ climb.north }
    requires within { climb.start ≤ 235929600000000 × climb.end ≤ 235929600000000 × climb.north ≤ 1800000000 }
    ensures lon { result ≡ (lat - climb.south) * climb.end + (climb.north - lat) * climb.start }
{
    u128::from(lat - climb.south) * u128::from(climb.end)
        + u128::from(climb.north - lat) * u128::from(climb.start)
}

/// The columns that a segment meets in the row between two latitudes, where it reaches the row.
pub(crate) fn span_in(climb: Climb, columns: u32, south: u64, north: u64) -> Option<Span>
    requires columns { 0 < columns × columns ≤ 65536 }
    requires climb { IsWithinWorld columns climb }
    requires row { south ≤ north }
    ensures told { (x : ℕ) → x < columns → Tells (box_between (lat_of south) (lat_of north) x) x (segment_of climb) result }
    ensures within { IfSome result (λ span. span.first ≤ span.last × span.last < columns) }
{
    if climb.north < south || north < climb.south {
        return None;
    }
    if south <= climb.south && climb.north <= north {
        return Some(span_within(climb, columns));
    }
    let height = climb.north - climb.south;
    let low = lon_at(climb, south.max(climb.south));
    let high = lon_at(climb, north.min(climb.north));
    Some(span_between(low, high, height, columns, north < climb.north))
}
