//! The table of the latitudes that bound the rows of tiles of a zoom.
ghost use Rattle.std.specs.Prelude.{◌≡◌, ℕ, ◌+◌, ◌<◌, ◌≤◌, ◌^◌, ◌&&◌, pos, length, slice_index_or, nat_le, nat_lt, ◌<ℤ◌, ◌≤ℤ◌};
ghost use Rattle.tile_cover.specs.Span.{IsWithinWorld, is_reached, lat_of};
ghost use Rattle.tile_cover.specs.Table.{AreFalling, IsTable, boundary};

use crate::climb::{Climb, from_pole, lat_from_pole, lat_south_of};
use std::marker::Model;

/// The latitudes that bound the rows of tiles of a zoom, from north to south.
#[derive(Drop)]
pub struct Bounds {
    zoom: u32,
    lats: Vec<i32>,
}

impl Model for Bounds {
    ghost use Rattle.tile_cover.specs.Table.{BoundsOf, IsTable};

    ghost Value = { BoundsOf };

    ghost view = { λ table. record { zoom = table.zoom; lats = table.lats.items } };

    ghost invariant = { λ table. IsTable (record { zoom = table.zoom; lats = table.lats.items }) };
}

/// How many of falling latitudes are north of this one.
fn count_north_of(lats: &[i32], lat: i32) -> usize
    requires { AreFalling lats.now }
    ensures bound { result ≤ length lats.now }
    ensures north { (k : ℕ) → k < result → lat <ℤ slice_index_or lats.now k (pos 0) }
    ensures others { (k : ℕ) → result ≤ k → k < length lats.now → slice_index_or lats.now k (pos 0) ≤ℤ lat }
{
    lats.partition_point(|other| *other > lat)
}

impl Bounds {
    /// The table of these latitudes.
    pub(crate) fn new(zoom: u32, lats: Vec<i32>) -> Self
        requires { IsTable (record { zoom = zoom; lats = lats.items }) }
        ensures { result ≡ record { zoom = zoom; lats = lats.items } }
    {
        Self { zoom, lats }
    }

    /// The zoom that the table is for.
    pub fn zoom(&self) -> u32
        ensures zoom { result ≡ self.now.zoom }
        ensures shallow { result ≤ 16 }
        ensures table { IsTable self.now }
    {
        self.zoom
    }

    /// How many columns the zoom has, and rows.
    pub(crate) fn columns(&self) -> u32
        ensures power { result ≡ 2 ^ self.now.zoom }
        ensures bound { 0 < result × result ≤ 65536 }
        ensures table { IsTable self.now }
    {
        1 << self.zoom
    }

    /// The southern and the northern side of a row, from the south pole on.
    pub(crate) fn sides(&self, row: u32) -> (u64, u64)
        requires { row < 2 ^ self.now.zoom }
        ensures south { lat_of result.0 ≡ boundary self.now (row + 1) }
        ensures north { lat_of result.1 ≡ boundary self.now row }
        ensures ordered { result.0 ≤ result.1 }
        ensures table { IsTable self.now }
    {
        let north = self.lats[row as usize];
        let south = self.lats[row as usize + 1];
        (from_pole(south), from_pole(north))
    }

    /// The row that has a latitude, or a row beside it.
    pub(crate) fn row_near(&self, lat: i32) -> u32
        ensures within { result < 2 ^ self.now.zoom }
    {
        let columns = self.columns();
        let north_of_all = count_north_of(&self.lats, lat);
        (north_of_all.saturating_sub(1) as u32).min(columns - 1)
    }

    /// The rows that a segment reaches: from the first of them to before the second number.
    pub(crate) fn rows_of(&self, climb: Climb) -> (u32, u32)
        requires { IsWithinWorld (2 ^ self.now.zoom) climb }
        ensures ordered { result.0 ≤ result.1 }
        ensures within { result.1 ≤ 2 ^ self.now.zoom }
        ensures reached { (row : ℕ) → row < 2 ^ self.now.zoom → (nat_le result.0 row && nat_lt row result.1) ≡ is_reached self.now climb row }
    {
        let columns = self.columns();
        let north = lat_from_pole(climb.north);
        let south_of = lat_south_of(climb.south);
        let north_of_all = count_north_of(&self.lats, north);
        let from = north_of_all.saturating_sub(1) as u32;
        let to = count_north_of(&self.lats, south_of) as u32;
        (from, to.min(columns).max(from))
    }

    /// The same, for a segment that may well lie within this row, which is then all that it reaches.
    pub(crate) fn rows_from(&self, row: u32, climb: Climb) -> (u32, u32)
        requires row { row < 2 ^ self.now.zoom }
        requires climb { IsWithinWorld (2 ^ self.now.zoom) climb }
        ensures ordered { result.0 ≤ result.1 }
        ensures within { result.1 ≤ 2 ^ self.now.zoom }
        ensures reached { (other : ℕ) → other < 2 ^ self.now.zoom → (nat_le result.0 other && nat_lt other result.1) ≡ is_reached self.now climb other }
    {
        let (south, north) = self.sides(row);
        if south < climb.south && climb.north < north {
            return (row, row + 1);
        }
        self.rows_of(climb)
    }
}
