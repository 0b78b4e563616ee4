//! One tile of the world.
ghost use Rattle.std.specs.Prelude.{◌<◌, ◌≤◌};

/// A tile: its column, how many there are, and the sides of its row from the south pole on.
#[derive(Clone, Copy)]
pub(crate) struct Tile {
    pub(crate) x: u32,
    pub(crate) columns: u32,
    pub(crate) south: u64,
    pub(crate) north: u64,
    ghost column: { x < columns },
    ghost bound: { columns ≤ 65536 },
    ghost high: { south ≤ north },
}
