//! A part of a set of tiles.
ghost use Rattle.std.specs.Prelude.{◌≡◌, ◌≤◌, drop, length, take};
ghost use Rattle.tile_cover.specs.Runs.{IsTileSet};
ghost use Rattle.due_tiles.specs.Part.{IsTileSet-prop};

use tile_cover::{Run, TileRuns};

/// Runs of a set that stand one after the other in it.
#[derive(Clone, Copy)]
pub(crate) struct Part<'s> {
    pub(crate) runs: &'s [Run],
    ghost set: { IsTileSet runs.now } by { IsTileSet-prop runs.now },
}

impl<'s> Part<'s> {
    /// All of a set.
    pub(crate) fn of(set: &'s TileRuns) -> Self
        ensures all { result.runs.now ≡ set.now }
    {
        let runs = set.as_slice();
        Part { runs }
    }

    /// The first so many of its runs.
    pub(crate) fn front(self, count: usize) -> Self
        requires within { count ≤ length self.runs.now }
        ensures front { result.runs.now ≡ take count self.entry.runs.now }
    {
        let (runs, _) = self.runs.split_at(count);
        Part { runs }
    }

    /// Those behind the first so many.
    pub(crate) fn behind(self, count: usize) -> Self
        requires within { count ≤ length self.runs.now }
        ensures behind { result.runs.now ≡ drop count self.entry.runs.now }
    {
        let (_, runs) = self.runs.split_at(count);
        Part { runs }
    }
}
