//! The tiles of a zoom that are listed, by their numbers, which go column by column.
ghost use Rattle.std.specs.Prelude.{◌≡◌, ◌≤◌, ◌<◌, ◌+◌, ◌*◌, ◌/◌, ◌%◌, ◌==◌, ◌&&◌, ◌||◌, ℕ, nat_le, IfOk, OnOk};
ghost use Rattle.std.specs.List.{AllByRecursion, list_any};
ghost use Rattle.osm_base.specs.values.Ids.{has, IsRising};
ghost use Rattle.tile_cover.specs.Runs.{IsRun};
ghost use Rattle.due_tiles.specs.TileText.{column_of, is_above, is_listed, tile_row};

use crate::zoom::{Zoom, side_of};
use object_fold::RisingIds;
use osm_base::OutOfMemory;
use std::alloc::Global;
use tile_cover::Run;

/// The numbers of the tiles of a zoom that are those of runs or above them, rising.
pub(crate) fn listed(alloc: Global, runs: &[Run], zoom: Zoom) -> Result<RisingIds, OutOfMemory>
    requires runs { AllByRecursion IsRun runs.now }
    ensures listed { IfOk result (λ numbers. (number : ℕ) → has numbers number ≡ is_listed runs.now zoom.level number) }
    ensures rise { IfOk result IsRising }
{
    let mut numbers = Vec::new(alloc);
    for run in runs {
        add_run(&mut numbers, zoom, *run)?;
    }
    Ok(RisingIds::from_vec(numbers))
}

/// Adds the numbers of the tiles above a run.
fn add_run(numbers: &mut Vec<u64>, zoom: Zoom, run: Run) -> Result<(), OutOfMemory>
    requires run { IsRun run }
    ensures added { OnOk result ((number : ℕ) → has numbers.new.items number
        ≡ (is_above zoom.level (column_of zoom.level number) (tile_row zoom.level number) run || has numbers.old.items number)) }
{
    if zoom.level > run.zoom {
        return Ok(());
    }
    let shift = run.zoom - zoom.level;
    add_row(
        numbers,
        side_of(zoom),
        run.y >> shift,
        run.first >> shift,
        run.last >> shift,
    )
}

/// Adds the numbers of the columns of a row, where columns have so many tiles.
fn add_row(
    numbers: &mut Vec<u64>,
    side: u64,
    y: u32,
    first: u32,
    last: u32,
) -> Result<(), OutOfMemory>
    requires row { y < side }
    requires side { side ≤ 65536 }
    requires last { last < 65536 }
    requires ordered { first ≤ last }
    ensures added { OnOk result ((number : ℕ) → has numbers.new.items number
        ≡ ((y == number % side && (nat_le first (number / side) && nat_le (number / side) last)) || has numbers.old.items number)) }
{
    for x in first..last + 1 {
        numbers.push(u64::from(x) * side + u64::from(y))?;
    }
    Ok(())
}
