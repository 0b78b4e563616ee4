//! Two sets of tiles as one.
ghost use Rattle.std.specs.Prelude.{◌≡◌, ◌||◌, ◌<◌, ◌≤◌, ◌+◌, ◌-◌, ◌∷◌, ℕ, nat_le, length, slice_index_or, take, drop, IfOk, OnOk, OnErr};
ghost use Rattle.std.specs.List.{AllByRecursion};
ghost use Rattle.tile_cover.specs.Runs.{Follows, IsRun, IsTileSet, end_of, has, start_of};
ghost use Rattle.due_tiles.specs.Joining.{IsTaken};

use crate::part::Part;
use crate::places::{end_of, start_of};
use osm_base::OutOfMemory;
use std::alloc::Global;
use tile_cover::{Run, TileRuns};

/// Puts the tiles of another set to those of one. After `Err` nothing has changed. Runs of the one that
/// stand before all of the other, or behind them, stay as they are.
pub fn union(alloc: Global, one: &mut TileRuns, other: &TileRuns) -> Result<(), OutOfMemory>
    ensures ok { OnOk result ((zoom x y : ℕ)
        → has one.new zoom x y ≡ (has one.old zoom x y || has other.now zoom x y)) }
    ensures err { OnErr result (one.new ≡ one.old) }
{
    let others = Part::of(other);
    if others.runs.len() == 0 {
        return Ok(());
    }
    let (first, _) = first_run(others);
    let last = last_run(others.runs);
    let all = Part::of(one);
    let from = count_before(all, first);
    let rest = all.behind(from);
    let count = count_reached(rest, last);
    let between = rest.front(count);
    let both = joined_parts(alloc, between, others)?;
    one.replace(from, from + count, both)?;
    Ok(())
}

/// How many runs stand before a run and apart from it.
fn count_before(part: Part<'_>, run: Run) -> usize
    ensures bound { result ≤ length part.entry.runs.now }
    ensures before { AllByRecursion (λ own. Follows own run) (take result part.entry.runs.now) }
{
    let start = start_of(run);
    part.runs.partition_point(|own| end_of(*own) + 1 < start)
}

/// How many runs a run does not stand before, apart from them.
fn count_reached(part: Part<'_>, run: Run) -> usize
    ensures bound { result ≤ length part.entry.runs.now }
    ensures behind { AllByRecursion (Follows run) (drop result part.entry.runs.now) }
{
    let end = end_of(run);
    part.runs.partition_point(|own| start_of(*own) <= end + 1)
}

/// The tiles of two sets.
fn joined_parts(alloc: Global, left: Part<'_>, right: Part<'_>) -> Result<TileRuns, OutOfMemory>
    ensures tiles { IfOk result (λ set. (zoom x y : ℕ)
        → has set zoom x y ≡ (has left.entry.runs.now zoom x y || has right.entry.runs.now zoom x y)) }
    ensures set { IfOk result IsTileSet }
{
    let mut set = TileRuns::new(alloc);
    let (mut left_rest, mut right_rest) = (left, right);
    while left_rest.runs.len() > 0 || right_rest.runs.len() > 0 {
        let (run, left_behind, right_behind) = next_run(left_rest, right_rest);
        set.add(run)?;
        left_rest = left_behind;
        right_rest = right_behind;
    }
    let _runs = set.as_slice();
    Ok(set)
}

/// The run that begins first among two sets, and what is left of the two.
fn next_run<'s>(left: Part<'s>, right: Part<'s>) -> (Run, Part<'s>, Part<'s>)
    requires some { 0 < length left.runs.now + length right.runs.now }
    ensures taken { IsTaken left.entry.runs.now right.entry.runs.now result.0 result.1.runs.now result.2.runs.now }
{
    if right.runs.len() == 0 {
        let (run, rest) = first_run(left);
        return (run, rest, right);
    }
    if left.runs.len() == 0 {
        let (run, rest) = first_run(right);
        return (run, left, rest);
    }
    let (first, left_behind) = first_run(left);
    let (other, right_behind) = first_run(right);
    if begins_first(first, other) {
        return (first, left_behind, right);
    }
    (other, left, right_behind)
}

/// The first run, and those behind it.
fn first_run(part: Part<'_>) -> (Run, Part<'_>)
    requires some { 0 < length part.runs.now }
    ensures parts { part.entry.runs.now ≡ result.0 ∷ result.1.runs.now }
    ensures run { IsRun result.0 }
{
    (part.runs[0], part.behind(1))
}

/// The last run.
fn last_run(runs: &[Run]) -> Run
    requires some { 0 < length runs.now }
    ensures last { result ≡ slice_index_or runs.now (length runs.now - 1) result }
{
    runs[runs.len() - 1]
}

/// Whether a run begins before another one, or with it.
fn begins_first(run: Run, other: Run) -> bool
    ensures first { result ≡ nat_le (start_of run) (start_of other) }
{
    start_of(run) <= start_of(other)
}
