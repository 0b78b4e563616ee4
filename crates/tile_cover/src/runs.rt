//! A set of tiles, as runs of columns.
ghost use Rattle.std.specs.Prelude.{◌≡◌, ◌≤◌, [], ◌∷◌, ◌++◌, length, OnOk, OnErr};
ghost use Rattle.std.specs.List.{AllByRecursion, splice};
ghost use Rattle.tile_cover.specs.Runs.{IsRun, IsTileSet, BeginsLater, Adds, Follows, joins, joined_runs};

use osm_base::OutOfMemory;
use std::alloc::Global;
use std::marker::Model;

/// The deepest zoom.
pub const MAX_ZOOM: u32 = 16;

/// Tiles side by side: the columns from `first` to `last`, in row `y` of a zoom.
#[derive(Clone, Copy, PartialEq, Eq)]
pub struct Run {
    pub zoom: u32,
    /// The row, from 0 in the north.
    pub y: u32,
    pub first: u32,
    pub last: u32,
}

/// A set of tiles. Each set is told by one list of runs: sorted, and those of a row apart by at least a column.
#[derive(Drop)]
pub struct TileRuns {
    runs: Vec<Run>,
}

impl Model for TileRuns {
    ghost use Rattle.std.specs.Prelude.{List};
    ghost use Rattle.std.specs.Coded.{coded_list};
    ghost use Rattle.tile_cover.specs.declared.runs.Run.{Run};
    ghost use Rattle.tile_cover.specs.contracts.runs.Run as run;
    ghost use Rattle.tile_cover.specs.Runs.{IsTileSet};

    ghost Value = { List Run };

    ghost coded = { coded_list run.the_row.coded };

    ghost view = { λ set. set.runs.items };

    ghost invariant = { λ set. IsTileSet set.runs.items };
}

/// Whether a run that begins no earlier than another one overlaps or touches it.
fn joins(run: Run, next: Run) -> bool
    requires { IsRun run × IsRun next }
    ensures { result ≡ joins run next }
{
    run.zoom == next.zoom && run.y == next.y && next.first <= run.last + 1
}

/// One run of the columns of two that join.
fn joined_runs(run: Run, next: Run) -> Run
    ensures { result ≡ joined_runs run next }
{
    Run {
        zoom: run.zoom,
        y: run.y,
        first: run.first,
        last: run.last.max(next.last),
    }
}

/// Adds a run at the end, joined to the last one where they overlap or touch.
fn push_run(runs: &mut Vec<Run>, run: Run) -> Result<(), OutOfMemory>
    requires set { IsTileSet runs.old.items }
    requires run { IsRun run }
    requires later { BeginsLater runs.old.items run }
    ensures set { IsTileSet runs.new.items }
    ensures ok { OnOk result (Adds runs.old.items runs.new.items run) }
    ensures err { OnErr result (runs.new.items ≡ runs.old.items) }
{
    let count = runs.len();
    if count > 0 {
        let last = runs[count - 1];
        if joins(last, run) {
            runs[count - 1] = joined_runs(last, run);
            return Ok(());
        }
    }
    runs.push(run)?;
    Ok(())
}

/// Puts runs in the place of those between two positions.
fn replace_runs(
    runs: &mut Vec<Run>,
    from: usize,
    to: usize,
    others: Vec<Run>,
) -> Result<(), OutOfMemory>
    requires ordered { from ≤ to }
    requires within { to ≤ length runs.old.items }
    ensures ok { OnOk result (runs.new.items ≡ splice runs.old.items from to others.items) }
    ensures err { OnErr result (runs.new.items ≡ runs.old.items) }
{
    runs.splice(from..to, others)?;
    Ok(())
}

impl TileRuns {
    /// No tiles; takes no memory.
    pub fn new(alloc: Global) -> Self
        ensures none { result ≡ [] }
    {
        Self {
            runs: Vec::new(alloc),
        }
    }

    /// The runs, by rising zoom, row and column.
    pub fn as_slice(&self) -> &[Run]
        ensures runs { result.now ≡ self.now }
        ensures tiles { IsTileSet result.now }
    {
        self.runs.as_slice()
    }

    /// Adds the tiles of a run that begins no earlier than each of the set.
    pub fn add(&mut self, run: Run) -> Result<(), OutOfMemory>
        requires run { IsRun run }
        requires later { BeginsLater self.old run }
        ensures ok { OnOk result (Adds self.old self.new run) }
        ensures err { OnErr result (self.new ≡ self.old) }
    {
        push_run(&mut self.runs, run)
    }

    /// Adds a run behind all of the set and apart from them.
    pub fn push(&mut self, run: Run) -> Result<(), OutOfMemory>
        requires run { IsRun run }
        requires apart { AllByRecursion (λ before. Follows before run) self.old }
        ensures ok { OnOk result (self.new ≡ self.old ++ run ∷ []) }
        ensures err { OnErr result (self.new ≡ self.old) }
    {
        self.runs.push(run)?;
        Ok(())
    }

    /// Puts a set's runs in the place of those between two positions, where the whole is a set again.
    pub fn replace(&mut self, from: usize, to: usize, runs: TileRuns) -> Result<(), OutOfMemory>
        requires ordered { from ≤ to }
        requires within { to ≤ length self.old }
        requires set { IsTileSet (splice self.old from to runs) }
        ensures ok { OnOk result (self.new ≡ splice self.old from to runs) }
        ensures err { OnErr result (self.new ≡ self.old) }
    {
        replace_runs(&mut self.runs, from, to, runs.runs)
    }
}
