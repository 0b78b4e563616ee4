//! Where runs begin and end, counted over all rows of all zooms.
ghost use Rattle.std.specs.Prelude.{◌≡◌, ◌+◌, ◌<◌, ◌^◌, nat_lt};
ghost use Rattle.tile_cover.specs.Runs.{end_of, start_of};

use tile_cover::Run;

/// The number of a run's first column.
pub(crate) fn start_of(run: Run) -> u128
    ensures start { result ≡ start_of run }
    ensures small { result < 2 ^ 66 }
{
    (u128::from(run.zoom) * 65_536 + u128::from(run.y)) * 131_072 + u128::from(run.first)
}

/// The number of its last column.
pub(crate) fn end_of(run: Run) -> u128
    ensures end { result ≡ end_of run }
    ensures small { result < 2 ^ 66 }
{
    (u128::from(run.zoom) * 65_536 + u128::from(run.y)) * 131_072 + u128::from(run.last)
}

/// Whether a run follows another one.
pub(crate) fn follows(run: Run, next: Run) -> bool
    ensures follows { result ≡ nat_lt (end_of run + 1) (start_of next) }
{
    end_of(run) + 1 < start_of(next)
}
