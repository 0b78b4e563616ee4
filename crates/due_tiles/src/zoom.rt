//! A zoom that has tiles.
ghost use Rattle.std.specs.Prelude.{◌≡◌, ◌≤◌, ◌<◌, ◌^◌};
ghost use Rattle.tile_cover.specs.declared.runs.TheConstants.{MAX_ZOOM};

/// A zoom, no deeper than the deepest.
#[derive(Clone, Copy)]
pub(crate) struct Zoom {
    pub(crate) level: u32,
    ghost shallow: { level ≤ MAX_ZOOM },
}

/// How many columns, and rows, a zoom has.
pub(crate) fn side_of(zoom: Zoom) -> u64
    ensures power { result ≡ 2 ^ zoom.level }
    ensures small { result ≤ 65536 }
    ensures some { 0 < result }
{
    1 << zoom.level
}
