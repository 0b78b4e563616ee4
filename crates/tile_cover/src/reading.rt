//! A table of boundaries, read.
ghost use Rattle.std.specs.Prelude.{◌≡◌, ◌≢◌, ℕ, ◌+◌, ◌<◌, ◌≤◌, ◌^◌, length, IfOk, IfErr, IfSome, IfNone};
ghost use Rattle.opl_lines.specs.Lines.{lines_of};
ghost use Rattle.tile_cover.specs.Boundaries.{HasItsLine, IsTableOf, lats_of};

use crate::boundary_line::{first_line, lat_south_of};
use crate::bounds::Bounds;
use crate::fault::BoundsFault;
use crate::runs::MAX_ZOOM;
use osm_base::MAX_LAT;
use std::alloc::Global;

/// The most lines of a table.
const MOST_LINES: usize = 65_537;

/// The zoom that has so many boundaries.
fn zoom_of(count: usize) -> Option<u32>
    ensures some { IfSome result (λ zoom. zoom ≤ 16 × count ≡ 2 ^ zoom + 1) }
    ensures none { IfNone result ((zoom : ℕ) → zoom ≤ 16 → count ≢ 2 ^ zoom + 1) }
{
    for zoom in 0..MAX_ZOOM + 1 {
        let lines = (1usize << zoom) + 1;
        if lines == count {
            return Some(zoom);
        }
    }
    None
}

/// The fault of a line, by the number of those before it.
fn bad_after(before: usize) -> BoundsFault
    requires { before ≤ 65537 }
    ensures { result ≡ BoundsFault.Bad (before + 1) }
{
    BoundsFault::Bad {
        line: before as u32 + 1,
    }
}

/// The table of these bytes: a latitude a line.
pub fn read_bounds(alloc: Global, bytes: &[u8]) -> Result<Bounds, BoundsFault>
    ensures table { IfOk result (λ table. IsTableOf (lines_of bytes.now) table.zoom) }
    ensures lats { IfOk result (λ table. table.lats ≡ lats_of (lines_of bytes.now)) }
    ensures bad { IfErr result (HasItsLine (lines_of bytes.now)) }
{
    let mut lats = Vec::new(alloc);
    let mut before = MAX_LAT + 1;
    let mut rest = bytes;
    while rest.len() > 0 {
        if lats.len() == MOST_LINES {
            return Err(bad_after(lats.len()));
        }
        let (line, after) = first_line(rest);
        let Some(lat) = lat_south_of(before, line) else {
            return Err(bad_after(lats.len()));
        };
        lats.push(lat)?;
        before = lat;
        rest = after;
    }
    match zoom_of(lats.len()) {
        Some(zoom) => Ok(Bounds::new(zoom, lats)),
        None => Err(bad_after(lats.len())),
    }
}
