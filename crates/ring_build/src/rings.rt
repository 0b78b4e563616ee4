//! Pieces closed to rings at their ends.
ghost use Rattle.std.specs.Prelude.{◌≡◌, ◌<◌, ◌↔◌, length, IfOk, IfSome, IsTrue, All};
ghost use Rattle.osm_base.specs.values.Line.{IsRing};
ghost use Rattle.piece_ends.specs.Pieces.{ArePieces};
ghost use Rattle.piece_ends.specs.Rings.{rings, ring_begun};

use osm_base::{LineList, OutOfMemory, Place, Places};
use piece_ends::{UnusedPieces, extend, is_closed};
use std::alloc::Global;

/// The rings that pieces make where each is joined to the lowest one that fits. `None`: a place
/// holds an odd number of ends of open pieces, or a ring has fewer than four points.
pub fn rings_of(alloc: Global, pieces: &LineList) -> Result<Option<LineList>, OutOfMemory>
    requires pieces { ArePieces pieces.now }
    ensures rings { IfOk result (λ found. found ≡ rings pieces.now) }
    ensures closed { IfOk result (λ found. IfSome found (All IsRing)) }
{
    let mut unused = UnusedPieces::new(alloc, pieces)?;
    let mut rings = LineList::new(alloc);
    'rings: while let Some(piece) = unused.take_first() {
        let ring = begun(alloc, piece, &mut unused)?;
        // A walk that does not come back shows a place with an odd number of ends.
        if !is_ring(&ring) {
            return Ok(None);
        }
        rings.push(Places::from_vec(ring))?;
    }
    Ok(Some(rings))
}

/// The line that a piece begins, up to where it comes back or no piece fits.
fn begun(
    alloc: Global,
    piece: &Places,
    unused: &mut UnusedPieces,
) -> Result<Vec<Place>, OutOfMemory>
    requires points { 0 < length piece.now }
    ensures ring { IfOk result (λ ring.
        (ring.items, unused.new) ≡ ring_begun piece.now unused.old) }
{
    let mut ring = Vec::from_slice(alloc, piece.as_slice())?;
    extend(&mut ring, unused)?;
    Ok(ring)
}

/// Whether a line may bound an area.
fn is_ring(line: &[Place]) -> bool
    ensures ring { IsTrue result ↔ IsRing line.now }
{
    line.len() >= 4 && is_closed(line)
}

/// Whether each of these lines may bound an area. For callers outside: the program does not use it.
pub fn are_rings(lines: &LineList) -> bool
    ensures rings { IsTrue result ↔ All IsRing lines.now }
{
    lines.as_slice().iter().all(|line| is_ring(line.as_slice()))
}
