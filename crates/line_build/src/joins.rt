//! Pieces joined to lines at their ends.
ghost use Rattle.std.specs.Prelude.{◌≡◌, ◌<◌, length, IfOk};
ghost use Rattle.piece_ends.specs.Pieces.{ArePieces};
ghost use Rattle.piece_ends.specs.Joins.{joined_lines, line_begun};

use osm_base::{LineList, OutOfMemory, Places};
use piece_ends::{UnusedPieces, extend, is_closed};
use std::alloc::Global;

/// The lines that pieces make where each is joined to the lowest one that fits.
pub fn join_lines(alloc: Global, pieces: &LineList) -> Result<LineList, OutOfMemory>
    requires pieces { ArePieces pieces.now }
    ensures joined_lines { IfOk result (λ lines. lines ≡ joined_lines pieces.now) }
{
    let mut unused = UnusedPieces::new(alloc, pieces)?;
    let mut lines = LineList::new(alloc);
    'lines: while let Some(piece) = unused.take_first() {
        lines.push(begun(alloc, piece, &mut unused)?)?;
    }
    Ok(lines)
}

/// The line that a piece begins.
fn begun(alloc: Global, piece: &Places, unused: &mut UnusedPieces) -> Result<Places, OutOfMemory>
    requires points { 0 < length piece.now }
    ensures line { IfOk result (λ line. (line, unused.new) ≡ line_begun piece.now unused.old) }
{
    let mut line = Vec::from_slice(alloc, piece.as_slice())?;
    extend(&mut line, unused)?;
    if !is_closed(&line) {
        line.reverse();
        extend(&mut line, unused)?;
        line.reverse();
    }
    Ok(Places::from_vec(line))
}
