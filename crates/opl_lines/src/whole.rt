//! All the lines of a file, in whatever pieces its bytes come.
ghost use Rattle.std.specs.Prelude.{◌≡◌, ◌≢◌, ℕ, List, [], ◌++◌, None, Some, map, flat_map, IfOk, IfErr, OnOk};
ghost use Rattle.opl_lines.specs.Lines.{lines_of};
ghost use Rattle.opl_lines.specs.Reading.{begun};
ghost use Rattle.opl_lines.specs.Whole.{texts, limit_passed, limit_left, GoesOn};

use crate::{LineFault, LineReader};
use osm_base::Limits;
use std::alloc::Global;

/// The lines of a file that comes in these pieces, or the limit that its lines pass first.
/// For callers outside: the program does not use it.
pub fn lines_in(alloc: Global, limits: &Limits, pieces: &[&[u8]]) -> Result<Vec<Vec<u8>>, LineFault>
    ensures lines { IfOk result (λ lines. texts lines.items ≡ lines_of (flat_map (λ piece. piece.now) pieces.now)) }
    ensures within { OnOk result (limit_passed limits.now.line_bytes limits.now.lines
        (lines_of (flat_map (λ piece. piece.now) pieces.now)) ≡ None) }
    ensures passed { IfErr result (λ fault. fault ≢ LineFault.OutOfMemory
        → limit_passed limits.now.line_bytes limits.now.lines (lines_of (flat_map (λ piece. piece.now) pieces.now)) ≡ Some fault) }
{
    let mut lines = Vec::new(alloc);
    take_pieces(alloc, limits, &mut lines, pieces)?;
    Ok(lines)
}

/// Adds the lines of the pieces.
fn take_pieces(
    alloc: Global,
    limits: &Limits,
    lines: &mut Vec<Vec<u8>>,
    pieces: &[&[u8]],
) -> Result<(), LineFault>
    requires { lines.old.items ≡ [] }
    ensures lines { OnOk result (texts lines.new.items ≡ lines_of (flat_map (λ piece. piece.now) pieces.now)) }
    ensures within { OnOk result (limit_passed limits.now.line_bytes limits.now.lines
        (lines_of (flat_map (λ piece. piece.now) pieces.now)) ≡ None) }
    ensures passed { IfErr result (λ fault. fault ≢ LineFault.OutOfMemory
        → limit_passed limits.now.line_bytes limits.now.lines (lines_of (flat_map (λ piece. piece.now) pieces.now)) ≡ Some fault) }
{
    let mut reader = LineReader::new(alloc, limits);
    for piece in pieces {
        take_piece(alloc, &mut reader, lines, piece)?;
    }
    if reader.finish() {
        lines.push(Vec::from_slice(alloc, reader.line())?)?;
    }
    Ok(())
}

/// Takes a piece, and adds each line that ends in it.
fn take_piece(
    alloc: Global,
    reader: &mut LineReader,
    lines: &mut Vec<Vec<u8>>,
    piece: &[u8],
) -> Result<(), LineFault>
    requires no_fault { reader.old.failed ≡ None }
    ensures ok { OnOk result (GoesOn reader.old reader.new (texts lines.old.items) (texts lines.new.items) piece.now) }
    ensures err { IfErr result (λ fault. fault ≢ LineFault.OutOfMemory
        → (later : List ℕ) → limit_left reader.old (piece.now ++ later) ≡ Some fault) }
{
    let mut rest = piece;
    while !rest.is_empty() {
        let cut = reader.take_line(rest)?;
        if let Some(line) = cut.line.bytes(reader) {
            lines.push(Vec::from_slice(alloc, line)?)?;
        }
        let (_, after) = rest.split_at(cut.used);
        rest = after;
    }
    Ok(())
}
