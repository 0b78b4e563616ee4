//! The walk that makes a line longer out of the pieces that are not used yet.
ghost use Rattle.std.specs.Prelude.{◌≡◌, ◌<◌, length, OnOk};
ghost use Rattle.piece_ends.specs.Walk.{appended, extended};

use crate::UnusedPieces;
use crate::piece::{first_place, is_closed, last_place};
use osm_base::{OutOfMemory, Place};

/// Puts pieces behind a line until it ends where it begins, or until none ends at its last place.
/// After `Err` some of them are behind it, and are used.
pub fn extend(line: &mut Vec<Place>, unused: &mut UnusedPieces) -> Result<(), OutOfMemory>
    requires points { 0 < length line.old.items }
    ensures longer { OnOk result ((line.new.items, unused.new)
        ≡ extended (length unused.old) line.old.items unused.old) }
    ensures points { 0 < length line.new.items }
{
    'walk: while !is_closed(line) {
        let Some(piece) = unused.take_at(last_place(line)) else {
            break;
        };
        append(line, piece.as_slice())?;
    }
    Ok(())
}

/// Puts a piece behind a line, without its repeated point and turned round if need be.
fn append(line: &mut Vec<Place>, piece: &[Place]) -> Result<(), OutOfMemory>
    requires line { 0 < length line.old.items }
    requires piece { 0 < length piece.now }
    ensures longer { OnOk result (line.new.items ≡ appended line.old.items piece.now) }
    ensures points { 0 < length line.new.items }
{
    if first_place(piece) == last_place(line) {
        line.extend_from_slice(&piece[1..])?;
    } else {
        line.extend(piece.iter().rev().skip(1).copied())?;
    }
    Ok(())
}
