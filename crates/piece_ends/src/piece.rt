//! The ends of a line, or of a piece of one.
ghost use Rattle.std.specs.Prelude.{◌≡◌, ◌<◌, ◌↔◌, length, IsTrue};
ghost use Rattle.piece_ends.specs.Pieces.{first_place, last_place, is_closed, IsPiece, ArePieces};

use osm_base::{LineList, Place};

/// The place where a line begins.
pub fn first_place(line: &[Place]) -> Place
    requires { 0 < length line.now }
    ensures first { result ≡ first_place line.now }
{
    line[0]
}

/// The place where a line ends.
pub fn last_place(line: &[Place]) -> Place
    requires { 0 < length line.now }
    ensures last { result ≡ last_place line.now }
{
    line[line.len() - 1]
}

/// Whether a line ends where it begins.
pub fn is_closed(line: &[Place]) -> bool
    requires { 0 < length line.now }
    ensures closed { result ≡ is_closed line.now }
{
    first_place(line) == last_place(line)
}

/// Whether a line may be joined to others.
pub fn is_piece(line: &[Place]) -> bool
    ensures piece { IsTrue result ↔ IsPiece line.now }
{
    for index in 1..line.len() {
        if line[index - 1] == line[index] {
            return false;
        }
    }
    line.len() >= 2
}

/// Whether each of these lines may be joined to others. For callers outside: the program does not use it.
pub fn are_pieces(lines: &LineList) -> bool
    ensures pieces { IsTrue result ↔ ArePieces lines.now }
{
    lines
        .as_slice()
        .iter()
        .all(|line| is_piece(line.as_slice()))
}
