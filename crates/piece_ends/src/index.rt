//! For each place the pieces that end there, by rising numbers: a head, and links to the next ones.
ghost use Rattle.std.specs.Prelude.{◌≡◌, ◌<◌, length, IfOk, IfSome, IfNone, OnOk};
ghost use Rattle.piece_ends.specs.Pieces.{first_place, last_place};
ghost use Rattle.piece_ends.specs.Index.{piece_at, HavePoints, AreLinks, AreHeadsFrom, IsIndex};
ghost use Rattle.piece_ends.specs.Index.{IsLowestAt, NoneAt, next_of, head_among};
ghost use Rattle.piece_ends.specs.Index.{headed_first, headed_both};

use crate::heads::Heads;
use crate::piece::{first_place, is_closed, last_place};
use osm_base::{OutOfMemory, Place, Places};
use std::alloc::Global;

/// The next pieces at the first and at the last place of a piece; the number of all pieces where
/// there is none.
#[derive(Clone, Copy)]
pub struct Links {
    pub first: usize,
    pub last: usize,
}

/// The lowest unused piece at a place.
pub fn lowest_at(
    pieces: &[Places],
    used: &[bool],
    links: &[Links],
    heads: &Heads,
    place: Place,
) -> Option<usize>
    requires { IsIndex pieces.now used.now links.now heads.now }
    ensures some { IfSome result (IsLowestAt pieces.now used.now place) }
    ensures none { IfNone result (NoneAt pieces.now used.now place) }
{
    let mut number = heads.at(place)?;
    while number < pieces.len() {
        if !used[number] {
            return Some(number);
        }
        number = next_of(pieces, links, place, number);
    }
    None
}

/// The piece that stands behind another at a place.
fn next_of(pieces: &[Places], links: &[Links], place: Place, number: usize) -> usize
    requires below { number < length pieces.now }
    requires rows { length links.now ≡ length pieces.now }
    requires points { 0 < length (piece_at pieces.now number) }
    ensures next { result ≡ next_of pieces.now links.now place number }
{
    if first_place(pieces[number].as_slice()) == place {
        links[number].first
    } else {
        links[number].last
    }
}

/// The heads and the links of pieces.
pub fn indexed(alloc: Global, pieces: &[Places]) -> Result<(Heads, Vec<Links>), OutOfMemory>
    requires points { HavePoints pieces.now }
    ensures rows { IfOk result (λ (_, links). length links.items ≡ length pieces.now) }
    ensures links { IfOk result (λ (_, links). AreLinks pieces.now links.items 0) }
    ensures heads { IfOk result (λ (heads, _). AreHeadsFrom pieces.now heads 0) }
{
    let count = pieces.len();
    let none = Links {
        first: count,
        last: count,
    };
    let mut heads = Heads::new(alloc);
    let mut links = vec![in alloc; none; count]?;
    for number in (0..count).rev() {
        let piece = pieces[number].as_slice();
        if !is_closed(piece) {
            links[number] = put_open(&mut heads, piece, number, count)?;
        }
    }
    Ok((heads, links))
}

/// Puts an open piece before the pieces at its two ends, and hands back its links to them.
fn put_open(
    heads: &mut Heads,
    piece: &[Place],
    number: usize,
    count: usize,
) -> Result<Links, OutOfMemory>
    requires points { 0 < length piece.now }
    ensures heads { OnOk result (heads.new ≡ headed_both heads.old piece.now number) }
    ensures first { IfOk result (λ links. links.first
        ≡ head_among count heads.old (first_place piece.now)) }
    ensures last { IfOk result (λ links. links.last
        ≡ head_among count (headed_first heads.old piece.now number) (last_place piece.now)) }
{
    let first = heads.put(first_place(piece), number)?.unwrap_or(count);
    let last = heads.put(last_place(piece), number)?.unwrap_or(count);
    Ok(Links { first, last })
}
