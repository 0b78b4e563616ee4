//! The pieces that are not used yet.
ghost use Rattle.std.specs.Prelude.{◌≡◌, [], ◌∷◌, ◌<◌, ◌≤◌, false, true, slice_index_or, length};
ghost use Rattle.std.specs.Prelude.{IfOk, IfSome, IfNone, MatchOption};
ghost use Rattle.piece_ends.specs.Pieces.{ArePieces};
ghost use Rattle.piece_ends.specs.Walk.{next_at};
ghost use Rattle.piece_ends.specs.Index.{AreUsedBelow};

use crate::heads::Heads;
use crate::index::{Links, indexed, lowest_at};
use osm_base::{LineList, OutOfMemory, Place, Places};
use std::alloc::Global;
use std::marker::Model;

/// The pieces that are not used yet, in the order of their numbers.
#[derive(Drop)]
pub struct UnusedPieces<'a> {
    pieces: &'a [Places],
    used: Vec<bool>,
    links: Vec<Links>,
    heads: Heads,
    first: usize,
}

impl<'a> Model for UnusedPieces<'a> {
    ghost use Rattle.std.specs.Prelude.{List};
    ghost use Rattle.piece_ends.specs.Pieces.{Line};

    ghost Value = { List Line };

    ghost use Rattle.piece_ends.specs.Index.{unused_of, IsUnused};

    ghost view = { λ unused. unused_of unused.used.items unused.pieces.now };

    ghost invariant = { λ unused.
        IsUnused unused.pieces.now unused.used.items unused.links.items unused.heads unused.first };
}

impl<'a> UnusedPieces<'a> {
    /// All of the pieces.
    pub fn new(alloc: Global, pieces: &'a LineList) -> Result<Self, OutOfMemory>
        requires pieces { ArePieces pieces.now }
        ensures all { IfOk result (λ unused. unused ≡ pieces.now) }
    {
        let pieces = pieces.as_slice();
        let (heads, links) = indexed(alloc, pieces)?;
        let used = vec![in alloc; false; pieces.len()]?;
        Ok(Self {
            pieces,
            used,
            links,
            heads,
            first: 0,
        })
    }

    /// The piece of the lowest number, which is used from now on.
    pub fn take_first(&mut self) -> Option<&'a Places>
        ensures first { MatchOption result
            (self.old ≡ [])
            (λ piece. self.old ≡ piece.now ∷ self.new) }
        ensures none_stays { IfNone result (self.new ≡ self.old) }
        ensures points { IfSome result (λ piece. 0 < length piece.now) }
    {
        self.first = next_unused(self.used.as_slice(), self.first);
        if self.first == self.used.len() {
            return None;
        }
        self.used[self.first] = true;
        Some(&self.pieces[self.first])
    }

    /// The lowest open piece with an end at a place, which is used from now on.
    pub fn take_at(&mut self, place: Place) -> Option<&'a Places>
        ensures none { IfNone result (next_at place self.old ≡ None) }
        ensures none_stays { IfNone result (self.new ≡ self.old) }
        ensures some { IfSome result (λ piece.
            next_at place self.old ≡ Some (piece.now, self.new)) }
        ensures points { IfSome result (λ piece. 0 < length piece.now) }
    {
        let number = lowest_at(
            self.pieces,
            self.used.as_slice(),
            self.links.as_slice(),
            &self.heads,
            place,
        );
        let Some(number) = number else {
            return None;
        };
        self.used[number] = true;
        // What was passed at this place is not passed again; without it only time is lost.
        let _ = self.heads.put(place, number);
        Some(&self.pieces[number])
    }
}

/// The lowest number from a number on that has no mark, or the count of all.
fn next_unused(used: &[bool], from: usize) -> usize
    requires { from ≤ length used.now }
    ensures bound { result ≤ length used.now }
    ensures passed { AreUsedBelow used.now from → AreUsedBelow used.now result }
    ensures free { result < length used.now → slice_index_or used.now result true ≡ false }
{
    let mut number = from;
    while number < used.len() && used[number] {
        number += 1;
    }
    number
}
