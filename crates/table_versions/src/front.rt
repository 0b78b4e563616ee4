//! What was seen of a history.
ghost use Rattle.std.specs.Prelude.{◌≡◌, ◌≤◌, ◌<◌, ◌^◌, ◌++◌, ◌∷◌, [], length, IsTrue, ◌↔◌, ◌⊎◌};
ghost use Rattle.std.specs.Bool.{OnTrue, OnFalse};
ghost use Rattle.table_versions.specs.Fronts.{Begins, FrontOf};

use crate::history::{Add, Begin, Beginning, Entry, Law, Nothing};
use logbook::{Offer, Seen, Start, Word};
use osm_base::{Delta, Tables};
use std::marker::Model;

/// The word of a history, the number of its deltas. Contracts see which history it is.
#[derive(Drop)]
pub struct Head {
    word: Word<Entry, u64, Law>,
}

impl Model for Head {
    ghost use Rattle.std.specs.Prelude.{◌≡◌};
    ghost use Rattle.logbook.specs.Pages.{Book, book_coded};
    ghost use Rattle.table_versions.specs.History.{head_of};

    ghost Value = { Book };

    ghost coded = { book_coded };

    ghost view = { λ head. head.word.book };

    ghost invariant = { λ head. head.word ≡ head_of head.word.book };
}

/// A beginning of a history that was seen.
#[derive(Drop)]
pub struct Front {
    deltas: u64,
    seen: Seen<Entry, u64, Law>,
}

impl Model for Front {
    ghost use Rattle.std.specs.Prelude.{◌≡◌, length};
    ghost use Rattle.table_versions.specs.Fronts.{FrontOf, base_of, deltas_in, entries, first_of, front_code, front_of};

    ghost Value = { FrontOf };

    ghost coded = { front_code };

    ghost view = { λ front. front_of front.seen.book front.seen.log };

    ghost invariant = { λ front. (front.seen.log ≡ entries (first_of front.seen.log) (base_of front.seen.log) (deltas_in front.seen.log)) × (front.deltas ≡ length (deltas_in front.seen.log)) };
}

/// A history without a delta, which begins with these tables: its word, and the front that has seen all of it.
pub fn open_history(tables: &Tables, version: u64) -> (Head, Front)
    ensures same { result.0 ≡ result.1.book }
    ensures first { result.1.first ≡ tables.now }
    ensures base { result.1.base ≡ version }
    ensures empty { result.1.log ≡ [] }
{
    let (seen, mut pens) = Seen::open_row::<Beginning, Begin>(
        &Beginning { tables, version },
        Start::alone(),
        1,
    );
    let word = Word::tracked(0, &mut pens.take());
    (Head { word }, Front { deltas: 0, seen })
}

impl Front {
    /// How many deltas it has.
    pub fn len(&self) -> u64
        ensures length { result ≡ length self.now.log }
    {
        self.deltas
    }

    /// A copy; takes no memory.
    pub fn again(&self) -> Front
        ensures same { result ≡ self.now }
    {
        Front {
            deltas: self.deltas,
            seen: self.seen.again(),
        }
    }

    /// Whether another front of the same history has at least as many deltas, and so begins with these.
    pub fn begins(&self, other: &Front) -> bool
        requires { other.now.book ≡ self.now.book }
        ensures len { IsTrue result ↔ (length self.now.log ≤ length other.now.log) }
        ensures begins { OnTrue result (Begins self.now other.now) }
    {
        let mut both = self.seen.again();
        both.learn(&other.seen);
        self.deltas <= other.deltas
    }

    /// The longer of two fronts of one history, which the other begins.
    pub fn longer(&self, other: &Front) -> Front
        requires { other.now.book ≡ self.now.book }
        ensures one { (result ≡ self.now) ⊎ (result ≡ other.now) }
        ensures this { Begins self.now result }
        ensures that { Begins other.now result }
    {
        if self.begins(other) {
            return other.again();
        }
        let _shorter = other.begins(self);
        self.again()
    }

    /// Adds a delta to all that was seen, in one step, and says whether it did. It did not where the history is longer.
    pub fn add(&mut self, head: &Head, delta: &Delta) -> bool
        requires same { head.now ≡ self.old.book }
        requires room { length self.old.log < 2 ^ 62 }
        ensures added { OnTrue result (self.new ≡ record self.old { log = self.old.log ++ delta.now ∷ [] }) }
        ensures longer { OnFalse result (self.new ≡ self.old) }
    {
        let mut seen = self.seen.again();
        let mut offer: Offer<Entry, u64, Law, Nothing> = seen.plain::<Nothing, Delta, Add>(delta);
        let mut pen = seen.no_pen();
        let found = head.word.compare_exchange::<Add, Nothing>(
            self.deltas,
            self.deltas + 1,
            &mut seen,
            &mut offer,
            &mut pen,
        );
        if found != self.deltas {
            return false;
        }
        self.deltas += 1;
        self.seen = seen;
        true
    }
}
