//! The book that all threads share.
ghost use Rattle.std.specs.Prelude.{◌≡◌, ◌+◌, ◌-◌, ◌<◌, ◌≤◌, [], ◌∷◌, ◌++◌, All, IfSome, IfNone, IfOk, length, min};
ghost use Rattle.pending_book.specs.Once.{IsOnce};
ghost use Rattle.pending_book.specs.Seat.{seat_view};

use crate::rule::{Amount, Draw, Gives, Joined, Look, Once};
use crate::view::{Size, View};
use crate::{Drawn, Seat};
use atomic_table::Table;
use osm_base::OutOfMemory;
use std::alloc::Global;
use std::marker::{Brand, Model};
use std::snapshot::Snapshot;

/// The numbers below some n, its tickets, of which each is drawn once.
#[derive(Drop)]
pub struct Book {
    table: Table<(), View, Size, Once, Global>,
    size: Size,
}

impl Model for Book {
    ghost use Rattle.std.specs.Prelude.{◌≡◌};
    ghost use Rattle.pending_book.specs.Seat.{BookView, book_view};

    ghost Value = { BookView };

    ghost view = { λ b. book_view b.table.shared.table_id b.size.tickets b.size.share };

    ghost invariant = { λ b. (b.table.shared.table_id.words ≡ 1) × (b.table.shared.table_id.slots ≡ 0) × (b.table.shared.key ≡ b.size) };
}

impl Book {
    /// A book of the tickets below `n`, and its first seat, which has all shares and no ticket.
    pub fn new(alloc: Global, n: u32, share: u32) -> Result<(Book, Seat), OutOfMemory>
        requires tickets { n ≤ 16777216 }
        requires least { 1 ≤ share }
        requires most { share ≤ 64 }
        ensures book { IfOk result (λ (book, _). (book.tickets ≡ n) × (book.share ≡ share)) }
        ensures seat { IfOk result (λ (book, seat). seat ≡ seat_view book share [] 0) }
    {
        let size = Size { tickets: n, share };
        let (table, place) = Table::of_words(alloc, &[0], &size)?;
        let seat = Seat {
            place,
            size,
            share,
            nones: 0,
        };
        Ok((Book { table, size }, seat))
    }

    /// Draws the next number. `None`: all tickets are drawn. A seat that has had as many None as it has
    /// shares draws no more.
    pub fn draw(&self, seat: &mut Seat) -> Option<u32>
        requires ours { seat.old.book ≡ self.now }
        ensures below { IfSome result (λ ticket. ticket < self.now.tickets) }
        ensures rises { IfSome result (λ ticket. All (λ earlier. earlier < ticket) seat.old.tickets) }
        ensures room { IfSome result (λ _. seat.old.nones < seat.old.share) }
        ensures some { IfSome result (λ ticket. seat.new
            ≡ seat_view self.now seat.old.share (seat.old.tickets ++ ticket ∷ []) seat.old.nones) }
        ensures none { IfNone result (seat.new
            ≡ seat_view self.now seat.old.share seat.old.tickets (min (seat.old.nones + 1) seat.old.share)) }
    {
        if seat.nones >= seat.share {
            return None;
        }
        let found = self.table.shared.fetch_add::<Draw>(&mut seat.place, 0, 1);
        if found < u64::from(seat.size.tickets) {
            return Some(found as u32);
        }
        seat.nones += 1;
        None
    }

    /// Gives shares of a seat that has had no None to a new seat, which has no ticket.
    pub fn split(&self, seat: &mut Seat, give: u32) -> Seat
        requires ours { seat.old.book ≡ self.now }
        requires least { 1 ≤ give }
        requires most { give < seat.old.share }
        requires fresh { seat.old.nones ≡ 0 }
        ensures kept { seat.new ≡ seat_view self.now (seat.old.share - give) seat.old.tickets 0 }
        ensures given { result ≡ seat_view self.now give [] 0 }
    {
        self.split_by::<Brand>(seat, give)
    }

    fn split_by<G: Amount>(&self, seat: &mut Seat, give: u32) -> Seat
        requires amount { give ≡ G.amount }
        requires ours { seat.old.book ≡ self.now }
        requires least { 1 ≤ give }
        requires most { give < seat.old.share }
        requires fresh { seat.old.nones ≡ 0 }
        ensures kept { seat.new ≡ seat_view self.now (seat.old.share - give) seat.old.tickets 0 }
        ensures given { result ≡ seat_view self.now give [] 0 }
    {
        let place = self.table.shared.split_seat::<Gives<G>>(&mut seat.place);
        seat.share -= give;
        Seat {
            place,
            size: seat.size,
            share: give,
            nones: 0,
        }
    }

    /// Puts two seats together: their lists, shares and counts of None.
    pub fn join(&self, seat: &mut Seat, other: Seat)
        requires ours { seat.old.book ≡ self.now }
        requires other_ours { other.book ≡ self.now }
        ensures joined_seats { seat.new ≡ seat_view self.now (seat.old.share + other.share)
            (seat.old.tickets ++ other.tickets) (seat.old.nones + other.nones) }
    {
        let Seat {
            place,
            size: _,
            share,
            nones,
        } = other;
        self.table
            .shared
            .join_seat::<Joined>(&mut seat.place, place);
        let _few = self.table.shared.load::<Look>(&mut seat.place, 0);
        seat.share += share;
        seat.nones += nones;
    }

    /// Ends the book, once its seat has all shares and has had a None.
    pub fn close(self, seat: Seat) -> Drawn
        requires ours { seat.book ≡ self }
        requires whole { seat.share ≡ self.share }
        requires dry { 0 < seat.nones }
        ensures list { (result.list ≡ seat.tickets) × (result.tickets ≡ self.tickets) }
        ensures once { IsOnce seat.tickets self.tickets }
        ensures draws { result.draws ≡ self.tickets + seat.nones }
    {
        let Book { table, size } = self;
        let place = Snapshot::of(&seat.place);
        let closed = table.close_with(seat.place);
        let draws = closed.word(0);
        closed.free();
        Drawn {
            place,
            tickets: size.tickets,
            draws,
        }
    }
}
