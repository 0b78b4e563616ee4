//! What a thread draws with.
ghost use Rattle.std.specs.Prelude.{◌≡◌, ◌<◌, ◌≤◌, []};

use crate::view::{Size, View};
use atomic_table::Seat as Place;
use std::marker::Model;

/// A seat of a book. Proofs see the list of the tickets that it drew, which takes no memory.
#[derive(Drop)]
pub struct Seat {
    pub(crate) place: Place<(), View>,
    pub(crate) size: Size,
    pub(crate) share: u32,
    pub(crate) nones: u32,
}

impl Model for Seat {
    ghost use Rattle.std.specs.Prelude.{◌≡◌, ◌<◌, ◌≤◌, []};
    ghost use Rattle.pending_book.specs.Seat.{SeatView, book_view, seat_view};

    ghost Value = { SeatView };

    ghost view = { λ s. seat_view (book_view s.place.table_id s.size.tickets s.size.share) s.share s.place.me.0.drawn s.nones };

    ghost invariant = { λ s. (s.place.me.1 ≡ []) × (s.size.tickets ≡ s.place.me.0.tickets)
        × (s.share ≡ s.place.me.0.share) × (s.nones ≡ s.place.me.0.nones) × (s.nones ≤ s.share) × (0 < s.share) };
}

impl Seat {
    /// How many shares it has, at least one.
    pub fn share(&self) -> u32
        ensures share { result ≡ self.now.share }
        ensures some { 0 < result }
    {
        self.share
    }
}
