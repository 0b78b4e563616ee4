//! What is told of a book that was closed.
ghost use Rattle.std.specs.Prelude.{◌≡◌, ◌≤◌};
ghost use Rattle.pending_book.specs.Once.{IsOnce};

use crate::view::View;
use atomic_table::Seat as Place;
use std::marker::Model;
use std::snapshot::Snapshot;

/// That all tickets of a book were drawn. Proofs see the list of them, in some order: each number below
/// the book's number of tickets stands there exactly once, and no other number.
#[derive(Drop)]
pub struct Drawn {
    pub(crate) place: Snapshot<Place<(), View>>,
    pub(crate) tickets: u32,
    pub(crate) draws: u64,
}

impl Model for Drawn {
    ghost use Rattle.std.specs.Prelude.{◌≤◌};
    ghost use Rattle.pending_book.specs.Drawn.{DrawnView};
    ghost use Rattle.pending_book.specs.Once.{IsOnce};

    ghost Value = { DrawnView };

    ghost view = { λ d. record { list = d.place.value.me.0.drawn; tickets = d.tickets; draws = d.draws } };

    ghost invariant = { λ d. IsOnce d.place.value.me.0.drawn d.tickets × (d.tickets ≤ d.draws) };
}

impl Drawn {
    /// How many draws were made of the book, those that gave no ticket too.
    /// For callers outside: the program does not use it.
    pub fn draws(&self) -> u64
        ensures draws { result ≡ self.now.draws }
        ensures tickets { self.now.tickets ≤ result }
        ensures once { IsOnce self.now.list self.now.tickets }
    {
        self.draws
    }
}
