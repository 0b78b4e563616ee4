//! The rule of a book, and the steps that its seats make.
ghost use Rattle.std.specs.Prelude.{ℕ, []};
ghost use Rattle.pending_book.specs.Rule.{Draws, Kept, Looks, given, hand, joined_seats, kept, spent};

use crate::view::{Size, View};
use atomic_table::{Join, Play, Split, TableRule};
use std::marker::{Brand, PhantomData};

/// Each number once. The first seat has all shares.
pub struct Once;

impl TableRule<(), View, Size> for Once {
    ghost holds = { Kept };

    ghost first = { λ size. hand size.tickets size.share [] 0 };
}

/// A draw: the word rises by 1.
pub struct Draw;

impl Play<(), View> for Draw {
    ghost then = { Draws };
}

/// A look that changes nothing.
pub struct Look;

impl Play<(), View> for Look {
    ghost then = { Looks };
}

/// How many shares a split gives away. A step cannot read the argument of a call, so a call names it.
pub trait Amount {
    ghost amount: { ℕ };
}

impl Amount for Brand {
    ghost amount = { 0 };
}

/// A split that gives an amount of shares to the new seat.
pub struct Gives<G> {
    of: PhantomData<G>,
}

impl<G: Amount> Split<View> for Gives<G> {
    ghost left = { kept G.amount };

    ghost right = { given G.amount };
}

/// A join of two seats.
pub struct Joined;

impl Join<View> for Joined {
    ghost both = { joined_seats };

    ghost spent = { spent };
}
