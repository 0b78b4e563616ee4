//! The book of what waits: the numbers below n, its tickets, which any number of threads draw, each
//! number once.
//!
//! It stands beside the path of the data: the objects whose rows are to be built are numbered, each
//! worker draws its next number from the book, and no lock and no list is shared between workers but
//! one word, the next number. Who draws does so with a `Seat`, which proofs see as the list of the
//! tickets that it drew. A seat is split for another worker and joined again. A book that is closed
//! with all its shares back gives a `Drawn`: that list then has each number below n exactly once.
//!
//! A draw is one atomic step and never waits. No proof says that a worker gets on, nor which of them
//! draws which number.
#![tactic(auto)]

mod book;
mod drawn;
mod rule;
mod seat;
mod view;

pub use book::Book;
pub use drawn::Drawn;
pub use seat::Seat;
