//! The journal of pages: a set of pages is written over the store as a whole or not at all.
//!
//! It is the lowest layer of the store, straight over a `Disk` of `outside`. `format` writes an empty
//! store, `open` opens one and finishes a journal that a crash has left open, and a `Journal` reads the
//! home pages of an open store and commits a `PageSet` to them. The layers above see a list of pages of
//! 4,096 bytes, of which page 1 tells at its front how many there are, page 0 among them.
//!
//! A commit writes the set behind the home pages, makes that stable, and then sets one byte of page 0,
//! the gate, to 1. From there on the set counts, and it is copied home and the gate shut again. Neighbouring
//! pages go to the disk in one call. Contracts speak of the bytes of the disk, where it tells them: `Home`
//! says which pages they stand for, with the journal and without it, and at every moment of `commit` each
//! outcome of a crash has the old home pages or the new ones. After `Ok` it has the new ones. `open` begins
//! with a sync, and may crash itself: at every moment each outcome has the home pages of one of the outcomes
//! at its entry.
//!
//! A store that is not formatted, whose open journal is not well formed or that does not hold its pages is
//! refused, exactly there. After a failure of the disk a journal answers `Broken` until it is opened again. Who only looks at
//! a store finds by `GATE_AT` and `OPEN` whether an opening would write.
#![tactic(auto)]

mod committing;
mod fault;
mod formatting;
mod journal;
mod laws;
mod layout;
mod numbers;
mod opening;
mod page_run;
mod page_set;
mod pages;
mod reading;

pub use fault::StoreFault;
pub use formatting::format;
pub use journal::Journal;
pub use laws::{home_is_one, shared_numbers};
pub use layout::{GATE_AT, OPEN};
pub use opening::open;
pub use page_set::PageSet;
