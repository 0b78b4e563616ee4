//! Numbered byte strings in a store of pages: the chains of the root page, the buckets and their directories.
//!
//! It stands on the pages of `page_journal` and knows no object. A byte string is held in the data parts
//! of a chain of pages, 4,080 bytes in each but the last. The root page has the first pages of the chains
//! 0 to 15, four fields of the store and the first free page; eight directories, themselves chains, have
//! the first pages of the buckets' chains, whose numbers begin at 16.
//!
//! `read_kept` reads the root page and the directories of an open journal, and `Chains::over` makes them
//! a transaction. `load` and `store` work on the strings of that transaction, and `commit` makes all that
//! was stored stand at once: a crash leaves the strings as they were, or as they are to be. A written
//! chain keeps its own pages as far as it needs them. Pages that chains give up are used first, then the
//! free ones, then new ones behind the end, and a page whose bytes stay is not written.
//!
//! A transaction reads each chain at most once, but for a bucket that is loaded again, and a commit reads the
//! free list besides: `reads_add_up`.
//!
//! Contracts speak of the pages at rest: `IsState root strings pages` says which fields and byte strings
//! they hold, that no page is in two chains, and that each page is in one or free. A store that breaks
//! the rules of chains is refused with the page at which it does.
#![tactic(auto)]

mod attaching;
mod chains;
mod firsts;
mod gathering;
mod kept;
mod laws;
mod laying;
mod layout;
mod marks;
mod number_map;
mod numbers;
mod parts;
mod planning;
mod root;
mod walking;

pub use attaching::read_kept;
pub use chains::Chains;
pub use kept::Kept;
pub use laws::{reads_add_up, shared_numbers};
pub use root::Root;
