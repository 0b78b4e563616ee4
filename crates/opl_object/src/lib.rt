//! One line of an OPL file: the entry that it spells, or the first thing that is wrong with it, and the
//! line that is written of an entry.
//!
//! On the path of the data it stands between the lines of a file and the fold of its entries. A line
//! comes in as bytes, cut from a file; `osm_base` has the types of what goes out.
//!
//! `read_line` keeps three promises, each for every line and unless memory runs out. What it reads is
//! spelled so, and what is spelled so it reads, by `Spells` of `specs/Spells.antt`. What it refuses has
//! that fault, and what has a fault it refuses so, by `HasFault` of `specs/Faults.antt`. Both are
//! relations on whole fields and lists that know nothing of how a line is read. And it gives just what
//! `reading` of `specs/Line.antt` gives, from left to right. `one_meaning` is the law that follows: a
//! line is skipped, or has one fault, or spells one entry.
//!
//! `write_entry` is the way back. It puts the line of an entry to a sink and takes no memory, so that
//! it fails only where the sink does, and then the sink has taken a front of the line. What was written
//! spells the entry by the same `Spells`, so `read_line` reads it as the same; and what `read_line` has
//! read can be written. `specs/Written.antt` says which of the many lines of an entry it is.
//!
//! A value in the form that files mostly have is tested in the pass that finds where it ends (`usual`), sixteen
//! bytes at a time where so many are left (`lanes`), and the fields that most lines begin with are passed over in
//! their usual order (`head`); any other value is cut off first. A text without an escape is copied from the line
//! as it stands. Values that are not kept are checked where they stand, and take no memory; an empty list takes
//! none either.
#![tactic(auto)]

mod ascii;
mod coordinate;
mod escapes;
mod fields;
mod head;
mod lanes;
mod letter;
mod line;
mod lists;
mod members;
mod mixed;
mod nodes;
mod number;
mod parts;
mod tag;
mod tags;
mod text;
mod usual;
mod why;
mod written;

pub use ascii::shared_numbers;
pub use coordinate::coordinate as coordinate_of;
pub use line::{one_meaning, read_line, read_line_exactly};
pub use number::id_of;
pub use why::{LineRefused, Why};
pub use written::write_entry;
