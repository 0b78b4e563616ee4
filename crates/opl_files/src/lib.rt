//! Files of entries, read whole.
//!
//! On the path of the data it stands behind the grammar of one line. `scan_file` reads a file to its end
//! and gives each entry to a `Keeper`, or answers the first line that is not in its form or not in its
//! order; `read_file` keeps the entries as a `Change`, whose keys rise. `scan_parallel` and
//! `read_parallel` do the same by several workers. `read_all` gives a short file's bytes.
#![tactic(auto)]

mod ahead;
mod fault;
mod heap;
mod lot_size;
mod lots;
mod parts;
mod passed;
mod progress;
mod scan;
mod share_out;
mod waiting;
mod whole;

pub use fault::FileFault;
pub use lots::{LOT, read_by_lots, read_parallel, scan_by_lots, scan_parallel};
pub use scan::{PIECE, read_file, scan_file};
pub use whole::{WholeFault, read_all};
