//! The blocks of a feed: what a store tells those that follow it, as lines of text.
//!
//! On the path of the data it stands between the tables and those who keep them elsewhere. A block is the whole of the tables with
//! their style, or the difference that one change made. Each line has one reading, `line_in` of `specs/Line.antt`, which names the
//! first thing that is wrong with a line in its place; and one spelling, `specs/Text.antt`, which is read as the same.
#![tactic(auto)]

mod ahead;
mod block;
mod fault;
mod hexes;
mod laws;
mod line;
mod place;
mod reader;
mod rows;
mod sharing;
mod turn;
mod words;
mod writing;
mod written;

pub use block::{Block, BlockBox, Head, Rows, RowsBox, Stage};
pub use fault::{FeedFault, FeedWhy, FeedWrite, LineRefused};
pub use hexes::{LINE_BYTES, MAX_HEX};
pub use laws::{blocks_are_read_back, lines_are_read_back, one_outcome};
pub use line::{FeedLine, read_line};
pub use place::{Place, Verb};
pub use reader::FeedReader;
pub use sharing::write_full_by;
pub use turn::Turn;
pub use words::{LAST_VERSION, SPACE, TABLES, shared_numbers};
pub use writing::{write_delta, write_full};
