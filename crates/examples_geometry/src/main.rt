//! Runs each example of the tables of geometry, of rows and of tiles and prints its name, up to the first that differs.
//!
//! A row is what is asked, the name of the example, what is given, and behind `=>` what has to come
//! out. `data/pieces.txt` says how places, lines and boxes are written.
#![tactic(auto)]

mod agreement;
mod answers;
mod chance;
mod covers;
mod due;
mod kernels;
mod lanes;
mod nesting;
mod nodes;
mod notation;
mod pieces;
mod rows;
mod shapes;
mod tables;

use answers::OfGeometry;
use example_table::run_examples;
use std::io;
use std::process::ExitCode;

/// The tables, those of the lower crates first.
const TABLES: [&str; 6] = [
    "pieces.txt",
    "lines.txt",
    "kernels.txt",
    "nests.txt",
    "rows.txt",
    "tiles.txt",
];

fn main(rt: HostRuntime) -> io::Result<ExitCode> {
    run_examples::<OfGeometry, HostRuntime>(&rt, &TABLES)
}
