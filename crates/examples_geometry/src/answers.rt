//! What is asked in a row, and what comes out.
use crate::kernels::{asked, boxed, compared};
use crate::nesting::nested;
use crate::nodes::along;
use crate::pieces::{closed, extended, joined_lines, taken, tested};
use crate::rows::{copied, written};
use crate::{agreement, covers, due, lanes, tables};
use example_table::Examples;
use osm_base::OutOfMemory;
use std::alloc::Global;

/// The examples of geometry, of rows and of tiles.
pub struct OfGeometry;

impl Examples for OfGeometry {
    type Refusal = OutOfMemory;

    fn answer_of(alloc: Global, kind: &str, given: &str) -> Result<Option<String>, OutOfMemory> {
        match kind {
            "pieces" => tested(alloc, given),
            "take" => taken(alloc, given),
            "extend" => extended(alloc, given),
            "join" => joined_lines(alloc, given),
            "rings" => closed(alloc, given),
            "points" | "line" => along(alloc, kind, given),
            "box" => boxed(alloc, given),
            "meet" | "met" => compared(alloc, kind, given),
            "odd" | "crosses" | "on" | "products" => asked(alloc, kind, given),
            "lanes" => lanes::agree(alloc, given),
            "nest" => nested(alloc, given),
            "row" => written(alloc, given),
            "copied" => copied(alloc, given),
            _ => answer_of_tiles(alloc, kind, given),
        }
    }
}

/// What comes out of an example of tiles.
fn answer_of_tiles(alloc: Global, kind: &str, given: &str) -> Result<Option<String>, OutOfMemory> {
    match kind {
        "bounds" => tables::read(alloc, given),
        "steps" => tables::steps(alloc, given),
        "cover" => covers::listed(alloc, given),
        "count" => covers::counted(alloc, given),
        "meets" => covers::met(alloc, given),
        "agree" => agreement::agree(alloc, given),
        "due" => due::spelled(alloc, given),
        "bytes" => due::read(alloc, given),
        "union" => due::joined_runs(alloc, given),
        "text" => due::listed(alloc, given),
        _ => Ok(None),
    }
}
