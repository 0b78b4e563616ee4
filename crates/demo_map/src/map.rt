//! The map of so many squares, and its two changes.
ghost use Rattle.std.specs.Prelude.{◌≡◌, ◌≤◌, length, IfOk};
ghost use Rattle.demo_map.specs.Demo.{demo_input, demo_first, demo_second};

use crate::parts::{Part, keep_all_nodes, keep_part};
use crate::squares::Squares;
use object_fold::Change;
use osm_base::{MAX_ENTRIES, OutOfMemory};
use std::alloc::Global;

/// The entries of the map of so many squares.
pub fn input_of(alloc: Global, squares: Squares) -> Result<Change, OutOfMemory>
    ensures entries { IfOk result (λ change. change ≡ demo_input squares.count) }
    ensures few { IfOk result (λ change. length change ≤ MAX_ENTRIES) }
{
    let mut change = Change::new(alloc);
    keep_all_nodes(alloc, squares, &mut change)?;
    keep_part(alloc, Part::Ways, squares, &mut change)?;
    keep_part(alloc, Part::Routes, squares, &mut change)?;
    Ok(change)
}

/// The first change of that map: each tenth building gets another shape.
pub fn first_change_of(alloc: Global, squares: Squares) -> Result<Change, OutOfMemory>
    ensures entries { IfOk result (λ change. change ≡ demo_first squares.count) }
    ensures few { IfOk result (λ change. length change ≤ MAX_ENTRIES) }
{
    let mut change = Change::new(alloc);
    keep_part(alloc, Part::Moved, squares, &mut change)?;
    Ok(change)
}

/// The second change: each tenth cafe is deleted, and with it a corner of its building.
pub fn second_change_of(alloc: Global, squares: Squares) -> Result<Change, OutOfMemory>
    ensures entries { IfOk result (λ change. change ≡ demo_second squares.count) }
    ensures few { IfOk result (λ change. length change ≤ MAX_ENTRIES) }
{
    let mut change = Change::new(alloc);
    keep_part(alloc, Part::Gone, squares, &mut change)?;
    Ok(change)
}
