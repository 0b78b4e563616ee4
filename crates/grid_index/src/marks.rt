//! The marks by which boxes are found.
ghost use Rattle.std.specs.Prelude.{◌≡◌, ◌≢◌, ◌<◌, ◌≤◌, true, false, if◌then◌else◌, OnOk, OnErr};
ghost use Rattle.std.specs.Ordering.{is_eq};
ghost use Rattle.grid_index.specs.declared.marks.Mark as declared;
ghost use Rattle.grid_index.specs.Marks as spec;

use crate::cells::{LAST_LEVEL, cells_of, level_of, part};
use osm_base::{GeoBox, Key, OutOfMemory, Spot};
use std::collections::BTreeSet;

/// The mark of a box: its table, the number of the part of the earth that holds it, and the key of its object.
#[derive(Clone, Copy, PartialEq, Eq, PartialOrd, Ord)]
pub struct Mark {
    pub table: u32,
    pub part: u32,
    pub key: Key,
}

/// The number of a part, from 1: the parts of a level are numbered column by column.
#[tactic(auto, unfolding(crate::specs::Marks::mark_number))]
pub(crate) fn mark_number(level: u32, column: u32, row: u32) -> u32
    requires level { level ≤ LAST_LEVEL }
    requires column { column < 1024 }
    requires row { row < 1024 }
    ensures number { result ≡ spec.mark_number level column row }
    ensures least { 1 ≤ result }
    ensures most { result ≤ 12582912 }
{
    (level * 1024 + column) * 1024 + row + 1
}

/// The number of the part that holds a box.
fn part_of(around: GeoBox) -> u32
    ensures part { result ≡ spec.part_of around }
{
    let cells = cells_of(around);
    let level = level_of(cells);
    let column = part(level, cells.west);
    let row = part(level, cells.south);
    mark_number(level, column, row)
}

/// The mark of the box at a spot.
pub(crate) fn mark_of(spot: Spot, around: GeoBox) -> Mark
    ensures mark { result ≡ spec.mark_of spot around }
{
    Mark {
        table: spot.table,
        part: part_of(around),
        key: spot.key,
    }
}

/// Adds a mark. After `Err` the marks are as before.
pub(crate) fn add_mark(marks: &mut BTreeSet<Mark>, mark: Mark) -> Result<(), OutOfMemory>
    ensures ok { OnOk result ((other : declared.Mark) → spec.has marks.new.keys other ≡ (if is_eq (spec.mark_cmp mark other) then true else spec.has marks.old.keys other)) }
    ensures err { OnErr result (marks.new.keys ≡ marks.old.keys) }
{
    marks.insert(mark)?;
    Ok(())
}

/// Takes a mark away.
pub(crate) fn drop_mark(marks: &mut BTreeSet<Mark>, mark: Mark)
    ensures others { (other : declared.Mark) → spec.has marks.new.keys other ≡ (if is_eq (spec.mark_cmp mark other) then false else spec.has marks.old.keys other) }
{
    marks.remove(&mark);
}

/// Takes the mark of the box that a spot had, unless the new box has the same.
pub(crate) fn drop_moved(marks: &mut BTreeSet<Mark>, spot: Spot, before: GeoBox, around: GeoBox)
    ensures moved { spec.part_of before ≢ spec.part_of around → (other : declared.Mark) → spec.has marks.new.keys other
        ≡ (if is_eq (spec.mark_cmp (spec.mark_of spot before) other) then false else spec.has marks.old.keys other) }
    ensures same { spec.part_of before ≡ spec.part_of around → marks.new.keys ≡ marks.old.keys }
{
    if part_of(before) != part_of(around) {
        drop_mark(marks, mark_of(spot, before));
    }
}
