//! A search for the boxes near an asked one.
ghost use Rattle.std.specs.Prelude.{◌≡◌, ◌≤◌, ℕ, Some, IfOk, OnOk};
ghost use Rattle.std.specs.FinMap as map;
ghost use Rattle.osm_base.specs.map.Spots.{SpotOf};
ghost use Rattle.osm_base.specs.values.Key.{IsId};
ghost use Rattle.grid_index.specs.Marks.{IsMarked};
ghost use Rattle.grid_index.specs.Cells as spec;
ghost use Rattle.grid_index.specs.Cells.{HasFew};
ghost use Rattle.grid_index.specs.Grid.{boxes_in, candidates, found_in, keys_of, wanted};
ghost use Rattle.grid_index.specs.Search.{CoversLevel, CoversParts, Grows, IsPart, passes, with_passed};

use crate::cells::{Cells, LAST_LEVEL, cells_of, is_wide, part, share};
use crate::grid::Grid;
use crate::marks::{Mark, mark_number};
use crate::tree::{box_at, set_box};
use lanes_geo::is_met;
use osm_base::{GeoBox, Items, Key, KeyList, Kind, MAX_ID, OutOfMemory, Spot};
use std::alloc::Global;
use std::collections::{BTreeMap, BTreeSet};
use std::ops::Bound;

/// What is searched, and for what.
#[derive(Clone, Copy)]
struct Search<'g> {
    boxes: &'g BTreeMap<Spot, GeoBox>,
    marks: &'g BTreeSet<Mark>,
    table: u32,
    asked: GeoBox,
    /// Only boxes that meet the asked one.
    exact: bool,
}

impl Grid {
    /// The keys of a table whose boxes are wide or share a cell with the asked one, rising.
    /// For callers outside: the program does not use it.
    pub fn candidates(
        &self,
        alloc: Global,
        table: u32,
        asked: GeoBox,
    ) -> Result<KeyList, OutOfMemory>
        ensures keys { IfOk result (λ keys. keys ≡ candidates self.now table asked) }
    {
        let found = self.search(alloc, table, asked, false)?;
        keys_of(alloc, &found)
    }

    /// The keys of a table whose boxes have a place in common with the asked one, rising.
    pub fn find(&self, alloc: Global, table: u32, asked: GeoBox) -> Result<KeyList, OutOfMemory>
        ensures keys { IfOk result (λ keys. keys ≡ found_in self.now table asked) }
    {
        let found = self.search(alloc, table, asked, true)?;
        keys_of(alloc, &found)
    }

    /// The boxes of a table that pass the test.
    fn search(
        &self,
        alloc: Global,
        table: u32,
        asked: GeoBox,
        exact: bool,
    ) -> Result<BTreeMap<Spot, GeoBox>, OutOfMemory>
        ensures found { IfOk result (λ found. boxes_in found ≡ wanted (passes exact asked) self.now table) }
    {
        let search = Search {
            boxes: &self.boxes,
            marks: &self.marks,
            table,
            asked,
            exact,
        };
        search_all(alloc, search)
    }
}

/// What is found in all parts.
fn search_all(alloc: Global, search: Search) -> Result<BTreeMap<Spot, GeoBox>, OutOfMemory>
    requires marked { (at : SpotOf) → IsMarked search.marks.now.keys at (map.get (boxes_in search.boxes.now) at) }
    ensures found { IfOk result (λ found. boxes_in found ≡ wanted (passes search.entry.exact search.entry.asked) (boxes_in search.entry.boxes.now) search.entry.table) }
{
    let found = search_levels(alloc, search)?;
    Ok(found)
}

/// What is found in the parts of all levels that the asked box reaches.
fn search_levels(alloc: Global, search: Search) -> Result<BTreeMap<Spot, GeoBox>, OutOfMemory>
    ensures part { IfOk result (λ found. IsPart (wanted (passes search.entry.exact search.entry.asked) (boxes_in search.entry.boxes.now) search.entry.table) (boxes_in found)) }
    ensures covers { IfOk result (λ found. (level : ℕ) → level ≤ LAST_LEVEL → CoversLevel search.entry.marks.now.keys search.entry.table
        (wanted (passes search.entry.exact search.entry.asked) (boxes_in search.entry.boxes.now) search.entry.table) (boxes_in found) level (spec.cells_of search.entry.asked)) }
{
    let cells = cells_of(search.asked);
    let mut found = BTreeMap::new(alloc);
    for level in 0..LAST_LEVEL + 1 {
        add_level(search, cells, &mut found, level)?;
    }
    Ok(found)
}

/// Adds what is found in the parts of a level that these cells reach.
fn add_level(
    search: Search,
    cells: Cells,
    found: &mut BTreeMap<Spot, GeoBox>,
    level: u32,
) -> Result<(), OutOfMemory>
    requires few { HasFew cells }
    requires level { level ≤ LAST_LEVEL }
    requires part { IsPart (wanted (passes search.exact search.asked) (boxes_in search.boxes.now) search.table) (boxes_in found.old) }
    ensures grows { OnOk result (Grows (wanted (passes search.entry.exact search.entry.asked) (boxes_in search.entry.boxes.now) search.entry.table) (boxes_in found.old) (boxes_in found.new)) }
    ensures covers { OnOk result (CoversLevel search.entry.marks.now.keys search.entry.table
        (wanted (passes search.entry.exact search.entry.asked) (boxes_in search.entry.boxes.now) search.entry.table) (boxes_in found.new) level cells) }
{
    let south = part(level, cells.south);
    let north = part(level, cells.north);
    for column in part(level, cells.west)..part(level, cells.east) + 1 {
        let first = mark_number(level, column, south);
        let last = mark_number(level, column, north);
        add_parts(search, found, first, last)?;
    }
    Ok(())
}

/// Adds what is found in these parts.
fn add_parts(
    search: Search,
    found: &mut BTreeMap<Spot, GeoBox>,
    first: u32,
    last: u32,
) -> Result<(), OutOfMemory>
    requires least { 1 ≤ first }
    requires most { last ≤ 12582912 }
    requires part { IsPart (wanted (passes search.exact search.asked) (boxes_in search.boxes.now) search.table) (boxes_in found.old) }
    ensures grows { OnOk result (Grows (wanted (passes search.entry.exact search.entry.asked) (boxes_in search.entry.boxes.now) search.entry.table) (boxes_in found.old) (boxes_in found.new)) }
    ensures covers { OnOk result (CoversParts search.entry.marks.now.keys search.entry.table
        (wanted (passes search.entry.exact search.entry.asked) (boxes_in search.entry.boxes.now) search.entry.table) (boxes_in found.new) first last) }
{
    if last < first {
        return Ok(());
    }
    let front = Bound::Excluded(end_of(search.table, first - 1, Kind::Relation, MAX_ID));
    let back = Bound::Excluded(end_of(search.table, last + 1, Kind::Node, 1));
    for mark in search.marks.range((front, back)) {
        consider(search, found, mark.key)?;
    }
    Ok(())
}

/// A mark at an end of a part.
fn end_of(table: u32, part: u32, kind: Kind, id: u64) -> Mark
    requires { IsId id }
    ensures fields { result ≡ record { table = table; part = part; key = record { kind = kind; id = id } } }
{
    Mark {
        table,
        part,
        key: Key::new(kind, id),
    }
}

/// Adds the box of an object, if it has one that passes the test.
fn consider(search: Search, found: &mut BTreeMap<Spot, GeoBox>, key: Key) -> Result<(), OutOfMemory>
    ensures ok { OnOk result (boxes_in found.new ≡ with_passed (passes search.entry.exact search.entry.asked) (boxes_in found.old)
        (record { table = search.entry.table; key = key }) (map.get (boxes_in search.entry.boxes.now) (record { table = search.entry.table; key = key }))) }
{
    let spot = Spot {
        table: search.table,
        key,
    };
    match box_at(search.boxes, spot) {
        None => Ok(()),
        Some(around) => add_passed(found, spot, around, search.asked, search.exact),
    }
}

/// Adds a box, if it passes the test.
fn add_passed(
    found: &mut BTreeMap<Spot, GeoBox>,
    spot: Spot,
    around: GeoBox,
    asked: GeoBox,
    exact: bool,
) -> Result<(), OutOfMemory>
    ensures ok { OnOk result (boxes_in found.new ≡ with_passed (passes exact asked) (boxes_in found.old) spot (Some around)) }
{
    if passes(exact, asked, around) {
        set_box(found, spot, around)?;
    }
    Ok(())
}

/// Whether a box passes the test.
fn passes(exact: bool, asked: GeoBox, around: GeoBox) -> bool
    ensures passes { result ≡ passes exact asked around }
{
    if exact {
        return is_met(asked, around);
    }
    let cells = cells_of(around);
    is_wide(cells) || share(cells_of(asked), cells)
}

/// The keys of boxes, in the order of their spots.
fn keys_of(alloc: Global, found: &BTreeMap<Spot, GeoBox>) -> Result<KeyList, OutOfMemory>
    ensures keys { IfOk result (λ keys. keys ≡ keys_of (boxes_in found.now)) }
{
    let mut keys = Items::new(alloc);
    for (spot, _) in found.iter() {
        keys.push(spot.key)?;
    }
    Ok(keys)
}
