//! Boxes that are kept beside the rows of tables.
ghost use Rattle.std.specs.Prelude.{◌≡◌, Some, IfOk, OnOk};
ghost use Rattle.grid_index.specs.Grid.{with_box};
ghost use Rattle.map_query.specs.RowBoxes.{IsBoxed, box_in, boxes_from};

use crate::boxes::box_of_geometry;
use grid_index::Grid;
use osm_base::{GeoBox, OutOfMemory, Row, Spot, Tables};
use std::alloc::Global;
use std::collections::BTreeMap;

/// The box of a row that may be there.
pub fn box_in(row: &Option<Row>) -> Option<GeoBox>
    ensures around { result ≡ box_in row.now }
{
    match row {
        Some(row) => box_of_geometry(&row.geometry),
        None => None,
    }
}

/// The boxes of the rows of tables.
pub fn boxes_of(alloc: Global, tables: &Tables) -> Result<Grid, OutOfMemory>
    ensures boxes { IfOk result (λ boxes. IsBoxed tables.now boxes) }
{
    let boxes = boxes_in(alloc, tables.rows())?;
    Ok(boxes)
}

/// The boxes of the rows of a tree.
fn boxes_in(alloc: Global, rows: &BTreeMap<Spot, Row>) -> Result<Grid, OutOfMemory>
    ensures boxes { IfOk result (λ boxes. boxes ≡ boxes_from rows.now.entries) }
{
    let mut boxes = Grid::new(alloc);
    for (spot, row) in rows.iter().rev() {
        add_box(&mut boxes, *spot, row)?;
    }
    Ok(boxes)
}

/// Adds the box of a row.
fn add_box(boxes: &mut Grid, spot: Spot, row: &Row) -> Result<(), OutOfMemory>
    ensures ok { OnOk result (boxes.new ≡ with_box boxes.old spot.table spot.key (box_in (Some row.now))) }
{
    boxes.set(spot.table, spot.key, box_of_geometry(&row.geometry))
}
