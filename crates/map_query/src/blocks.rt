//! Rows that stand in order, in blocks with a box around each, so that far ones are passed over together.
ghost use Rattle.std.specs.Prelude.{◌≡◌, ◌≤◌, drop, length, take, IfOk};
ghost use Rattle.map_query.specs.Answer.{near};
ghost use Rattle.map_query.specs.Ordered.{AreBlocks, around_rows};

use crate::boxed::BoxedRow;
use crate::boxes::joined_boxes;
use lanes_geo::is_met;
use osm_base::{GeoBox, OutOfMemory};
use std::alloc::Global;

/// How many rows a block has, but for the last one of a table.
pub(crate) const BLOCK: usize = 64;

/// The boxes around the blocks of rows.
pub(crate) fn blocks_of(
    alloc: Global,
    rows: &[BoxedRow],
) -> Result<Vec<Option<GeoBox>>, OutOfMemory>
    ensures blocks { IfOk result (λ blocks. AreBlocks blocks.items rows.now) }
{
    let mut blocks = Vec::new(alloc);
    let mut at = 0;
    while at < rows.len() {
        blocks.push(around_rows(block_at(rows, at)))?;
        at += BLOCK;
    }
    Ok(blocks)
}

/// The block of rows that begins there.
pub(crate) fn block_at<'a, 't>(rows: &'a [BoxedRow<'t>], at: usize) -> &'a [BoxedRow<'t>]
    requires within { at ≤ length rows.now }
    ensures block { result.now ≡ take BLOCK (drop at rows.now) }
{
    let (_, rest) = rows.split_at(at);
    if rest.len() < BLOCK {
        return rest;
    }
    let (block, _) = rest.split_at(BLOCK);
    block
}

/// The box around rows.
fn around_rows(rows: &[BoxedRow]) -> Option<GeoBox>
    ensures around { result ≡ around_rows rows.now }
{
    let mut around = None;
    for own in rows {
        around = joined_boxes(around, own.around);
    }
    around
}

/// Whether a box, where it is there, has a place in common with the asked one.
pub(crate) fn is_near(asked: GeoBox, around: Option<GeoBox>) -> bool
    ensures near { result ≡ near asked around }
{
    match around {
        Some(around) => is_met(asked, around),
        None => false,
    }
}
