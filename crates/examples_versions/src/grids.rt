//! Examples of boxes in a grid.
use crate::notation::{box_of, spot_of};
use crate::refusal::Refusal;
use grid_index::Grid;
use osm_base::{GeoBox, KeyList};
use std::alloc::Global;

/// A row `SETS | TABLE:BOX`: what is found in a table after each row got its box, or lost it, one after another, and
/// what the candidates are.
pub fn searched(alloc: Global, given: &str, out: &mut String) -> Result<(), Refusal> {
    let Some((sets, asked)) = given.split_once('|') else {
        return Err(Refusal::NoRow);
    };
    let Some((table, asked)) = asked_of(asked.trim()) else {
        return Err(Refusal::NoRow);
    };
    let mut grid = Grid::new(alloc);
    set_boxes(&mut grid, sets)?;
    push_found(alloc, &grid, table, asked, out)
}

/// The table and the box of a word `TABLE:BOX`.
fn asked_of(word: &str) -> Option<(u32, GeoBox)> {
    let (table, asked) = word.split_once(':')?;
    Some((table.parse::<u32>().ok()?, box_of(asked)?))
}

/// Sets the boxes of words `TABLE:ID:BOX`, or `TABLE:ID:-` where the box is gone.
fn set_boxes(grid: &mut Grid, words: &str) -> Result<(), Refusal> {
    for word in words.split_ascii_whitespace() {
        let Some((spot, around)) = spot_of(word) else {
            return Err(Refusal::NoRow);
        };
        let place = box_of(around);
        if place.is_none() && around != "-" {
            return Err(Refusal::NoRow);
        }
        grid.set(spot.table, spot.key, place)?;
    }
    Ok(())
}

/// Adds what is found in a box, and the candidates.
fn push_found(
    alloc: Global,
    grid: &Grid,
    table: u32,
    asked: GeoBox,
    out: &mut String,
) -> Result<(), Refusal> {
    out.push_str("found")?;
    push_ids(&grid.find(alloc, table, asked)?, out)?;
    out.push_str(" candidates")?;
    push_ids(&grid.candidates(alloc, table, asked)?, out)
}

/// Adds the ids of objects, with a blank before each.
fn push_ids(keys: &KeyList, out: &mut String) -> Result<(), Refusal> {
    for key in keys.as_slice() {
        let id = key.id;
        write!(out, " {id}")?;
    }
    Ok(())
}
