//! A row in bytes.
ghost use Rattle.std.specs.Prelude.{◌≡◌, ◌++◌, length, IfOk, IfErr, OnOk};
ghost use Rattle.value_bytes.specs.Forms.{Spells, IsNoValue, IsFront, IsFrontless, NeedsFor};
ghost use Rattle.value_bytes.specs.Row.{row_bytes, IsRow};

use crate::{Spelled, ValueFault, front_many, push_many};
use osm_base::{Bytes, Cells, Geometry, Items, OutOfMemory, Row};
use std::alloc::Global;

/// The bytes that few rows are longer than, for which there is room from the start.
pub const USUAL_BYTES: usize = 256;

/// The bytes of the cells of a row and of its geometry.
pub fn row_bytes(alloc: Global, row: &Row) -> Result<Bytes, OutOfMemory>
    ensures bytes { IfOk result (λ bytes. bytes ≡ row_bytes row.now) }
    ensures is { OnOk result (IsRow (length row.now.cells) row.now) }
{
    let mut out = Vec::with_capacity(alloc, USUAL_BYTES)?;
    push_row(&mut out, row)?;
    Ok(Items::from_vec(out))
}

/// The row of so many cells with these bytes.
pub fn read_row(alloc: Global, columns: u64, bytes: &[u8]) -> Result<Row, ValueFault>
    ensures row { IfOk result (Spells row_bytes (IsRow columns) bytes.now) }
    ensures refused { IfErr result (NeedsFor (IsNoValue row_bytes (IsRow columns) bytes.now)) }
{
    let (row, rest) = match front_row(alloc, columns, bytes) {
        Ok(found) => found,
        Err(fault) => return Err(fault),
    };
    if !rest.is_empty() {
        return Err(ValueFault::NotSpelled);
    }
    Ok(row)
}

/// The row of so many cells at the front, and the bytes behind it.
pub fn front_row<'b>(
    alloc: Global,
    columns: u64,
    bytes: &'b [u8],
) -> Result<(Row, &'b [u8]), ValueFault>
    ensures row { IfOk result (λ (row, rest). IsFront row_bytes (IsRow columns) bytes.now row rest.now) }
    ensures refused { IfErr result (NeedsFor (IsFrontless row_bytes (IsRow columns) bytes.now)) }
{
    let (cells, behind): (Cells, &[u8]) = match front_many(alloc, columns, bytes) {
        Ok(found) => found,
        Err(fault) => return Err(fault),
    };
    let (geometry, rest) = match Geometry::front(alloc, behind) {
        Ok(found) => found,
        Err(fault) => return Err(fault),
    };
    Ok((Row { cells, geometry }, rest))
}

/// Puts the bytes of a row behind those that are there.
pub fn push_row(out: &mut Vec<u8>, row: &Row) -> Result<(), OutOfMemory>
    ensures ok { OnOk result (out.new.items ≡ out.old.items ++ row_bytes row.now) }
    ensures is { OnOk result (IsRow (length row.now.cells) row.now) }
{
    push_many(out, row.cells.as_slice())?;
    row.geometry.push_to(out)?;
    Ok(())
}
