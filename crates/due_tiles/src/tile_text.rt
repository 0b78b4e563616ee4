//! The text of the tiles that are due.
ghost use Rattle.std.specs.Prelude.{◌≡◌, ◌++◌, IfErr, IfOk, OnErr, OnOk, flat_map};
ghost use Rattle.std.specs.Fmt.{decimal};
ghost use Rattle.std.specs.Io.KnownBytes.{Appends};
ghost use Rattle.std.specs.List.{AllByRecursion};
ghost use Rattle.outside.specs.Bytes.{AppendsPrefix};
ghost use Rattle.outside.specs.Causes.{HasCause, Rose};
ghost use Rattle.tile_cover.specs.Runs.{IsRun};
ghost use Rattle.due_tiles.specs.Ends.{Ends};
ghost use Rattle.due_tiles.specs.TileText.{line_of, tile_line, tile_text, zoom_text};

use crate::TilesFault;
use crate::levels::TileLevels;
use crate::tile_numbers::listed;
use crate::zoom::{Zoom, side_of};
use osm_base::OutOfMemory;
use outside::Sink;
use std::alloc::Global;
use tile_cover::{MAX_ZOOM, Run, TileRuns};

/// Writes a line for each tile of a set and each tile above one, from a least zoom on, by zoom, column
/// and row. After a fault the output has taken some front of the text.
/// For callers outside: the program does not use it.
pub fn write_tiles<S: Sink>(
    alloc: Global,
    runs: &TileRuns,
    least: u32,
    out: &mut S,
) -> Result<(), TilesFault>
    ensures ok { OnOk result (Appends (S.view out.old).taken (S.view out.new).taken (tile_text runs.now least)) }
    ensures err { OnErr result (AppendsPrefix (S.view out.old).taken (S.view out.new).taken (tile_text runs.now least)) }
    ensures cause { IfErr result (Ends (Rose (S.view out.old).faults (S.view out.new).faults)) }
{
    let levels = TileLevels::of(alloc, runs, least)?;
    match levels.write(out) {
        Ok(()) => Ok(()),
        Err(_) => Err(TilesFault::WriteFault),
    }
}

/// The text that `write_tiles` writes.
pub fn tiles_text(alloc: Global, runs: &TileRuns, least: u32) -> Result<Vec<u8>, OutOfMemory>
    ensures text { IfOk result (λ text. text.items ≡ tile_text runs.now least) }
{
    Ok(tile_lines(alloc, runs.as_slice(), least)?)
}

/// The text of these runs.
fn tile_lines(alloc: Global, runs: &[Run], least: u32) -> Result<Vec<u8>, OutOfMemory>
    requires runs { AllByRecursion IsRun runs.now }
    ensures text { IfOk result (λ text. text.items ≡ tile_text runs.now least) }
{
    let mut text = Vec::new(alloc);
    for level in least..MAX_ZOOM + 1 {
        push_zoom(alloc, runs, Zoom { level }, &mut text)?;
    }
    Ok(text)
}

/// Adds the lines of a zoom.
fn push_zoom(alloc: Global, runs: &[Run], zoom: Zoom, text: &mut Vec<u8>) -> Result<(), OutOfMemory>
    requires runs { AllByRecursion IsRun runs.now }
    ensures ok { OnOk result (text.new.items ≡ text.old.items ++ zoom_text runs.now zoom.level) }
{
    let numbers = listed(alloc, runs, zoom)?;
    push_lines(zoom, numbers.as_slice(), text)?;
    Ok(())
}

/// Adds the lines of the tiles with these numbers.
fn push_lines(zoom: Zoom, numbers: &[u64], text: &mut Vec<u8>) -> Result<(), OutOfMemory>
    ensures ok { OnOk result (text.new.items ≡ text.old.items ++ flat_map (line_of zoom.level) numbers.now) }
{
    for &number in numbers {
        push_line(zoom, number, text)?;
    }
    Ok(())
}

/// Adds the line of the tile with this number.
fn push_line(zoom: Zoom, number: u64, text: &mut Vec<u8>) -> Result<(), OutOfMemory>
    ensures ok { OnOk result (text.new.items ≡ text.old.items ++ line_of zoom.level number) }
{
    let side = side_of(zoom);
    push_tile(zoom.level, number / side, number % side, text)
}

/// Adds the line of a tile.
fn push_tile(zoom: u32, x: u64, y: u64, text: &mut Vec<u8>) -> Result<(), OutOfMemory>
    ensures ok { OnOk result (text.new.items ≡ text.old.items ++ tile_line zoom x y) }
{
    push_decimal(u64::from(zoom), text)?;
    text.extend_from_slice(b"/")?;
    push_decimal(x, text)?;
    text.extend_from_slice(b"/")?;
    push_decimal(y, text)?;
    text.extend_from_slice(b"\n")?;
    Ok(())
}

/// Adds the digits of a number.
fn push_decimal(number: u64, text: &mut Vec<u8>) -> Result<(), OutOfMemory>
    ensures ok { OnOk result (text.new.items ≡ text.old.items ++ decimal number) }
{
    let mut buffer = itoa::Buffer::new();
    text.extend_from_slice(buffer.format(number).as_bytes())?;
    Ok(())
}
