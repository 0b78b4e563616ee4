//! The tiles that are listed, zoom by zoom, and how they are written.
ghost use Rattle.std.specs.Prelude.{◌≡◌, ◌++◌, flat_map, IfOk, OnErr, OnOk};
ghost use Rattle.std.specs.Fmt.{decimal};
ghost use Rattle.std.specs.Io.KnownBytes.{Appends};
ghost use Rattle.std.specs.List.{AllByRecursion};
ghost use Rattle.outside.specs.Bytes.{AppendsPrefix};
ghost use Rattle.outside.specs.Causes.{HasCause};
ghost use Rattle.tile_cover.specs.Runs.{IsRun};
ghost use Rattle.due_tiles.specs.Levels.{level_text, levels_text};
ghost use Rattle.due_tiles.specs.Piece.{Puts};
ghost use Rattle.due_tiles.specs.TileText.{line_of, tile_line, tile_text, zoom_text};

use crate::piece::Piece;
use crate::tile_numbers::listed;
use crate::zoom::{Zoom, side_of};
use object_fold::RisingIds;
use osm_base::OutOfMemory;
use outside::{Failed, Sink};
use std::alloc::Global;
use std::marker::Model;
use tile_cover::{MAX_ZOOM, Run, TileRuns};

/// The tiles of a zoom that are listed, by their numbers.
#[derive(Drop)]
pub struct Level {
    zoom: Zoom,
    numbers: RisingIds,
}

/// The tiles of a set and those above them, from a least zoom on. Contracts see the text that `write` writes.
#[derive(Drop)]
pub struct TileLevels {
    levels: Vec<Level>,
}

impl Model for TileLevels {
    ghost use Rattle.std.specs.Prelude.{List, ℕ};
    ghost use Rattle.std.specs.Coded.{coded_list, coded_ℕ};
    ghost use Rattle.due_tiles.specs.Levels.{levels_text};

    ghost Value = { List ℕ };

    ghost coded = { coded_list coded_ℕ };

    ghost view = { λ own. levels_text own.levels.items };
}

impl TileLevels {
    /// Those of a set: what takes memory of its writing, some 8 bytes a tile.
    pub fn of(alloc: Global, runs: &TileRuns, least: u32) -> Result<Self, OutOfMemory>
        ensures text { IfOk result (λ levels. levels ≡ tile_text runs.now least) }
    {
        let levels = levels_of(alloc, runs.as_slice(), least)?;
        Ok(Self { levels })
    }

    /// Writes a line for each tile, by zoom, column and row. It takes no memory.
    pub fn write<S: Sink>(&self, out: &mut S) -> Result<(), Failed>
        ensures ok { OnOk result (Appends (S.view out.old).taken (S.view out.new).taken self.now) }
        ensures err { OnErr result (AppendsPrefix (S.view out.old).taken (S.view out.new).taken self.now) }
        ensures cause { HasCause (S.view out.old).faults (S.view out.new).faults result }
    {
        let mut piece = Piece::new();
        put_levels(&self.levels, &mut piece, out)?;
        piece.flush(out)
    }
}

/// The tiles of each zoom that are listed.
fn levels_of(alloc: Global, runs: &[Run], least: u32) -> Result<Vec<Level>, OutOfMemory>
    requires runs { AllByRecursion IsRun runs.now }
    ensures text { IfOk result (λ levels. levels_text levels.items ≡ tile_text runs.now least) }
{
    let mut levels = Vec::new(alloc);
    for level in least..MAX_ZOOM + 1 {
        levels.push(level_of(alloc, runs, Zoom { level })?)?;
    }
    Ok(levels)
}

/// The tiles of a zoom that are listed.
fn level_of(alloc: Global, runs: &[Run], zoom: Zoom) -> Result<Level, OutOfMemory>
    requires runs { AllByRecursion IsRun runs.now }
    ensures text { IfOk result (λ level. level_text level ≡ zoom_text runs.now zoom.level) }
{
    let numbers = listed(alloc, runs, zoom)?;
    Ok(Level { zoom, numbers })
}

/// Holds back the lines of each zoom.
fn put_levels<S: Sink>(levels: &[Level], piece: &mut Piece, out: &mut S) -> Result<(), Failed>
    ensures ok { OnOk result (Puts (S.view out.old).taken (S.view out.new).taken piece.old piece.new (levels_text levels.now)) }
    ensures err { OnErr result (AppendsPrefix (S.view out.old).taken (S.view out.new).taken (piece.old ++ levels_text levels.now)) }
    ensures cause { HasCause (S.view out.old).faults (S.view out.new).faults result }
{
    for level in levels {
        put_level(level, piece, out)?;
    }
    Ok(())
}

/// Holds back the lines of a zoom.
fn put_level<S: Sink>(level: &Level, piece: &mut Piece, out: &mut S) -> Result<(), Failed>
    ensures ok { OnOk result (Puts (S.view out.old).taken (S.view out.new).taken piece.old piece.new (level_text level.now)) }
    ensures err { OnErr result (AppendsPrefix (S.view out.old).taken (S.view out.new).taken (piece.old ++ level_text level.now)) }
    ensures cause { HasCause (S.view out.old).faults (S.view out.new).faults result }
{
    put_lines(level.zoom, level.numbers.as_slice(), piece, out)
}

/// Holds back the lines of the tiles with these numbers.
fn put_lines<S: Sink>(
    zoom: Zoom,
    numbers: &[u64],
    piece: &mut Piece,
    out: &mut S,
) -> Result<(), Failed>
    ensures ok { OnOk result (Puts (S.view out.old).taken (S.view out.new).taken piece.old piece.new (flat_map (line_of zoom.level) numbers.now)) }
    ensures err { OnErr result (AppendsPrefix (S.view out.old).taken (S.view out.new).taken (piece.old ++ flat_map (line_of zoom.level) numbers.now)) }
    ensures cause { HasCause (S.view out.old).faults (S.view out.new).faults result }
{
    for &number in numbers {
        put_line(zoom, number, piece, out)?;
    }
    Ok(())
}

/// Holds back the line of the tile with this number.
fn put_line<S: Sink>(zoom: Zoom, number: u64, piece: &mut Piece, out: &mut S) -> Result<(), Failed>
    ensures ok { OnOk result (Puts (S.view out.old).taken (S.view out.new).taken piece.old piece.new (line_of zoom.level number)) }
    ensures err { OnErr result (AppendsPrefix (S.view out.old).taken (S.view out.new).taken (piece.old ++ line_of zoom.level number)) }
    ensures cause { HasCause (S.view out.old).faults (S.view out.new).faults result }
{
    let side = side_of(zoom);
    put_tile(zoom.level, number / side, number % side, piece, out)
}

/// Holds back the line of a tile.
fn put_tile<S: Sink>(
    zoom: u32,
    x: u64,
    y: u64,
    piece: &mut Piece,
    out: &mut S,
) -> Result<(), Failed>
    ensures ok { OnOk result (Puts (S.view out.old).taken (S.view out.new).taken piece.old piece.new (tile_line zoom x y)) }
    ensures err { OnErr result (AppendsPrefix (S.view out.old).taken (S.view out.new).taken (piece.old ++ tile_line zoom x y)) }
    ensures cause { HasCause (S.view out.old).faults (S.view out.new).faults result }
{
    put_number(u64::from(zoom), b"/", piece, out)?;
    put_number(x, b"/", piece, out)?;
    put_number(y, b"\n", piece, out)
}

/// Holds back the digits of a number, and bytes behind them.
fn put_number<S: Sink>(
    number: u64,
    behind: &[u8],
    piece: &mut Piece,
    out: &mut S,
) -> Result<(), Failed>
    ensures ok { OnOk result (Puts (S.view out.old).taken (S.view out.new).taken piece.old piece.new (decimal number ++ behind.now)) }
    ensures err { OnErr result (AppendsPrefix (S.view out.old).taken (S.view out.new).taken (piece.old ++ (decimal number ++ behind.now))) }
    ensures cause { HasCause (S.view out.old).faults (S.view out.new).faults result }
{
    let mut buffer = itoa::Buffer::new();
    piece.put(out, buffer.format(number).as_bytes())?;
    piece.put(out, behind)
}
