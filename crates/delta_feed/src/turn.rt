//! What a line makes of a block of which so much was read.
ghost use Rattle.std.specs.Prelude.{◌≡◌, ◌++◌, Some, IfOk, IfErr};
ghost use Rattle.std.specs.Option.{option_copied};
ghost use Rattle.delta_feed.specs.Stage.{is_next, no_rows, style_for, tables_of};
ghost use Rattle.delta_feed.specs.Turn.{Ends, IsNoRow, IsRowLine, IsRowMore, IsRowOf, IsSet, IsSetOn, IsTurn, held, opened, placed, style_line, style_more, styled};
ghost use Rattle.delta_feed.specs.Why.{Gives, IsRowFault, Shows};

use crate::block::{BlockBox, Head, RowsBox, Stage};
use crate::{FeedLine, FeedWhy, LineRefused};
use osm_base::{Bytes, Items, Row, Spot};
use std::alloc::Global;
use store_maps::columns_of;
use style_read::{Style, StyleFault, read_style};
use value_bytes::{ValueFault, read_row};

/// What a line made of a block.
#[derive(Drop)]
pub enum Turn {
    /// So much of it is read now.
    On(Stage),
    /// It is read to its end.
    Whole(BlockBox),
    /// A difference begins, and there is nothing that it differs from.
    NoBase,
}

/// What a line makes of so much of a block. `goes_on`: the next line carries its bytes on.
pub(crate) fn take_line(
    alloc: Global,
    base: Option<&Style>,
    stage: Stage,
    line: FeedLine,
    goes_on: bool,
) -> Result<Turn, LineRefused>
    ensures turn { Shows result (IsTurn (option_copied base.entry) stage line goes_on) }
{
    match stage {
        Stage::Between => open(alloc, base, line),
        Stage::Opened { version } => take_style(alloc, version, line, goes_on),
        Stage::Style { version, bytes } => take_more_style(alloc, version, bytes, line, goes_on),
        Stage::Rows(rows) => take_row(alloc, base, rows, line, goes_on),
        Stage::Row { rows, spot, bytes } => {
            take_more_row(alloc, base, rows, spot, bytes, line, goes_on)
        }
    }
}

/// The line that begins a block.
fn open(alloc: Global, base: Option<&Style>, line: FeedLine) -> Result<Turn, LineRefused>
    ensures turn { Gives result (opened (option_copied base.entry) line) }
{
    match line {
        FeedLine::Full(version) => Ok(Turn::On(Stage::Opened { version })),
        FeedLine::Delta(version) => differ(alloc, base, version),
        _ => Err(LineRefused::Bad(FeedWhy::Form)),
    }
}

/// A difference begins.
fn differ(alloc: Global, base: Option<&Style>, version: u64) -> Result<Turn, LineRefused>
    ensures turn { Gives result (opened (option_copied base.entry) (FeedLine.Delta version)) }
{
    match base {
        None => Ok(Turn::NoBase),
        Some(_) => rows_behind(alloc, Head::Delta { version }),
    }
}

/// Rows come behind the first lines of a block.
fn rows_behind(alloc: Global, head: Head) -> Result<Turn, LineRefused>
    ensures turn { IfOk result (λ turn. turn ≡ Turn.On (Stage.Rows (no_rows head))) }
    ensures memory { IfErr result (λ fault. fault ≡ LineRefused.OutOfMemory) }
{
    match RowsBox::new(alloc, head) {
        Ok(rows) => Ok(Turn::On(Stage::Rows(rows))),
        Err(_) => Err(LineRefused::OutOfMemory),
    }
}

/// The first line of a style.
fn take_style(
    alloc: Global,
    version: u64,
    line: FeedLine,
    goes_on: bool,
) -> Result<Turn, LineRefused>
    ensures turn { Gives result (style_line version line goes_on) }
{
    match line {
        FeedLine::Style(bytes) => style_so_far(alloc, version, bytes, goes_on),
        _ => Err(LineRefused::Bad(FeedWhy::Form)),
    }
}

/// A later line of a style.
fn take_more_style(
    alloc: Global,
    version: u64,
    bytes: Bytes,
    line: FeedLine,
    goes_on: bool,
) -> Result<Turn, LineRefused>
    ensures turn { Gives result (style_more version bytes line goes_on) }
{
    match line {
        FeedLine::More(more) => match joined_bytes(bytes, more.as_slice()) {
            Ok(all) => style_so_far(alloc, version, all, goes_on),
            Err(fault) => Err(fault),
        },
        _ => Err(LineRefused::Bad(FeedWhy::Form)),
    }
}

/// Bytes and then more of them.
fn joined_bytes(bytes: Bytes, more: &[u8]) -> Result<Bytes, LineRefused>
    ensures bytes { IfOk result (λ all. all ≡ bytes ++ more.now) }
    ensures memory { IfErr result (λ fault. fault ≡ LineRefused.OutOfMemory) }
{
    let mut all = bytes.into_vec();
    match all.extend_from_slice(more) {
        Ok(()) => Ok(Items::from_vec(all)),
        Err(_) => Err(LineRefused::OutOfMemory),
    }
}

/// So many bytes of a style.
fn style_so_far(
    alloc: Global,
    version: u64,
    bytes: Bytes,
    goes_on: bool,
) -> Result<Turn, LineRefused>
    ensures turn { Gives result (styled version bytes goes_on) }
{
    if goes_on {
        return Ok(Turn::On(Stage::Style { version, bytes }));
    }
    match read_style(alloc, bytes.as_slice()) {
        Ok(style) => rows_behind(
            alloc,
            Head::Full {
                version,
                style_bytes: bytes,
                style,
            },
        ),
        Err(StyleFault::Bad { .. }) => Err(LineRefused::Bad(FeedWhy::Row)),
        Err(StyleFault::OutOfMemory) => Err(LineRefused::OutOfMemory),
    }
}

/// A line among rows.
fn take_row(
    alloc: Global,
    base: Option<&Style>,
    rows: RowsBox,
    line: FeedLine,
    goes_on: bool,
) -> Result<Turn, LineRefused>
    ensures turn { Shows result (IsRowLine (tables_of (style_for rows.head (option_copied base.entry))) rows line goes_on) }
{
    match line {
        FeedLine::Set(spot, bytes) => set_row(alloc, base, rows, spot, bytes, goes_on),
        FeedLine::Del(spot) => place_row(rows, spot, None),
        FeedLine::End => Ok(Turn::Whole(rows.end())),
        _ => Err(LineRefused::Bad(FeedWhy::Form)),
    }
}

/// A later line of the bytes of a row.
fn take_more_row(
    alloc: Global,
    base: Option<&Style>,
    rows: RowsBox,
    spot: Spot,
    bytes: Bytes,
    line: FeedLine,
    goes_on: bool,
) -> Result<Turn, LineRefused>
    ensures turn { Shows result (IsRowMore (tables_of (style_for rows.head (option_copied base.entry))) rows spot bytes line goes_on) }
{
    match line {
        FeedLine::More(more) => match joined_bytes(bytes, more.as_slice()) {
            Ok(all) => set_row_on(alloc, base, rows, spot, all, goes_on),
            Err(fault) => Err(fault),
        },
        _ => Err(LineRefused::Bad(FeedWhy::Form)),
    }
}

/// A row is set by these bytes.
fn set_row(
    alloc: Global,
    base: Option<&Style>,
    rows: RowsBox,
    spot: Spot,
    bytes: Bytes,
    goes_on: bool,
) -> Result<Turn, LineRefused>
    ensures turn { Shows result (IsSet (tables_of (style_for rows.head (option_copied base.entry))) rows spot bytes goes_on) }
{
    if !goes_on {
        return end_row(alloc, base, rows, spot, bytes.as_slice());
    }
    hold_row(rows, spot, bytes)
}

/// The bytes of a row went on to be these.
fn set_row_on(
    alloc: Global,
    base: Option<&Style>,
    rows: RowsBox,
    spot: Spot,
    bytes: Bytes,
    goes_on: bool,
) -> Result<Turn, LineRefused>
    ensures turn { Shows result (IsSetOn (tables_of (style_for rows.head (option_copied base.entry))) rows spot bytes goes_on) }
{
    if !goes_on {
        return end_row(alloc, base, rows, spot, bytes.as_slice());
    }
    Ok(Turn::On(Stage::Row { rows, spot, bytes }))
}

/// The first bytes of a row, where its spot comes behind the one before it.
fn hold_row(rows: RowsBox, spot: Spot, bytes: Bytes) -> Result<Turn, LineRefused>
    ensures turn { Gives result (held rows spot bytes) }
{
    if comes_behind(rows.as_rows().last, spot) {
        Ok(Turn::On(Stage::Row { rows, spot, bytes }))
    } else {
        Err(LineRefused::Bad(FeedWhy::Order))
    }
}

/// The bytes of a row have ended.
fn end_row(
    alloc: Global,
    base: Option<&Style>,
    rows: RowsBox,
    spot: Spot,
    bytes: &[u8],
) -> Result<Turn, LineRefused>
    ensures turn { Shows result (Ends (tables_of (style_for rows.head (option_copied base.entry))) rows spot bytes.now) }
{
    match row_for(alloc, base, &rows.as_rows().head, spot.table, bytes) {
        Ok(row) => place_row(rows, spot, Some(row)),
        Err(fault) => Err(fault),
    }
}

/// A row, or none, where its spot comes behind the one before it.
fn place_row(mut rows: RowsBox, spot: Spot, row: Option<Row>) -> Result<Turn, LineRefused>
    ensures turn { Gives result (placed rows spot row) }
{
    if !comes_behind(rows.as_rows().last, spot) {
        return Err(LineRefused::Bad(FeedWhy::Order));
    }
    match rows.put(spot, row) {
        Ok(()) => Ok(Turn::On(Stage::Rows(rows))),
        Err(_) => Err(LineRefused::OutOfMemory),
    }
}

/// Whether a spot comes behind the one before it.
fn comes_behind(last: Option<Spot>, spot: Spot) -> bool
    ensures value { result ≡ is_next last spot }
{
    match last {
        None => true,
        Some(last) => last < spot,
    }
}

/// The row of a table with these bytes, in the style of a block.
fn row_for(
    alloc: Global,
    base: Option<&Style>,
    head: &Head,
    table: u32,
    bytes: &[u8],
) -> Result<Row, LineRefused>
    ensures row { IfOk result (IsRowOf (tables_of (style_for head.now (option_copied base.entry))) table bytes.now) }
    ensures refused { IfErr result (IsRowFault (IsNoRow (tables_of (style_for head.now (option_copied base.entry))) table bytes.now)) }
{
    match head {
        Head::Full { style, .. } => parsed_row(alloc, style, table, bytes),
        Head::Delta { .. } => match base {
            Some(style) => parsed_row(alloc, style, table, bytes),
            None => Err(LineRefused::Bad(FeedWhy::Row)),
        },
    }
}

/// The row of a table with these bytes.
fn parsed_row(alloc: Global, style: &Style, table: u32, bytes: &[u8]) -> Result<Row, LineRefused>
    ensures row { IfOk result (IsRowOf style.now.tables table bytes.now) }
    ensures refused { IfErr result (IsRowFault (IsNoRow style.now.tables table bytes.now)) }
{
    let tables = style.tables.as_slice();
    if tables.len() <= table as usize {
        return Err(LineRefused::Bad(FeedWhy::Row));
    }
    match read_row(alloc, columns_of(tables, table as usize), bytes) {
        Ok(row) => Ok(row),
        Err(ValueFault::NotSpelled) => Err(LineRefused::Bad(FeedWhy::Row)),
        Err(ValueFault::OutOfMemory) => Err(LineRefused::OutOfMemory),
    }
}
