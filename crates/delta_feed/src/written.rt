//! The lines of blocks as they are written.
ghost use Rattle.std.specs.Prelude.{◌≡◌, ◌++◌, [], codes, decimal, length, map, take, drop, OnOk};
ghost use Rattle.std.specs.Option.{option_copied};
ghost use Rattle.hex.specs.Hex.{encode_lower};
ghost use Rattle.delta_feed.specs.Text.{delta_line, del_line, ended_line, full_line, joined_words, kind_letter, lines_behind, more_line, more_lines, row_lines, set_line, set_lines, spot_words, style_line, style_lines, ended_lines};

use crate::LINE_BYTES;
use crate::hexes::push_hex;
use osm_base::{Kind, OutOfMemory, Row, Spot};
use std::alloc::Global;
use value_bytes::row_bytes;

/// Appends the line that begins whole tables.
#[tactic(auto, unfolding(crate::specs::Text::full_line))]
pub(crate) fn push_full(out: &mut Vec<u8>, version: u64) -> Result<(), OutOfMemory>
    ensures line { OnOk result (out.new.items ≡ out.old.items ++ ended_line (full_line version)) }
{
    out.extend_from_slice(b"full ")?;
    push_number(out, version)?;
    out.extend_from_slice(b"\n")?;
    Ok(())
}

/// Appends the line that begins a difference.
#[tactic(auto, unfolding(crate::specs::Text::delta_line))]
pub(crate) fn push_delta(out: &mut Vec<u8>, version: u64) -> Result<(), OutOfMemory>
    ensures line { OnOk result (out.new.items ≡ out.old.items ++ ended_line (delta_line version)) }
{
    out.extend_from_slice(b"delta ")?;
    push_number(out, version)?;
    out.extend_from_slice(b"\n")?;
    Ok(())
}

/// Appends the line that ends a block.
pub(crate) fn push_end(out: &mut Vec<u8>) -> Result<(), OutOfMemory>
    ensures line { OnOk result (out.new.items ≡ out.old.items ++ ended_line (codes "end")) }
{
    out.extend_from_slice(b"end\n")?;
    Ok(())
}

/// Appends the lines of a style.
pub(crate) fn push_style(out: &mut Vec<u8>, bytes: &[u8]) -> Result<(), OutOfMemory>
    ensures lines { OnOk result (out.new.items ≡ out.old.items ++ ended_lines (style_lines bytes.now)) }
{
    let (front, behind) = cut(bytes);
    push_style_line(out, front)?;
    push_more(out, behind)?;
    Ok(())
}

/// Appends the lines of what stands at a spot.
pub(crate) fn push_row(
    alloc: Global,
    out: &mut Vec<u8>,
    spot: Spot,
    row: Option<&Row>,
) -> Result<(), OutOfMemory>
    ensures lines { OnOk result (out.new.items ≡ out.old.items ++ ended_lines (row_lines spot (option_copied row.entry))) }
{
    match row {
        None => push_del(out, spot),
        Some(row) => {
            let bytes = row_bytes(alloc, row)?;
            push_set(out, spot, bytes.as_slice())
        }
    }
}

/// Appends the line that takes the row of a spot away.
#[tactic(auto, unfolding(crate::specs::Text::del_line))]
fn push_del(out: &mut Vec<u8>, spot: Spot) -> Result<(), OutOfMemory>
    ensures line { OnOk result (out.new.items ≡ out.old.items ++ ended_line (del_line spot)) }
{
    out.extend_from_slice(b"del ")?;
    push_spot(out, spot)?;
    out.extend_from_slice(b"\n")?;
    Ok(())
}

/// Appends the lines that give a spot a row of these bytes.
fn push_set(out: &mut Vec<u8>, spot: Spot, bytes: &[u8]) -> Result<(), OutOfMemory>
    ensures lines { OnOk result (out.new.items ≡ out.old.items ++ ended_lines (set_lines spot bytes.now)) }
{
    let (front, behind) = cut(bytes);
    push_set_line(out, spot, front)?;
    push_more(out, behind)?;
    Ok(())
}

/// The bytes that a line has room for, and those behind them.
fn cut(bytes: &[u8]) -> (&[u8], &[u8])
    ensures front { result.0.now ≡ take LINE_BYTES bytes.now }
    ensures behind { result.1.now ≡ drop LINE_BYTES bytes.now }
{
    if bytes.len() <= LINE_BYTES {
        (bytes, &[])
    } else {
        bytes.split_at(LINE_BYTES)
    }
}

/// Appends the lines behind the first one of such bytes.
fn push_more(out: &mut Vec<u8>, bytes: &[u8]) -> Result<(), OutOfMemory>
    ensures lines { OnOk result (out.new.items ≡ out.old.items ++ ended_lines (more_lines (length bytes.now) bytes.now)) }
{
    let mut rest = bytes;
    while !rest.is_empty() {
        let (front, behind) = cut(rest);
        push_more_line(out, front)?;
        rest = behind;
    }
    Ok(())
}

/// Appends the first line of a style.
#[tactic(auto, unfolding(crate::specs::Text::style_line))]
fn push_style_line(out: &mut Vec<u8>, bytes: &[u8]) -> Result<(), OutOfMemory>
    ensures line { OnOk result (out.new.items ≡ out.old.items ++ ended_line (style_line bytes.now)) }
{
    out.extend_from_slice(b"style ")?;
    push_hex(out, bytes)?;
    out.extend_from_slice(b"\n")?;
    Ok(())
}

/// Appends a line whose bytes go on.
#[tactic(auto, unfolding(crate::specs::Text::more_line))]
fn push_more_line(out: &mut Vec<u8>, bytes: &[u8]) -> Result<(), OutOfMemory>
    ensures line { OnOk result (out.new.items ≡ out.old.items ++ ended_line (more_line bytes.now)) }
{
    out.extend_from_slice(b"more ")?;
    push_hex(out, bytes)?;
    out.extend_from_slice(b"\n")?;
    Ok(())
}

/// Appends the first line of a row.
#[tactic(auto, unfolding(crate::specs::Text::set_line))]
fn push_set_line(out: &mut Vec<u8>, spot: Spot, bytes: &[u8]) -> Result<(), OutOfMemory>
    ensures line { OnOk result (out.new.items ≡ out.old.items ++ ended_line (set_line spot bytes.now)) }
{
    out.extend_from_slice(b"set ")?;
    push_spot(out, spot)?;
    out.extend_from_slice(b" ")?;
    push_hex(out, bytes)?;
    out.extend_from_slice(b"\n")?;
    Ok(())
}

/// Appends the words of a spot.
fn push_spot(out: &mut Vec<u8>, spot: Spot) -> Result<(), OutOfMemory>
    ensures text { OnOk result (out.new.items ≡ out.old.items ++ joined_words (spot_words spot)) }
{
    push_number(out, u64::from(spot.table))?;
    out.extend_from_slice(b" ")?;
    out.extend_from_slice(kind_letter(spot.key.kind).as_bytes())?;
    out.extend_from_slice(b" ")?;
    push_number(out, spot.key.id)?;
    Ok(())
}

/// Appends a number.
fn push_number(out: &mut Vec<u8>, number: u64) -> Result<(), OutOfMemory>
    ensures text { OnOk result (out.new.items ≡ out.old.items ++ decimal number) }
{
    let mut buffer = itoa::Buffer::new();
    out.extend_from_slice(buffer.format(number).as_bytes())?;
    Ok(())
}

/// The letter of a kind.
fn kind_letter(kind: Kind) -> &'static str
    ensures letter { result.now ≡ kind_letter kind }
{
    match kind {
        Kind::Node => "n",
        Kind::Way => "w",
        Kind::Relation => "r",
    }
}
