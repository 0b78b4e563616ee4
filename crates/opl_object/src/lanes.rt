//! Which bytes at the front of a text are of a class, where sixteen are tested at once.
ghost use Rattle.std.specs.Prelude.{◌≡◌, ◌≤◌, true, length, IsTrue};
ghost use Rattle.std.specs.Char.{is_ascii, is_ascii_digit};
ghost use Rattle.std.specs.List.{list_all, zip};
ghost use Rattle.opl_object.specs.Runs.{AreBare, IsRun, Passes, first_set, is_room, is_within};

use std::simd::prelude::*;

/// How many bytes are tested at once.
pub const LANES: usize = 16;

/// The place of the lowest bit that is set, or the number of lanes where none is.
#[inline(always)]
fn first_set(mask: u64) -> usize
    ensures place { result ≡ first_set mask }
{
    if mask == 0 {
        LANES
    } else {
        mask.trailing_zeros() as usize
    }
}

/// How many of the first sixteen bytes stand before the first that is no digit.
#[inline(always)]
pub(crate) fn digits_run(text: &[u8]) -> usize
    requires long { LANES ≤ length text.now }
    ensures run { IsRun is_ascii_digit text.now result }
{
    let lanes = u8x16::from_slice(text);
    let stops = (lanes - u8x16::splat(b'0')).simd_ge(u8x16::splat(10));
    first_set(stops.to_bitmask())
}

/// How many bytes at the front, sixteen at most, are surely none that is reserved. Behind them stands one that may be.
#[inline(always)]
pub(crate) fn bare_run(text: &[u8]) -> usize
    ensures within { result ≤ length text.now }
    ensures bare { AreBare text.now result }
{
    if text.len() < LANES {
        return 0;
    }
    let stops = u8x16::from_slice(text).simd_lt(u8x16::splat(b'A'));
    first_set(stops.to_bitmask())
}

/// Whether each of sixteen bytes is one from its least to so many behind that.
#[inline(always)]
pub(crate) fn all_within(text: &[u8], least: [u8; LANES], room: [u8; LANES]) -> bool
    requires long { length text.now ≡ LANES }
    requires room { list_all is_room (zip least room) ≡ true }
    ensures within { result ≡ list_all is_within (zip text.now (zip least room)) }
{
    let behind = u8x16::from_slice(text) - u8x16::from_array(least);
    let over = behind.simd_gt(u8x16::from_array(room));
    over.to_bitmask() == 0
}

/// Whether the first sixteen bytes are ASCII.
#[inline(always)]
pub(crate) fn begins_ascii(text: &[u8]) -> bool
    requires long { LANES ≤ length text.now }
    ensures ascii { IsTrue result → Passes is_ascii text.now LANES }
{
    u8x16::from_slice(text)
        .simd_ge(u8x16::splat(128))
        .to_bitmask()
        == 0
}
