//! A line of a table of boundaries.
ghost use Rattle.std.specs.Prelude.{◌≡◌, ◌<◌, ◌≤◌, ◌∷◌, ◌==◌, pos, neg_ℤ, ◌≤ℤ◌, ◌<ℤ◌, length, drop, slice_index, if◌then◌else◌, IfSome};
ghost use Rattle.opl_lines.specs.Lines.{lines_of};
ghost use Rattle.opl_lines.specs.Steps.{IsFront};
ghost use Rattle.tile_cover.specs.Boundaries.{is_south, lat_of_line, size_from, size_of};
ghost use Rattle.tile_cover.specs.Table.{IsLatitude};

use memchr::memchr;
use opl_lines::NEWLINE;

/// The byte in front of a southern latitude.
pub const MINUS: u8 = b'-';

/// The most digits of a latitude.
pub const MOST_DIGITS: usize = 10;

/// The greatest latitude, and the least one without its minus.
pub const MOST_UNITS: u64 = 900_000_000;

/// The bytes before the first newline, and whether there is one.
fn up_to_newline(bytes: &[u8]) -> (&[u8], bool)
    ensures front { IsFront bytes.now result.0.now result.1 }
{
    match memchr(NEWLINE, bytes) {
        Some(end) => (&bytes[..end], true),
        None => (bytes, false),
    }
}

/// The first line of bytes, and what is behind its newline.
pub(crate) fn first_line(bytes: &[u8]) -> (&[u8], &[u8])
    requires { 0 < length bytes.now }
    ensures lines { lines_of bytes.now ≡ result.0.now ∷ lines_of result.1.now }
    ensures shorter { length result.1.now < length bytes.now }
{
    let (line, is_whole) = up_to_newline(bytes);
    if is_whole && line.len() < bytes.len() {
        let (_, rest) = bytes.split_at(line.len() + 1);
        return (line, rest);
    }
    (line, &[])
}

/// The number that digits write.
fn size_of(digits: &[u8]) -> Option<u64>
    ensures size { result ≡ size_of digits.now }
    ensures most { IfSome result (λ size. size ≤ 900000000) }
{
    if digits.len() < 1 || MOST_DIGITS < digits.len() {
        return None;
    }
    let mut size = 0u64;
    for digit in digits {
        let digit = *digit;
        if !digit.is_ascii_digit() {
            return None;
        }
        size = size * 10 + u64::from(digit - b'0');
        if MOST_UNITS < size {
            return None;
        }
    }
    Some(size)
}

/// The number, or its negative.
fn with_sign(minus: bool, size: u64) -> i32
    requires { size ≤ 900000000 }
    ensures lat { result ≡ (if minus then neg_ℤ (pos size) else pos size) }
    ensures latitude { IsLatitude result }
{
    let size = size as i32;
    if minus { -size } else { size }
}

/// Whether a minus stands in front, and what stands behind it.
fn signed(line: &[u8]) -> (bool, &[u8])
    ensures sign { result.0 ≡ (slice_index line.now 0 == MINUS) }
    ensures rest { result.1.now ≡ (if (slice_index line.now 0 == MINUS) then drop 1 line.now else line.now) }
{
    match line {
        [b'-', rest @ ..] => (true, rest),
        _ => (false, line),
    }
}

/// The latitude of a line.
fn lat_of(line: &[u8]) -> Option<i32>
    ensures lat { result ≡ lat_of_line line.now }
    ensures latitude { IfSome result IsLatitude }
{
    let (minus, digits) = signed(line);
    let size = size_of(digits)?;
    Some(with_sign(minus, size))
}

/// The latitude of a line, where it is south of another one.
pub(crate) fn lat_south_of(before: i32, line: &[u8]) -> Option<i32>
    ensures lat { result ≡ is_south before (lat_of_line line.now) }
    ensures latitude { IfSome result IsLatitude }
    ensures south { IfSome result (λ lat. lat <ℤ before) }
{
    let lat = lat_of(line)?;
    if lat < before {
        return Some(lat);
    }
    None
}
