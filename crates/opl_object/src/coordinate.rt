//! Longitudes and latitudes.
ghost use Rattle.std.specs.Prelude.{◌≡◌, ◌≤◌, ◌<◌, ◌+◌, ◌++◌, ◌≤ℤ◌, pos, neg_ℤ, IsTrue, IfOk, if◌then◌else◌, min, length, nat_le, slice_index};
ghost use Rattle.std.specs.Option.{option_map};
ghost use Rattle.std.specs.Char.{is_ascii_digit};
ghost use Rattle.std.specs.List.{list_all};
ghost use Rattle.std.specs.Str.Parse.{digits_value_after};
ghost use Rattle.opl_object.specs.Coordinate.{is_decimal, seven, units, decimals_of, coordinate};

use crate::Why;
use crate::ascii::{DIGIT_0, DIGIT_5, POINT};
use crate::fields::cut_bytes;
use crate::number::{are_digits, signed};

/// The greatest number of digits of a coordinate.
const MOST_DIGITS: usize = 20;

/// Decimals that count.
const DECIMALS: usize = 7;

/// The decimals that do not stand there.
const ZEROS: [u8; 7] = *b"0000000";

/// More units than any coordinate has: a greater number is told as this one.
const CAP: u64 = 10_000_000_000;

/// The coordinate in units of 1e-7 degree, no further from zero than `greatest`.
#[tactic(auto, unfolding(crate::specs::Coordinate::coordinate))]
pub fn coordinate(greatest: u32, text: &[u8]) -> Result<i32, Why>
    requires { greatest ≤ 1800000000 }
    ensures value { result ≡ coordinate greatest text.now }
    ensures east { IfOk result (λ value. value ≤ℤ pos greatest) }
    ensures west { IfOk result (λ value. neg_ℤ (pos greatest) ≤ℤ value) }
{
    let (minus, size) = signed(text);
    let (whole, decimals) = cut_bytes(size, POINT);
    if !is_decimal(whole, decimals) {
        return Err(Why::Number);
    }
    let units = units(whole, digits_of(decimals));
    if u64::from(greatest) < units {
        return Err(Why::Range);
    }
    Ok(with_sign(minus, units))
}

/// The decimals, where there are some.
fn digits_of(decimals: Option<&[u8]>) -> &[u8]
    ensures value { result.now ≡ decimals_of (option_map (λ decimals. decimals.now) decimals.entry) }
{
    match decimals {
        Some(decimals) => decimals,
        None => &[],
    }
}

/// The number or, behind a minus, its negative.
pub(crate) fn with_sign(minus: bool, size: u64) -> i32
    requires { size ≤ 1800000000 }
    ensures value { result ≡ (if minus then neg_ℤ (pos size) else pos size) }
{
    let size = size as i32;
    if minus { -size } else { size }
}

/// Whether these are the digits of a coordinate, before its point and after it.
fn is_decimal(whole: &[u8], decimals: Option<&[u8]>) -> bool
    ensures value { result ≡ is_decimal (whole.now, option_map (λ decimals. decimals.now) decimals.entry) }
{
    match decimals {
        None => are_digits(whole, MOST_DIGITS),
        Some(decimals) => {
            are_digits(whole, MOST_DIGITS)
                && are_digits(decimals, MOST_DIGITS)
                && whole.len() + decimals.len() <= MOST_DIGITS
        }
    }
}

/// The units of 1e-7 degree of these digits; a number from `CAP` on may be another such one.
fn units(whole: &[u8], decimals: &[u8]) -> u64
    requires whole { IsTrue (list_all is_ascii_digit whole.now) }
    requires decimals { IsTrue (list_all is_ascii_digit decimals.now) }
    ensures capped { min result CAP ≡ min (units whole.now decimals.now) CAP }
{
    let shown = decimals.len().min(DECIMALS);
    let value = value_after(0, whole);
    let value = value_after(value, &decimals[..shown]);
    let value = value_after(value, &ZEROS[..DECIMALS - shown]);
    if rounds_up(decimals) {
        value + 1
    } else {
        value
    }
}

/// Whether the first decimal that does not count is 5 or more.
fn rounds_up(decimals: &[u8]) -> bool
    ensures value { result ≡ nat_le DIGIT_5 (slice_index decimals.now 7) }
{
    DECIMALS < decimals.len() && DIGIT_5 <= decimals[DECIMALS]
}

/// The number that digits write behind those of a number, or `CAP` where it is greater.
fn value_after(front: u64, digits: &[u8]) -> u64
    requires front { front ≤ CAP }
    requires digits { IsTrue (list_all is_ascii_digit digits.now) }
    ensures value { result ≡ min (digits_value_after 10 front digits.now) CAP }
{
    let mut value = front;
    for &digit in digits {
        value = (value * 10 + u64::from(digit - DIGIT_0)).min(CAP);
    }
    value
}
