//! Whole numbers, as the values of tags spell them.
ghost use Rattle.std.specs.Prelude.{◌≡◌, ◌<◌, FitsSigned, IfSome, IsTrue, option_map, neg_ℤ, pos};
ghost use mir.Syntax.{w64};
ghost use Rattle.std.specs.Char.{is_ascii_digit};
ghost use Rattle.std.specs.List.{list_all};
ghost use Rattle.std.specs.Str.Parse.{digits_value};
ghost use Rattle.row_rules.specs.Cell as spec;
ghost use Rattle.row_rules.specs.Cell.{are_digits, unsigned};

use row_rules::{MAX_DIGITS, MINUS};

/// The whole number that bytes spell. `None`: they are no optional minus and from one to `MAX_DIGITS` digits.
pub(crate) fn whole_number(text: &[u8]) -> Option<i64>
    ensures number { result ≡ spec.whole_number text.now }
    ensures fits { IfSome result (FitsSigned w64) }
{
    match text {
        [MINUS, digits @ ..] => negative(digits),
        _ => positive(text),
    }
}

/// The number below zero that digits spell behind a minus.
fn negative(digits: &[u8]) -> Option<i64>
    ensures number { result ≡ option_map (λ n. neg_ℤ (pos n)) (unsigned digits.now) }
    ensures fits { IfSome result (FitsSigned w64) }
{
    if !are_digits(digits) {
        return None;
    }
    Some(-(value_of(digits) as i64))
}

/// The number that digits spell.
fn positive(digits: &[u8]) -> Option<i64>
    ensures number { result ≡ option_map pos (unsigned digits.now) }
    ensures fits { IfSome result (FitsSigned w64) }
{
    if !are_digits(digits) {
        return None;
    }
    Some(value_of(digits) as i64)
}

/// Whether bytes are from one to `MAX_DIGITS` digits.
fn are_digits(text: &[u8]) -> bool
    ensures digits { result ≡ are_digits text.now }
{
    1 <= text.len() && text.len() <= MAX_DIGITS && all_digits(text)
}

/// Whether each byte is a digit.
fn all_digits(text: &[u8]) -> bool
    ensures digits { result ≡ list_all is_ascii_digit text.now }
{
    for &byte in text {
        if !byte.is_ascii_digit() {
            return false;
        }
    }
    true
}

/// The number that digits spell.
fn value_of(digits: &[u8]) -> u64
    requires digits { IsTrue (are_digits digits.now) }
    ensures value { result ≡ digits_value 10 digits.now }
    ensures small { result < 1000000000000000000 }
{
    let mut value = 0;
    for &digit in digits {
        value = value * 10 + u64::from(digit - b'0');
    }
    value
}
