//! Values at the front of a text in the form that files mostly have: one pass tests them and finds where they end.
ghost use Rattle.std.specs.Prelude.{◌≡◌, ◌≤◌, ◌<◌, ◌^◌, ◌-◌, ◌+◌, ◌≤ℤ◌, pos, neg_ℤ, [], ◌∷◌, IsTrue, IfSome, if◌then◌else◌, length, take};
ghost use Rattle.std.specs.List.{position_or_len};
ghost use Rattle.std.specs.Str.Parse.{digits_value_after};
ghost use Rattle.opl_object.specs.Fields.{IsValueEnd, is_blank};
ghost use Rattle.opl_object.specs.Nodes.{digits_len};
ghost use Rattle.opl_object.specs.Number.{is_whole, is_time};
ghost use Rattle.opl_object.specs.Spelling.{SpellsUnits, SpellsCoordinate};
ghost use Rattle.opl_object.specs.Text.{is_plain, is_reserved};

use crate::ascii::{CAPITAL_V, POINT};
use crate::coordinate::with_sign;
use crate::fields::{digits_len, ends_at};
use crate::lanes::{LANES, bare_run, digits_run};
use crate::number::{SMALL, TIME_FORM, WHOLE_DIGITS, all_formed, few_digits, signed, small_number};
use crate::text::is_reserved;

/// What a number is to be multiplied with to be one of 1e-7 degree, by its decimals.
const SCALES: [u64; 8] = [10_000_000, 1_000_000, 100_000, 10_000, 1_000, 100, 10, 1];

/// The greatest number of digits before the point.
const WHOLE: usize = 3;

/// The greatest number of decimals.
const DECIMALS: usize = 7;

/// Where a whole number without a sign ends.
pub(crate) fn number_end(text: &[u8]) -> Option<usize>
    ensures end { IfSome result (IsValueEnd (λ value. IsTrue (is_whole value)) text.now) }
{
    let end = digits_len(text);
    if end < 1 || WHOLE_DIGITS < end {
        return None;
    }
    if !ends_at(text, end) {
        return None;
    }
    Some(end)
}

/// Where a time ends.
pub(crate) fn time_end(text: &[u8]) -> Option<usize>
    ensures end { IfSome result (IsValueEnd (λ value. IsTrue (is_time value)) text.now) }
{
    let end = TIME_FORM.len();
    if text.len() < end || !all_formed(&text[..end]) {
        return None;
    }
    if !ends_at(text, end) {
        return None;
    }
    Some(end)
}

/// Where a `V` ends.
pub(crate) fn there_end(text: &[u8]) -> Option<usize>
    ensures end { IfSome result (IsValueEnd (λ value. value ≡ CAPITAL_V ∷ []) text.now) }
{
    if text.is_empty() || text[0] != CAPITAL_V || !ends_at(text, 1) {
        return None;
    }
    Some(1)
}

/// Where a text without escapes ends.
pub(crate) fn plain_end(text: &[u8]) -> Option<usize>
    ensures end { IfSome result (IsValueEnd (λ value. IsTrue (is_plain value)) text.now) }
{
    let end = plain_len(text);
    if !ends_at(text, end) {
        return None;
    }
    Some(end)
}

/// How many bytes at the front may stand in a text as they are.
pub(crate) fn plain_len(text: &[u8]) -> usize
    ensures len { result ≡ position_or_len is_reserved text.now }
{
    for place in bare_run(text)..text.len() {
        if is_reserved(text[place]) {
            return place;
        }
    }
    text.len()
}

/// A coordinate no further from zero than `greatest`, and where it ends.
pub(crate) fn usual_coordinate(greatest: u32, text: &[u8]) -> Option<(i32, usize)>
    requires { greatest ≤ 1800000000 }
    ensures end { IfSome result (λ (_, end). end ≡ position_or_len is_blank text.now) }
    ensures spelled { IfSome result (λ (value, end). SpellsCoordinate greatest (take end text.now) value) }
    ensures east { IfSome result (λ (value, _). value ≤ℤ pos greatest) }
    ensures west { IfSome result (λ (value, _). neg_ℤ (pos greatest) ≤ℤ value) }
{
    let (minus, size) = signed(text);
    let (units, len) = usual_units(size)?;
    if u64::from(greatest) < units {
        return None;
    }
    if !ends_at(size, len) {
        return None;
    }
    Some((with_sign(minus, units), signed_len(minus, len)))
}

/// The length of so many digits behind a minus, or without one.
fn signed_len(minus: bool, len: usize) -> usize
    requires { len < 100 }
    ensures len { result ≡ (if minus then len + 1 else len) }
{
    if minus { len + 1 } else { len }
}

/// The units of 1e-7 degree of digits and decimals, and how many bytes these are.
fn usual_units(text: &[u8]) -> Option<(u64, usize)>
    ensures spelled { IfSome result (λ (units, len). SpellsUnits (take len text.now) units) }
    ensures within { IfSome result (λ (_, len). len ≤ length text.now) }
    ensures few { IfSome result (λ (_, len). len < 100) }
{
    let (whole, len) = small_number(0, text)?;
    if len < 1 || WHOLE < len {
        return None;
    }
    let Some(decimals) = behind_point(&text[len..]) else {
        return Some((whole * scale(0), len));
    };
    let (value, count) = decimals_behind(whole, decimals)?;
    if count < 1 || DECIMALS < count {
        return None;
    }
    Some((value * scale(count), len + 1 + count))
}

/// The number that the decimals in front write behind those of a number, and how many they are. `None`: it is not small.
fn decimals_behind(whole: u64, text: &[u8]) -> Option<(u64, usize)>
    requires { whole ≤ SMALL }
    ensures len { IfSome result (λ (_, len). len ≡ digits_len text.now) }
    ensures value { IfSome result (λ (value, len). value ≡ digits_value_after 10 whole (take len text.now)) }
    ensures small { IfSome result (λ (value, _). value ≤ SMALL) }
{
    // Most files have all seven.
    if text.len() < LANES || digits_run(text) != DECIMALS {
        return small_number(whole, text);
    }
    let value = few_digits(whole, &text[..DECIMALS]);
    if SMALL < value {
        return None;
    }
    Some((value, DECIMALS))
}

/// What stands behind a point, where one stands in front.
fn behind_point(text: &[u8]) -> Option<&[u8]>
    ensures point { IfSome result (λ rest. text.now ≡ POINT ∷ rest.now) }
{
    match text {
        [b'.', rest @ ..] => Some(rest),
        _ => None,
    }
}

/// What a number of so many decimals is to be multiplied with.
fn scale(decimals: usize) -> u64
    requires { decimals ≤ 7 }
    ensures scale { result ≡ 10 ^ (7 - decimals) }
    ensures small { result ≤ 10000000 }
{
    SCALES[decimals]
}
