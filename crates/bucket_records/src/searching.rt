//! Looking for a key, or a number, among records.
ghost use Rattle.std.specs.Prelude.{◌≡◌, ◌+◌, ◌^◌, ◌<◌, ◌≤◌, ℕ, length, drop};
ghost use Rattle.bucket_records.specs.Places.{key_of, IsPlaceOf};
ghost use Rattle.bucket_records.specs.Records.{records_bytes};

use crate::index::SPAN;
use crate::records::Records;

/// The bytes from the record of this number on.
pub fn rest_from(records: &Records, place: usize) -> &[u8]
    requires { place ≤ length records.now }
    ensures { result.now ≡ records_bytes (drop place records.now) }
{
    let (mut at, mut rest) = records.at_mark(place / SPAN);
    while at < place {
        let (_, _, behind) = records.front(at, rest);
        rest = behind;
        at += 1;
    }
    rest
}

/// How many of the records have keys below this one, and the bytes behind them.
pub fn seek(records: &Records, key: u64) -> (usize, &[u8])
    ensures place { IsPlaceOf records.now key result.0 }
    ensures rest { result.1.now ≡ records_bytes (drop result.0 records.now) }
{
    let (mut place, mut rest) = near(records, key);
    while place < records.len() {
        let (own, _, behind) = records.front(place, rest);
        if own >= key {
            return (place, rest);
        }
        rest = behind;
        place += 1;
    }
    (place, rest)
}

/// How many of the records have keys below this one.
pub fn place_of(records: &Records, key: u64) -> usize
    ensures { IsPlaceOf records.now key result }
{
    let (place, _) = seek(records, key);
    place
}

// A number of records at a mark that have keys below this one, and the bytes behind them.
fn near(records: &Records, key: u64) -> (usize, &[u8])
    ensures within { result.0 ≤ length records.now }
    ensures below { (k : ℕ) → k < result.0 → key_of records.now k < key }
    ensures rest { result.1.now ≡ records_bytes (drop result.0 records.now) }
{
    let (mut place, mut rest) = records.at_mark(0);
    let guess = records.marks_below(key);
    let mut turn: u8 = 0;
    let mut low = 0;
    let mut high = records.marks();
    while low < high {
        let middle = next_mark(low, high, guess, turn);
        turn = turn.saturating_add(1);
        let (at, behind) = records.at_mark(middle + 1);
        let (own, _, _) = records.front(at, behind);
        if own < key {
            low = middle + 1;
            place = at;
            rest = behind;
        } else {
            high = middle;
        }
    }
    (place, rest)
}

// Which mark between two ends is looked at next: those on both sides of where the key would stand if keys rose evenly, and then
// the middle one, so that no keys make a search long.
fn next_mark(low: usize, high: usize, guess: usize, turn: u8) -> usize
    requires { low < high }
    ensures low { low ≤ result }
    ensures high { result < high }
    ensures room { result + 1 < 2 ^ 64 }
{
    match turn {
        0 => guess.saturating_sub(1).max(low).min(high - 1),
        1 => guess.max(low).min(high - 1),
        _ => low + (high - low) / 2,
    }
}
