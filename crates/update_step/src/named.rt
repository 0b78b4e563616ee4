//! What the entries of a change say of a key.
ghost use Rattle.std.specs.Prelude.{◌≡◌, ◌<◌, ◌≤◌, ℕ, false, length, IsTrue};
ghost use Rattle.std.specs.Option.{option_copied};
ghost use Rattle.std.specs.Ordering.{eq_by_cmp};
ghost use Rattle.osm_base.specs.map.Objects.{place_in};
ghost use Rattle.osm_base.specs.values.KeyOrder.{is_below, key_cmp, rank};
ghost use Rattle.object_fold.specs.Change.{IsChange};
ghost use Rattle.update_step.specs.Named.{key_in, key_named, named_in};

use osm_base::{Entry, Key, Kind, Object, Place};

/// The rank of a kind in a file.
fn rank_of(kind: Kind) -> u8
    ensures { result ≡ rank kind }
{
    match kind {
        Kind::Node => 0,
        Kind::Way => 1,
        Kind::Relation => 2,
    }
}

/// Whether a key is below that of this kind and id.
fn is_before(key: Key, kind: Kind, id: u64) -> bool
    ensures { result ≡ is_below key (key_named kind id) }
{
    let own = rank_of(key.kind);
    let other = rank_of(kind);
    own < other || (own == other && key.id < id)
}

/// Whether a key is that of this kind and id.
fn is_of(key: Key, kind: Kind, id: u64) -> bool
    ensures { result ≡ eq_by_cmp key_cmp (key_named kind id) key }
{
    rank_of(key.kind) == rank_of(kind) && key.id == id
}

/// How far behind the first of `steps + 1` ids an id stands, if these rise evenly; one below the first stands where that one does.
/// `None`: they do not rise.
fn steps_to(first: u64, last: u64, id: u64, steps: usize) -> Option<usize> {
    let ahead = id.saturating_sub(first);
    let span = last.checked_sub(first)?;
    let place = ahead.checked_mul(steps as u64)?.checked_div(span)?;
    usize::try_from(place).ok()
}

/// Which entry between two ends is looked at next: at first that of `start`, then twice where the id would stand if ids rise
/// evenly, and then the middle one, so that no ids make a search long.
fn next_place(entries: &[Entry], low: usize, high: usize, start: usize, turn: u8, id: u64) -> usize
    requires below { low < high }
    requires within { high ≤ length entries.now }
    ensures low { low ≤ result }
    ensures high { result < high }
{
    if turn == 0 {
        return start.max(low).min(high - 1);
    }
    let middle = low + (high - low) / 2;
    if turn % 3 == 0 {
        return middle;
    }
    let first = entries[low].key;
    let last = entries[high - 1].key;
    match steps_to(first.id, last.id, id, high - 1 - low) {
        Some(steps) => low.saturating_add(steps).min(high - 1),
        None => middle,
    }
}

/// How many of the entries have keys below that of this kind and id. The search begins at `start`.
pub(crate) fn place_of(entries: &[Entry], start: usize, kind: Kind, id: u64) -> usize
    requires { IsChange entries.now }
    ensures within { result ≤ length entries.now }
    ensures below { (k : ℕ) → k < result → IsTrue (is_below (key_in entries.now k) (key_named kind id)) }
    ensures from { (k : ℕ) → result ≤ k → k < length entries.now → is_below (key_in entries.now k) (key_named kind id) ≡ false }
{
    let mut low = 0;
    let mut high = entries.len();
    let mut turn: u8 = 0;
    while low < high {
        let place = next_place(entries, low, high, start, turn, id);
        turn = turn.wrapping_add(1);
        let key = entries[place].key;
        if is_of(key, kind, id) {
            return place;
        }
        if is_before(key, kind, id) {
            low = place + 1;
        } else {
            high = place;
        }
    }
    low
}

/// What the entries say of the object of this kind with this id. `None`: they do not name it. The search begins at `start`.
pub(crate) fn named_at(
    entries: &[Entry],
    start: usize,
    kind: Kind,
    id: u64,
) -> Option<&Option<Object>>
    requires { IsChange entries.now }
    ensures named { option_copied result ≡ named_in entries.now (key_named kind id) }
{
    let place = place_of(entries, start, kind, id);
    if place >= entries.len() {
        return None;
    }
    let entry = &entries[place];
    if is_of(entry.key, kind, id) {
        return Some(&entry.object);
    }
    None
}

/// The place of an object that is a node and has one.
pub(crate) fn place_in(object: &Option<Object>) -> Option<Place>
    ensures place { result ≡ place_in object.now }
{
    match object {
        Some(Object::Node { place, .. }) => *place,
        _ => None,
    }
}
