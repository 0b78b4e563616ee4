//! Where an id stands among rising ones: a search that guesses once, since ids of a file nearly rise evenly.
ghost use Rattle.std.specs.Prelude.{◌≡◌, ◌<◌, ◌≤◌, false, length, IfSome, IsNone};
ghost use Rattle.osm_base.specs.values.Ids.{IsRising, has};
ghost use Rattle.object_fold.specs.RisingIds.{StandsAt};

/// Ends that are further apart are halved, without a guess: over many ids the gaps between them differ too much.
const WIDE: usize = 16_384;

/// How far from the guess is looked next.
const REACH: usize = 32;

/// Where an id stands among rising ones.
pub(crate) fn stand_of(ids: &[u64], id: u64) -> Option<usize>
    requires { IsRising ids.now }
    ensures there { IfSome result (StandsAt ids.now id) }
    ensures none { IsNone result → has ids.now id ≡ false }
{
    let mut low = 0;
    let mut high = ids.len();
    let mut reach = 0;
    let mut rises = false;
    while low < high {
        let place = next_place(ids, low, high, id, reach, rises);
        let own = ids[place];
        if own == id {
            return Some(place);
        }
        reach = next_reach(high - low, reach);
        rises = own < id;
        if rises {
            low = place + 1;
        } else {
            high = place;
        }
    }
    None
}

/// How far behind a guess is looked next: twice as far each time, so that a bad guess does not make a search long.
/// 0: there was no guess yet.
fn next_reach(apart: usize, reach: usize) -> usize {
    if apart > WIDE {
        0
    } else if reach == 0 {
        REACH
    } else {
        reach.saturating_mul(2)
    }
}

/// Which place between two ends is looked at next. `rises`: the last one was at the lower end.
fn next_place(ids: &[u64], low: usize, high: usize, id: u64, reach: usize, rises: bool) -> usize
    requires below { low < high }
    requires within { high ≤ length ids.now }
    ensures low { low ≤ result }
    ensures high { result < high }
{
    let apart = high - low;
    if reach == 0 && apart <= WIDE {
        return guess(ids, low, high, id);
    }
    if reach == 0 || reach >= apart {
        return low + apart / 2;
    }
    if rises {
        return low + reach;
    }
    high - 1 - reach
}

/// Where an id would stand between two ends, if the ids there rose evenly.
fn guess(ids: &[u64], low: usize, high: usize, id: u64) -> usize
    requires below { low < high }
    requires within { high ≤ length ids.now }
    ensures low { low ≤ result }
    ensures high { result < high }
{
    let steps = high - 1 - low;
    match steps_to(ids[low], ids[high - 1], id, steps) {
        Some(place) if place <= steps => low + place,
        _ => low + steps / 2,
    }
}

/// How far behind the first of `steps + 1` ids an id stands, if these rise evenly. `None`: it comes before them, or there is no telling.
fn steps_to(first: u64, last: u64, id: u64, steps: usize) -> Option<usize> {
    let ahead = id.checked_sub(first)?;
    let span = last.checked_sub(first)?;
    let place = ahead.checked_mul(steps as u64)?.checked_div(span)?;
    usize::try_from(place).ok()
}
