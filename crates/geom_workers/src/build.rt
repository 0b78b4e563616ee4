//! All that waits, built by several workers.
ghost use Rattle.std.specs.Prelude.{◌≡◌, ◌+◌, ◌<◌, ◌≤◌, [], length, map, IfOk};
ghost use Rattle.std.specs.List.{AllByRecursion};
ghost use Rattle.std.specs.Thread.{IsSync};
ghost use Rattle.osm_base.specs.map.Objects.{ObjectSet};
ghost use Rattle.pending_book.specs.Once.{IsOnce};
ghost use Rattle.pending_book.specs.Seat.{seat_view};
ghost use Rattle.geom_workers.specs.Builds.{Builds};
ghost use Rattle.geom_workers.specs.Keys.{keys_of};
ghost use Rattle.geom_workers.specs.Rows.{SufficesFor};
ghost use Rattle.row_rules.specs.Rows.{rows_in, rows_known};

use crate::keys::MAX_KEYS;
use crate::tickets::by_ticket;
use crate::{Hands, Part, key_count, work};
use osm_base::{Lookup, OutOfMemory, PendingSet, RowLists};
use outside::Gate;
use pending_book::{Book, Drawn, Seat};
use std::alloc::Global;
use std::thread::{Threads, join};
use style_read::Style;

/// The rows of all keys that waited, by number of the key, and that each of them was drawn.
#[derive(Drop)]
pub struct Built {
    pub rows: RowLists,
    pub drawn: Drawn,
}

// Draws and builds with all shares of a seat, each by a worker. The hands come one by one: of closures that hold a lifetime `join`
// tells nothing.
fn spread<L: Lookup, G: Gate, R: Threads + Sync>(
    rt: &R,
    alloc: Global,
    book: &Book,
    mut seat: Seat,
    style: &Style,
    pending: &PendingSet,
    lookup: &L,
    gate: &G,
) -> Result<(Seat, Part), OutOfMemory>
    requires seat { seat ≡ seat_view book.now seat.share [] 0 }
    requires share { 0 < seat.share }
    requires tickets { book.now.tickets ≡ length (keys_of pending.now) }
    ensures part { IfOk result (λ (seat, part). Builds style.now (L.known lookup.now) pending.now seat.tickets part) }
    ensures dry { IfOk result (λ (dry, _). dry ≡ seat_view book.now seat.share dry.tickets seat.share) }
{
    let share = seat.share();
    if share == 1 {
        let part = work(alloc, book, &mut seat, style, pending, lookup, gate)?;
        return Ok((seat, part));
    }
    // Each new thread is one worker, made by this one: threads that make threads at once are put on one processor.
    let other = book.split(&mut seat, share - 1);
    let (left, right) = join(
        rt,
        || -> Result<(Seat, Part), OutOfMemory>
            requires { IsSync R.row × (seat ≡ seat_view book.now seat.share [] 0) × (0 < seat.share)
                × (book.now.tickets ≡ length (keys_of pending.now)) }
            ensures { IfOk result (λ (dry, part). Builds style.entry.now (L.known lookup.entry.now) pending.entry.now dry.tickets part
                × (dry ≡ seat_view book.entry.now seat.share dry.tickets seat.share)) }
        { spread(rt, alloc, book, seat, style, pending, lookup, gate) },
        || -> Result<(Seat, Part), OutOfMemory>
            requires { IsSync R.row × (other ≡ seat_view book.now other.share [] 0) × (0 < other.share)
                × (book.now.tickets ≡ length (keys_of pending.now)) }
            ensures { IfOk result (λ (dry, part). Builds style.entry.now (L.known lookup.entry.now) pending.entry.now dry.tickets part
                × (dry ≡ seat_view book.entry.now other.share dry.tickets other.share)) }
        { spread(rt, alloc, book, other, style, pending, lookup, gate) },
    );
    let (mut seat, part) = left?;
    let (other, more) = right?;
    book.join(&mut seat, other);
    Ok((seat, part.then(more)?))
}

/// Builds the rows of all keys that wait, with all workers. The rows are those that one worker
/// builds, and the drawn book has as many tickets as there are keys.
pub fn build_all<L: Lookup, G: Gate, R: Threads + Sync>(
    hands: &Hands<'_, R, G>,
    style: &Style,
    pending: &PendingSet,
    lookup: &L,
) -> Result<Built, OutOfMemory>
    requires few { length (keys_of pending.now) ≤ MAX_KEYS }
    ensures rows { IfOk result (λ built. built.rows ≡ map (rows_known style.now (L.known lookup.now)) (keys_of pending.now)) }
    ensures agreeing { (objects : ObjectSet) → AllByRecursion (SufficesFor style.now (L.known lookup.now) objects) (keys_of pending.now)
        → IfOk result (λ built. built.rows ≡ map (rows_in style.now objects) (keys_of pending.now)) }
    ensures drawn { IfOk result (λ built. built.drawn.tickets ≡ length (keys_of pending.now)) }
    ensures once { IfOk result (λ built. IsOnce built.drawn.list (length (keys_of pending.now))) }
    ensures draws { IfOk result (λ built. built.drawn.draws ≡ length (keys_of pending.now) + hands.now.workers) }
{
    let count = key_count(pending);
    let rt = hands.rt;
    let alloc = hands.alloc;
    let gate = hands.gate;
    let (book, seat) = Book::new(alloc, count as u32, hands.workers.count())?;
    let (seat, part) = spread(rt, alloc, &book, seat, style, pending, lookup, gate)?;
    let drawn = book.close(seat);
    let Part { tickets, rows } = part;
    let rows = by_ticket(alloc, count, tickets.as_slice(), rows)?;
    Ok(Built { rows, drawn })
}
