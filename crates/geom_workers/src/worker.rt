//! What one worker does.
ghost use Rattle.std.specs.Prelude.{◌≡◌, ◌<◌, ◌≤◌, ◌∷◌, ◌++◌, All, ℕ, List, [], length, IfOk, OnOk};
ghost use Rattle.pending_book.specs.Seat.{seat_view};
ghost use Rattle.geom_workers.specs.Builds.{Builds};
ghost use Rattle.geom_workers.specs.Drawn.{top};
ghost use Rattle.geom_workers.specs.Keys.{keys_of};

use crate::{Part, key_of};
use osm_base::{Key, Kind, Lookup, OutOfMemory, PendingSet};
use outside::{Gate, GatePlace};
use pending_book::{Book, Seat};
use row_map::rows_of;
use std::alloc::Global;
use style_read::Style;

// A worker draws as many tickets before it builds their rows: neighbours among the keys are made of the same places, which
// then are at hand.
const BATCH: u32 = 16;

/// Draws tickets until none is left, and builds the rows of each. After an error the seat keeps the
/// tickets that it drew.
pub fn work<L: Lookup, G: Gate>(
    alloc: Global,
    book: &Book,
    seat: &mut Seat,
    style: &Style,
    pending: &PendingSet,
    lookup: &L,
    gate: &G,
) -> Result<Part, OutOfMemory>
    requires seat { seat.old ≡ seat_view book.now 1 [] 0 }
    requires tickets { book.now.tickets ≡ length (keys_of pending.now) }
    ensures part { IfOk result (λ part. Builds style.now (L.known lookup.now) pending.now seat.new.tickets part) }
    ensures dry { OnOk result (seat.new ≡ seat_view book.now 1 seat.new.tickets 1) }
    ensures same { seat.new ≡ seat_view book.now 1 seat.new.tickets seat.new.nones }
{
    let mut part = Part::new(alloc);
    'drawing: while let Some(first) = book.draw(seat) {
        gate.pass(GatePlace::Drawn, u64::from(first));
        let most = batch_behind(key_of(pending, first));
        let batch = draw_more(alloc, book, seat, first, most, gate)?;
        build_each(alloc, style, pending, lookup, &batch, &mut part, gate)?;
    }
    Ok(part)
}

// How many more tickets a worker draws at once behind that of this key: none behind a relation, whose rows may take long.
fn batch_behind(key: Key) -> u32
    ensures few { result ≤ 15 }
{
    if key.kind == Kind::Relation {
        0
    } else {
        BATCH - 1
    }
}

// This ticket, which was drawn, and some more, as many as are left.
fn draw_more<G: Gate>(
    alloc: Global,
    book: &Book,
    seat: &mut Seat,
    first: u32,
    most: u32,
    gate: &G,
) -> Result<Vec<u32>, OutOfMemory>
    requires seat { seat.old ≡ seat_view book.now 1 seat.old.tickets 0 }
    requires small { first < book.now.tickets }
    ensures same { seat.new ≡ seat_view book.now 1 seat.new.tickets seat.new.nones }
    ensures nones { seat.new.nones ≤ 1 }
    ensures behind { top seat.old.tickets ≤ top seat.new.tickets }
    ensures drawn { IfOk result (λ batch. (before : List ℕ) → seat.old.tickets ≡ before ++ first ∷ [] → seat.new.tickets ≡ before ++ batch.items) }
    ensures small { IfOk result (λ batch. All (λ ticket. ticket < book.now.tickets) batch.items) }
{
    let mut batch = Vec::with_capacity(alloc, BATCH as usize)?;
    batch.push(first)?;
    for _ in 0..most {
        let Some(ticket) = book.draw(seat) else {
            return Ok(batch);
        };
        gate.pass(GatePlace::Drawn, u64::from(ticket));
        batch.push(ticket)?;
    }
    Ok(batch)
}

// Builds the rows of each of these tickets.
fn build_each<L: Lookup, G: Gate>(
    alloc: Global,
    style: &Style,
    pending: &PendingSet,
    lookup: &L,
    batch: &[u32],
    part: &mut Part,
    gate: &G,
) -> Result<(), OutOfMemory>
    requires { All (λ ticket. ticket < length (keys_of pending.now)) batch.now }
    ensures { OnOk result ((drawn : List ℕ) → Builds style.now (L.known lookup.now) pending.now drawn part.old
        → Builds style.now (L.known lookup.now) pending.now (drawn ++ batch.now) part.new) }
{
    for &ticket in batch {
        let rows = rows_of(alloc, style, key_of(pending, ticket), lookup)?;
        part.add(ticket, rows)?;
        gate.pass(GatePlace::Built, u64::from(ticket));
    }
    Ok(())
}
