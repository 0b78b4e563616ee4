//! The runs of tiles that events tell: a walk over all of them, from north to south and from west to east.
ghost use Rattle.std.specs.Prelude.{◌≡◌, ℕ, ◌+◌, ◌<◌, ◌≤◌, ◌^◌, ◌==◌, ◌&&◌, ◌||◌, length, slice_index_or, OnOk, IfOk, not, if◌then◌else◌};
ghost use Rattle.std.specs.List.{AllByRecursion};
ghost use Rattle.tile_cover.specs.Events.{IsEvent};
ghost use Rattle.tile_cover.specs.Runs.{has};
ghost use Rattle.tile_cover.specs.Sweep.{AddsEvent, AreRising, IsAtRow, StandsBefore, from_of as from_of_run, is_odd_row, is_told};

use crate::events::Event;
use crate::runs::{Run, TileRuns};
use osm_base::OutOfMemory;
use std::alloc::Global;

/// How far the walk has come.
#[derive(Clone, Copy)]
pub(crate) struct Cursor {
    row: u32,
    /// The first column of the row that is not decided yet.
    edge: u32,
    /// An odd number of the events of the row that are left go through its northern side.
    odd: bool,
}

/// Whether an odd number of the events of a row, with which the list begins if it has any, go through its northern side.
fn is_odd(events: &[Event], row: u32) -> bool
    requires rising { AreRising events.now }
    requires row { AllByRecursion (λ event. row ≤ event.row) events.now }
    requires events { AllByRecursion (IsEvent 65536) events.now }
    ensures odd { result ≡ is_odd_row row events.now }
{
    let mut odd = false;
    for event in events {
        if event.row != row {
            return odd;
        }
        if event.span.straddles {
            odd = !odd;
        }
    }
    odd
}

/// The cursor at the row of the first of the events that are left.
fn cursor_at(cursor: Cursor, event: Event, events: &[Event]) -> Cursor
    requires some { 0 < length events.now }
    requires first { event ≡ slice_index_or events.now 0 event }
    requires rising { AreRising events.now }
    requires events { AllByRecursion (IsEvent 65536) events.now }
    requires odd { cursor.odd ≡ is_odd_row cursor.row events.now }
    ensures at_row { IsAtRow cursor result events.now event }
{
    let row = event.row;
    if row == cursor.row {
        return cursor;
    }
    Cursor {
        row,
        edge: 0,
        odd: is_odd(events, row),
    }
}

/// The first column of the run that an event makes.
fn from_of(filled: bool, cursor: Cursor, event: Event) -> u32
    ensures { result ≡ from_of_run filled cursor event }
{
    if filled && cursor.odd {
        return cursor.edge;
    }
    cursor.edge.max(event.span.first)
}

/// Whether an odd number of the row's events after this one go through its northern side.
fn is_odd_after(cursor: Cursor, event: Event) -> bool
    ensures { result ≡ (if event.span.straddles then not cursor.odd else cursor.odd) }
{
    if event.span.straddles {
        !cursor.odd
    } else {
        cursor.odd
    }
}

/// Adds the tiles of an event, and the filled ones before it.
fn add_event(
    set: &mut TileRuns,
    zoom: u32,
    filled: bool,
    cursor: Cursor,
    event: Event,
) -> Result<Cursor, OutOfMemory>
    requires zoom { zoom ≤ 16 }
    requires event { IsEvent (2 ^ zoom) event }
    requires row { cursor.row ≡ event.row }
    requires before { StandsBefore zoom cursor set.old }
    ensures adds { IfOk result (λ next. AddsEvent zoom filled cursor event set.old set.new next) }
    ensures before { IfOk result (λ next. StandsBefore zoom next set.new) }
{
    let first = from_of(filled, cursor, event);
    let last = event.span.last;
    let row = cursor.row;
    let odd = is_odd_after(cursor, event);
    if first > last {
        let edge = cursor.edge;
        return Ok(Cursor { row, edge, odd });
    }
    let y = row;
    set.add(Run {
        zoom,
        y,
        first,
        last,
    })?;
    let edge = last + 1;
    Ok(Cursor { row, edge, odd })
}

/// The tiles that events tell, those that they fill included where `filled` says so.
pub(crate) fn runs_of(
    alloc: Global,
    zoom: u32,
    filled: bool,
    events: &[Event],
) -> Result<TileRuns, OutOfMemory>
    requires zoom { zoom ≤ 16 }
    requires rising { AreRising events.now }
    requires events { AllByRecursion (IsEvent (2 ^ zoom)) events.now }
    ensures tiles { IfOk result (λ set. (other x y : ℕ) → has set other x y ≡ ((zoom == other) && is_told filled events.now y x)) }
{
    let mut set = TileRuns::new(alloc);
    let mut cursor = Cursor {
        row: 0,
        edge: 0,
        odd: is_odd(events, 0),
    };
    let mut at = 0;
    while events.len() - at > 0 {
        let event = events[at];
        let (_, rest) = events.split_at(at);
        let here = cursor_at(cursor, event, rest);
        cursor = add_event(&mut set, zoom, filled, here, event)?;
        at += 1;
    }
    Ok(set)
}
