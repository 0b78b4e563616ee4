//! Workers that run beside each other.

use crate::built::{numbers_of, rows_by};
use crate::pending::nodes_to;
use crate::refusal::Refusal;
use example_table::{named_row, number_in};
use object_fold::Objects;
use osm_base::PendingSet;
use outside::{Gate, GatePlace};
use std::alloc::Global;
use std::sync::atomic::{AtomicBool, AtomicU64, Ordering};
use std::thread::{self, Threads};

/// Holds the worker that drew ticket 0 until ticket 1 is built, for so many turns at most.
#[derive(Drop)]
struct HoldsFirst {
    turns: u64,
    built: AtomicBool,
    seen: AtomicBool,
}

impl HoldsFirst {
    fn hold(&self) {
        for _ in 0..self.turns {
            if self.built.load(Ordering::SeqCst) {
                self.seen.store(true, Ordering::SeqCst);
                return;
            }
            thread::yield_now();
        }
    }
}

impl Gate for HoldsFirst {
    fn pass(&self, place: GatePlace, number: u64) {
        if place == GatePlace::Built && number == 1 {
            self.built.store(true, Ordering::SeqCst);
        }
        if place == GatePlace::Drawn && number == 0 {
            self.hold();
        }
    }
}

/// A row `WORKERS TURNS`: ticket 0 of three is held from its drawing on until ticket 1 is built, for so many turns.
/// `beside` where ticket 1 was built meanwhile.
pub fn beside<R: Threads + Sync>(
    rt: &R,
    alloc: Global,
    given: &str,
    out: &mut String,
) -> Result<(), Refusal> {
    let Some((workers, turns)) = numbers_of(given) else {
        return Err(Refusal::NoRow);
    };
    let gate = HoldsFirst {
        turns,
        built: AtomicBool::new(false),
        seen: AtomicBool::new(false),
    };
    let pending = nodes_to(alloc, 3)?;
    build_held(rt, alloc, workers, &pending, &gate)?;
    let seen = gate.seen.load(Ordering::SeqCst);
    out.push_str(if seen { "beside" } else { "one after another" })?;
    Ok(())
}

/// Holds each of so many tickets that are built first, with its worker, until they all are, for so many turns at most.
#[derive(Drop)]
struct HoldsBuilt {
    tickets: u64,
    turns: u64,
    built: AtomicU64,
    missed: AtomicBool,
}

impl HoldsBuilt {
    /// Whether the turns of one ran out.
    fn has_missed(&self) -> bool {
        self.missed.load(Ordering::SeqCst)
    }

    fn hold(&self) {
        for _ in 0..self.turns {
            if self.built.load(Ordering::SeqCst) >= self.tickets || self.has_missed() {
                return;
            }
            thread::yield_now();
        }
        self.missed.store(true, Ordering::SeqCst);
    }
}

impl Gate for HoldsBuilt {
    fn pass(&self, place: GatePlace, _number: u64) {
        if place == GatePlace::Built && self.built.fetch_add(1, Ordering::SeqCst) < self.tickets {
            self.hold();
        }
    }
}

/// A row `WORKERS TICKETS TURNS`: of 64 tickets each of so many that are built first is held until they all are, for so many turns.
/// `held` where they were.
pub fn held<R: Threads + Sync>(
    rt: &R,
    alloc: Global,
    given: &str,
    out: &mut String,
) -> Result<(), Refusal> {
    let Some((workers, tickets, turns)) = held_by(given) else {
        return Err(Refusal::NoRow);
    };
    let gate = HoldsBuilt {
        tickets,
        turns,
        built: AtomicU64::new(0),
        missed: AtomicBool::new(false),
    };
    let pending = nodes_to(alloc, 64)?;
    build_held(rt, alloc, workers, &pending, &gate)?;
    out.push_str(if gate.has_missed() { "in vain" } else { "held" })?;
    Ok(())
}

/// Three numbers.
fn held_by(text: &str) -> Option<(u64, u64, u64)> {
    let (workers, rest) = named_row(text)?;
    let (tickets, turns) = numbers_of(rest)?;
    Some((number_in(workers)?, tickets, turns))
}

/// Builds the rows of no object behind a gate.
fn build_held<R: Threads + Sync, G: Gate>(
    rt: &R,
    alloc: Global,
    workers: u64,
    pending: &PendingSet,
    gate: &G,
) -> Result<(), Refusal> {
    rows_by(rt, alloc, workers, pending, &Objects::new(alloc), gate)?;
    Ok(())
}
