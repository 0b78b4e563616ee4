//! The places of a run at which something outside may hold the thread that comes by.

use crate::Progress;
use std::rt::Clock;

/// Where a thread passes a gate. The number that it brings is the ticket at `Drawn` and `Built`, the
/// change file's number from 1 at `BeforeChange`, the version at `Published`, and the reader's number
/// from 1 at `BeforeLook`.
#[derive(Clone, Copy, PartialEq, Eq)]
pub enum GatePlace {
    Drawn,
    Built,
    BeforeChange,
    Published,
    BeforeLook,
}

/// A gate that threads pass. No clause speaks of what it does: a run's answer is the same whatever the
/// gate, and one that holds a thread for some turns shows which threads ran beside each other.
pub trait Gate: Send + Sync {
    /// Lets the thread through, at once or after some turns.
    fn pass(&self, place: GatePlace, number: u64);
}

/// A gate that holds nobody.
#[derive(Clone, Copy, PartialEq, Eq)]
pub struct OpenGate;

impl Gate for OpenGate {
    fn pass(&self, _place: GatePlace, _number: u64) {}
}

/// How many objects are built between two looks at the clock.
const LOOKS: u64 = 16;

/// A gate that holds nobody, and tells of how many objects the rows are built.
#[derive(Drop)]
pub struct TellingGate<'p, R> {
    progress: &'p Progress<R>,
}

impl<'p, R> TellingGate<'p, R> {
    /// One that tells by this line.
    pub fn new(progress: &'p Progress<R>) -> Self {
        Self { progress }
    }
}

impl<R: Clock + Eprint + Sync> Gate for TellingGate<'_, R> {
    fn pass(&self, place: GatePlace, number: u64) {
        if place == GatePlace::Built && number % LOOKS == 0 {
            self.progress.tell_built(number);
        }
    }
}
